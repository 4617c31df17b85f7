//! Tours of a job by recorded inputs: the orders and states of their tiles, and the line behind them.

use super::inputs::TWO_BLOCKS;
use super::tour_inputs::Piece::*;
use super::tour_inputs::Word::*;
use super::tour_inputs::{Piece, Word, behind_pieces, tour, tour_of};
use fake_io::{Source, in_steps, page_with, source_of};
use std::alloc::Global;
use std::test::Fail;

/// The words, the pieces that come of them, and the line behind these, or none where the status is 0.
type Row = (
    &'static str,
    &'static [Word],
    &'static [Piece],
    &'static str,
);

const FIRST: &[Piece] = &[Order(0, 7, 0, 0), Order(0, 7, 1, 1)];

const BOTH: &[Piece] = &[
    Order(0, 7, 0, 0),
    Order(0, 7, 1, 1),
    Order(1, 9, 0, 0),
    Order(1, 9, 1, 1),
];

const NOT_IN_FLIGHT: &str = "refused 21 NotInFlight\n";

const BAD_NOTICE: &str = "refused 94 BadNotice\n";

const END_OF_INPUT: &str = "refused 95 EndOfInput\n";

static WHOLE: [Row; 6] = [
    ("nothing", &[], &[], ""),
    (
        "two tiles at once",
        &[
            Begin(0, 7),
            Begin(1, 9),
            Done(1, 0),
            Done(0, 1),
            Done(0, 0),
            Take(0),
            Failed(1, 1),
            Take(1),
        ],
        &[
            Order(0, 7, 0, 0),
            Order(0, 7, 1, 1),
            Order(1, 9, 0, 0),
            Order(1, 9, 1, 1),
            Order(1, 9, 2, 0),
            Order(0, 7, 2, 0),
            Order(0, 7, 3, 1),
            State(0, 7, 4, &[0, 1]),
            State(1, 9, 3, &[0]),
        ],
        "",
    ),
    (
        "one tile behind the other",
        &[Begin(0, 7), Take(0), Begin(1, 9), Done(1, 0), Take(1)],
        &[
            Order(0, 7, 0, 0),
            Order(0, 7, 1, 1),
            State(0, 7, 2, &[]),
            Order(1, 9, 0, 0),
            Order(1, 9, 1, 1),
            Order(1, 9, 2, 0),
            State(1, 9, 3, &[0]),
        ],
        "",
    ),
    (
        "one run twice",
        &[Begin(0, 7), Begin(1, 7), Take(1), Done(0, 0), Take(0)],
        &[
            Order(0, 7, 0, 0),
            Order(0, 7, 1, 1),
            Order(1, 7, 0, 0),
            Order(1, 7, 1, 1),
            State(1, 7, 2, &[]),
            Order(0, 7, 2, 0),
            State(0, 7, 3, &[0]),
        ],
        "",
    ),
    (
        "the greatest run",
        &[Begin(0, u64::MAX), Take(0)],
        &[
            Order(0, u64::MAX, 0, 0),
            Order(0, u64::MAX, 1, 1),
            State(0, u64::MAX, 2, &[]),
        ],
        "",
    ),
    (
        "a failed write stops its own tile",
        &[
            Begin(0, 7),
            Begin(1, 9),
            Failed(0, 0),
            Done(0, 1),
            Done(1, 0),
            Take(0),
            Take(1),
        ],
        &[
            Order(0, 7, 0, 0),
            Order(0, 7, 1, 1),
            Order(1, 9, 0, 0),
            Order(1, 9, 1, 1),
            Order(1, 9, 2, 0),
            State(0, 7, 2, &[1]),
            State(1, 9, 3, &[0]),
        ],
        "",
    ),
];

static REFUSED: [Row; 18] = [
    ("a first tile 1", &[Begin(1, 7)], &[], BAD_NOTICE),
    (
        "a tile twice",
        &[Begin(0, 7), Begin(0, 9)],
        FIRST,
        BAD_NOTICE,
    ),
    (
        "a tile left out",
        &[Begin(0, 7), Begin(2, 9)],
        FIRST,
        BAD_NOTICE,
    ),
    (
        "a tile that was closed",
        &[Begin(0, 7), Take(0), Begin(0, 9)],
        &[Order(0, 7, 0, 0), Order(0, 7, 1, 1), State(0, 7, 2, &[])],
        BAD_NOTICE,
    ),
    ("run 0", &[Begin(0, 0)], &[], BAD_NOTICE),
    (
        "a kind of 0",
        &[Begin(0, 7), Bytes(&[0; 24])],
        FIRST,
        BAD_NOTICE,
    ),
    (
        "a kind of 5",
        &[Bytes(&[
            0, 0, 0, 0, 0, 0, 0, 5, 0, 0, 0, 0, 0, 0, 0, 0, 0, 0, 0, 0, 0, 0, 0, 1,
        ])],
        &[],
        BAD_NOTICE,
    ),
    (
        "a take of a write",
        &[
            Begin(0, 7),
            Bytes(&[
                0, 0, 0, 0, 0, 0, 0, 3, 0, 0, 0, 0, 0, 0, 0, 0, 0, 0, 0, 0, 0, 0, 0, 1,
            ]),
        ],
        FIRST,
        BAD_NOTICE,
    ),
    ("no such tile", &[Done(0, 0)], &[], NOT_IN_FLIGHT),
    (
        "a take of the next tile",
        &[Begin(0, 7), Take(1)],
        FIRST,
        NOT_IN_FLIGHT,
    ),
    (
        "a take twice",
        &[Begin(0, 7), Take(0), Take(0)],
        &[Order(0, 7, 0, 0), Order(0, 7, 1, 1), State(0, 7, 2, &[])],
        NOT_IN_FLIGHT,
    ),
    (
        "a write behind a take",
        &[Begin(0, 7), Take(0), Done(0, 0)],
        &[Order(0, 7, 0, 0), Order(0, 7, 1, 1), State(0, 7, 2, &[])],
        NOT_IN_FLIGHT,
    ),
    (
        "a write that is open in the other tile alone",
        &[Begin(0, 7), Begin(1, 9), Done(1, 0), Done(0, 2)],
        &[
            Order(0, 7, 0, 0),
            Order(0, 7, 1, 1),
            Order(1, 9, 0, 0),
            Order(1, 9, 1, 1),
            Order(1, 9, 2, 0),
        ],
        NOT_IN_FLIGHT,
    ),
    (
        "a second end",
        &[Begin(0, 7), Begin(1, 9), Failed(0, 1), Done(0, 1)],
        BOTH,
        NOT_IN_FLIGHT,
    ),
    ("an open tile", &[Begin(0, 7)], FIRST, END_OF_INPUT),
    (
        "one of two tiles open",
        &[Begin(0, 7), Begin(1, 9), Take(0)],
        &[
            Order(0, 7, 0, 0),
            Order(0, 7, 1, 1),
            Order(1, 9, 0, 0),
            Order(1, 9, 1, 1),
            State(0, 7, 2, &[]),
        ],
        END_OF_INPUT,
    ),
    (
        "a part of a word",
        &[Begin(0, 7), Bytes(&[0; 23])],
        FIRST,
        END_OF_INPUT,
    ),
    (
        "a part of a word where no tile is open",
        &[Bytes(b"\0")],
        &[],
        END_OF_INPUT,
    ),
];

/// Whether a source is answered by these pieces and this line.
fn answers(alloc: Global, source: Source<'_>, pieces: &[Piece], line: &str) -> Option<bool> {
    let mut page = page_with(alloc, usize::MAX);
    let status = tour(alloc, 0, source, &mut page)?;
    let rest = behind_pieces(alloc, page.text.as_slice(), pieces)?;
    let wanted = if line.is_empty() { 0 } else { 2 };
    Some(status == wanted && rest == line.as_bytes())
}

/// Whether a row is answered as it says, whole and in steps.
fn agrees(alloc: Global, row: &Row) -> Option<bool> {
    let (_, words, pieces, line) = row;
    let input = tour_of(alloc, TWO_BLOCKS, words).ok()?;
    let whole = answers(alloc, source_of(&input), pieces, line)?;
    let stepped = answers(alloc, in_steps(&input, 7), pieces, line)?;
    Some(whole && stepped)
}

#[test]
fn tours_by_recorded_inputs(rt: HostRuntime) -> Result<(), Fail> {
    for row in WHOLE.iter().chain(REFUSED.iter()) {
        if agrees(rt.alloc(), row) != Some(true) {
            return Err(Fail::new(row.0));
        }
    }
    Ok(())
}

/// A job file as it comes, the job that is asked for, and the line that refuses it.
static TEXTS: [(&[u8], u32, &str); 4] = [
    (b"[a]\nx_new=1\n", 0, "refused 4 UnknownOption 2\n"),
    (
        b"[a]\nrw=read\nbs=512\nsize=1k\n",
        0,
        "refused 13 WrongPhase\n",
    ),
    (TWO_BLOCKS, 1, "refused 96 NoJob\n"),
    (b"", 0, "refused 6 NoJobs\n"),
];

/// Whether a job file is refused by this line alone.
fn refuses(alloc: Global, text: &[u8], job: u32, line: &str) -> Option<bool> {
    let input = tour_of(alloc, text, &[Begin(0, 7), Take(0)]).ok()?;
    let mut page = page_with(alloc, usize::MAX);
    let status = tour(alloc, job, source_of(&input), &mut page)?;
    Some(status == 2 && page.text.as_slice() == line.as_bytes())
}

#[test]
fn job_files_that_tours_refuse(rt: HostRuntime) -> Result<(), Fail> {
    for (text, job, line) in &TEXTS {
        if refuses(rt.alloc(), text, *job, line) != Some(true) {
            return Err(Fail::new(*line));
        }
    }
    Ok(())
}
