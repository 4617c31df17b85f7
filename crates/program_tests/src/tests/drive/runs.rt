//! Runs of a job by recorded inputs: the orders, and the state or the line behind them.

use super::inputs::Tell::*;
use super::inputs::{TWO_BLOCKS, Tell, input_of};
use super::stamps::{RUN, push_order};
use fake_io::{Page, Source, failing, failing_at, in_steps, page_with, source_of};
use fc_base::{JobNo, RunNo, Seq};
use std::alloc::{AllocError, Global};
use std::io::BufReader;
use std::test::Fail;
use targets::write_job;
use verify_state::VerifyState;

/// What stands behind the orders.
#[derive(Clone, Copy)]
enum End {
    /// A state with so many writes issued, of which these were done.
    State(u64, &'static [u64]),
    /// This line.
    Line(&'static str),
}

use End::*;

/// What is told, and the orders that come of it, each a write and its block, and what stands behind them.
type Row = (&'static str, &'static [Tell], &'static [(u64, u64)], End);

const BOTH: &[(u64, u64)] = &[(0, 0), (1, 1)];

const THREE: &[(u64, u64)] = &[(0, 0), (1, 1), (2, 0)];

const ALL: &[(u64, u64)] = &[(0, 0), (1, 1), (2, 0), (3, 1)];

static ROWS: [Row; 17] = [
    ("a take at once", &[Take], BOTH, State(2, &[])),
    (
        "a take in the middle",
        &[Done(0), Take],
        THREE,
        State(3, &[0]),
    ),
    (
        "the next write waits for the one before it to its block",
        &[Done(1), Take],
        BOTH,
        State(2, &[1]),
    ),
    (
        "a whole job",
        &[Done(1), Done(0), Done(3), Done(2), Take],
        ALL,
        State(4, &[0, 1, 2, 3]),
    ),
    (
        "a failed write",
        &[Failed(0), Done(1), Take],
        BOTH,
        State(2, &[1]),
    ),
    (
        "a failed write behind a done one",
        &[Done(0), Failed(2), Done(1), Take],
        THREE,
        State(3, &[0, 1]),
    ),
    (
        "nothing is read behind a take",
        &[Take, Bytes(b"what stands behind it")],
        BOTH,
        State(2, &[]),
    ),
    (
        "no take",
        &[Done(0)],
        THREE,
        Line("refused 95 EndOfInput\n"),
    ),
    ("nothing", &[], BOTH, Line("refused 95 EndOfInput\n")),
    (
        "a part of a notice",
        &[Done(0), Bytes(&[0; 15])],
        THREE,
        Line("refused 95 EndOfInput\n"),
    ),
    (
        "a notice of no kind",
        &[
            Bytes(&[0, 0, 0, 0, 0, 0, 0, 4, 0, 0, 0, 0, 0, 0, 0, 0]),
            Take,
        ],
        BOTH,
        Line("refused 94 BadNotice\n"),
    ),
    (
        "a kind of 0",
        &[Done(0), Bytes(&[0; 16]), Take],
        THREE,
        Line("refused 94 BadNotice\n"),
    ),
    (
        "a take of a write",
        &[Bytes(&[0, 0, 0, 0, 0, 0, 0, 3, 0, 0, 0, 0, 0, 0, 0, 1])],
        BOTH,
        Line("refused 94 BadNotice\n"),
    ),
    (
        "a write that isn't ordered",
        &[Done(2)],
        BOTH,
        Line("refused 21 NotInFlight\n"),
    ),
    (
        "a second end",
        &[Done(0), Done(0)],
        THREE,
        Line("refused 21 NotInFlight\n"),
    ),
    (
        "an end behind a failure",
        &[Failed(0), Done(0), Take],
        BOTH,
        Line("refused 21 NotInFlight\n"),
    ),
    (
        "a failure behind an end",
        &[Done(1), Failed(1), Take],
        BOTH,
        Line("refused 21 NotInFlight\n"),
    ),
];

/// Runs job `job` of an input, and answers the status, unless a write fails.
fn run(alloc: Global, job: u32, source: Source<'_>, page: &mut Page) -> Option<u8> {
    let mut reader = BufReader::new(alloc, source).ok()?;
    if job >= 16 {
        return None;
    }
    write_job(alloc, RunNo(RUN), JobNo(job), &mut reader, page).ok()
}

/// The orders of these writes.
fn orders_of(alloc: Global, orders: &[(u64, u64)]) -> Result<Vec<u8>, AllocError> {
    let mut bytes = Vec::new(alloc);
    for (write, block) in orders {
        push_order(&mut bytes, *write, *block)?;
    }
    Ok(bytes)
}

/// Whether a state counts just these of the writes that it tells of.
fn is_state(bytes: &[u8], issued: u64, done: &[u64]) -> bool {
    match VerifyState::decode(bytes) {
        Ok(state) => {
            let mut agree = state.issued() == issued && state.key().run == RunNo(RUN);
            for write in 0..issued {
                agree = agree && state.counts(Seq(write)) == done.contains(&write);
            }
            agree
        }
        Err(_) => false,
    }
}

/// Whether this ends a run so, with this status.
fn ends(bytes: &[u8], status: u8, end: End) -> bool {
    match end {
        State(issued, done) => status == 0 && is_state(bytes, issued, done),
        Line(line) => status == 2 && bytes == line.as_bytes(),
    }
}

/// Whether a source is answered by these orders and this end.
fn answers(alloc: Global, source: Source<'_>, orders: &[(u64, u64)], end: End) -> Option<bool> {
    let mut page = page_with(alloc, usize::MAX);
    let status = run(alloc, 0, source, &mut page)?;
    let wanted = orders_of(alloc, orders).ok()?;
    let text = page.text.as_slice();
    let count = wanted.len().min(text.len());
    let (front, rest) = text.split_at(count);
    Some(front == wanted.as_slice() && ends(rest, status, end))
}

/// Whether a row is answered as it says, whole and in steps.
fn agrees(alloc: Global, row: &Row) -> Option<bool> {
    let (_, told, orders, end) = row;
    let input = input_of(alloc, TWO_BLOCKS, told).ok()?;
    let whole = answers(alloc, source_of(&input), orders, *end)?;
    let stepped = answers(alloc, in_steps(&input, 7), orders, *end)?;
    Some(whole && stepped)
}

#[test]
fn runs_by_recorded_inputs(rt: HostRuntime) -> Result<(), Fail> {
    for row in &ROWS {
        if agrees(rt.alloc(), row) != Some(true) {
            return Err(Fail::new(row.0));
        }
    }
    Ok(())
}

/// A job file as it comes, the job that is asked for, and the line that refuses it.
static REFUSED: [(&[u8], u32, &str); 5] = [
    (b"[a]\nx_new=1\n", 0, "refused 4 UnknownOption 2\n"),
    (
        b"[a]\nrw=write\nbs=512\nsize=256\n",
        0,
        "refused 9 OutOfLimits 0\n",
    ),
    (
        b"[a]\nrw=read\nbs=512\nsize=1k\n",
        0,
        "refused 13 WrongPhase\n",
    ),
    (TWO_BLOCKS, 1, "refused 96 NoJob\n"),
    (b"", 0, "refused 6 NoJobs\n"),
];

/// Whether this job of a source is refused by this line alone.
fn is_refused(alloc: Global, source: Source<'_>, job: u32, line: &str) -> bool {
    let mut page = page_with(alloc, usize::MAX);
    let status = run(alloc, job, source, &mut page);
    status == Some(2) && page.text.as_slice() == line.as_bytes()
}

/// The same of a job file.
fn refuses(alloc: Global, text: &[u8], job: u32, line: &str) -> bool {
    match input_of(alloc, text, &[Take]) {
        Ok(input) => is_refused(alloc, source_of(&input), job, line),
        Err(_) => false,
    }
}

#[test]
fn job_files_that_are_refused(rt: HostRuntime) -> Result<(), Fail> {
    for (text, job, line) in &REFUSED {
        if !refuses(rt.alloc(), text, *job, line) {
            return Err(Fail::new(*line));
        }
    }
    Ok(())
}

/// Inputs that end in the job file or its length, and one that is too long.
static TEXTS: [(&[u8], &str); 5] = [
    (b"", "refused 95 EndOfInput\n"),
    (b"\0\0\0", "refused 95 EndOfInput\n"),
    (b"\0\0\0\x04[a]", "refused 95 EndOfInput\n"),
    (b"\xff\xff\xff\xff[a]\n", "refused 95 EndOfInput\n"),
    (b"\0\0\0\0", "refused 6 NoJobs\n"),
];

#[test]
fn job_files_that_end_early(rt: HostRuntime) -> Result<(), Fail> {
    for (input, line) in &TEXTS {
        if !is_refused(rt.alloc(), source_of(input), 0, line) {
            return Err(Fail::new(*line));
        }
    }
    Ok(())
}

/// An input whose job file has more bytes than one may have.
fn too_long(alloc: Global) -> Result<Vec<u8>, AllocError> {
    let mut input = Vec::new(alloc);
    input.extend_from_slice(&16_385u32.to_be_bytes())?;
    for _ in 0..16_385 {
        input.push(b' ')?;
    }
    Ok(input)
}

#[test]
fn a_job_file_that_is_too_long(rt: HostRuntime) -> Result<(), Fail> {
    let input = too_long(rt.alloc())?;
    if is_refused(rt.alloc(), source_of(&input), 0, "refused 1 TooLong\n") {
        Ok(())
    } else {
        Err(Fail::new("a text of 16,385 bytes"))
    }
}

/// The whole job.
const WHOLE: [Tell; 5] = [Done(1), Done(0), Done(3), Done(2), Take];

/// How a run of the whole job ends where the read of this number fails: with a line behind some of the orders.
fn fails_at_read(alloc: Global, number: u32) -> Option<bool> {
    let input = input_of(alloc, TWO_BLOCKS, &WHOLE).ok()?;
    let mut page = page_with(alloc, usize::MAX);
    let status = run(alloc, 0, failing_at(&input, 16, number), &mut page)?;
    let text = page.text.as_slice();
    Some(status == 2 && text.ends_with(b"refused 91 ReadError\n") && text.len() % 528 == 21)
}

#[test]
fn failed_reads(rt: HostRuntime) -> Result<(), Fail> {
    for number in 0..9 {
        if fails_at_read(rt.alloc(), number) != Some(true) {
            return Err(Fail::new(number));
        }
    }
    Ok(())
}

#[test]
fn a_failed_read_in_place_of_the_end(rt: HostRuntime) -> Result<(), Fail> {
    let input = input_of(rt.alloc(), TWO_BLOCKS, &[Done(0)])?;
    let source = failing(&input, usize::MAX);
    match answers(rt.alloc(), source, THREE, Line("refused 91 ReadError\n")) {
        Some(true) => Ok(()),
        _ => Err(Fail::new("a failed read")),
    }
}

/// Whether an output with room for so many bytes fails, and is not written to any more.
fn fails_at_byte(alloc: Global, input: &[u8], room: usize) -> bool {
    let mut page = page_with(alloc, room);
    let status = run(alloc, 0, source_of(input), &mut page);
    status.is_none() && page.late_writes == 0
}

/// How many bytes the whole job's orders and its state have.
const OUTPUT: usize = 4 * 528 + 136;

#[test]
fn failed_writes(rt: HostRuntime) -> Result<(), Fail> {
    let input = input_of(rt.alloc(), TWO_BLOCKS, &WHOLE)?;
    for room in (0..OUTPUT).step_by(17) {
        if !fails_at_byte(rt.alloc(), &input, room) {
            return Err(Fail::new(room));
        }
    }
    Ok(())
}
