//! Which blocks a check by a ledger has to read: the bits of regions of 7, 8, 9 and 17 blocks, behind a run, behind one
//! whose state was lost, and where none was.

use super::inputs::Tell;
use super::inputs::Tell::*;
use super::ledger_inputs::Block::*;
use super::ledger_inputs::{EIGHT, Step, TWO_OF_EIGHT, ledger_behind_all};
use super::ledgers::{FIRST, REST, SECOND};
use super::stamps::RUN;
use super::wanted_inputs::tells;
use std::alloc::Global;
use std::test::Fail;
use targets::Since;

/// Seven blocks, nine and seventeen, each written once, all at once; nine, of which the first three are written; and
/// eight, each written twice.
const SEVEN: &[u8] = b"[a]\nrw=write\nbs=1k\nsize=7k\niodepth=8\n";

const NINE: &[u8] = b"[a]\nrw=write\nbs=1k\nsize=9k\niodepth=16\n";

const SEVENTEEN: &[u8] = b"[a]\nrw=write\nbs=1k\nsize=17k\niodepth=32\n";

const THREE_OF_NINE: &[u8] = b"[a]\nrw=write\nbs=1k\nsize=9k\nio_size=3k\niodepth=4\n";

const EIGHT_TWICE: &[u8] = b"[a]\nrw=write\nbs=1k\nsize=8k\nio_size=16k\niodepth=8\n";

/// A job, what was told of its writes, and the bytes, by a ledger that asks for nothing: block b is bit b of the first
/// byte, or bit b - 8 of the second. A block with writes in flight alone isn't asked for, nor one whose write has failed.
static RUNS: [(&[u8], &[Tell], &[u8]); 16] = [
    (SEVEN, &[], &[127]),
    (EIGHT, &[], &[255]),
    (NINE, &[], &[255, 1]),
    (SEVENTEEN, &[], &[255, 255, 1]),
    (SEVEN, &[Take], &[0]),
    (SEVEN, &[Done(0), Take], &[1]),
    (SEVEN, &[Done(6), Done(1), Take], &[66]),
    (EIGHT, &[Done(7), Take], &[128]),
    (EIGHT, &[Done(2), Failed(3), Done(5), Take], &[36]),
    (NINE, &[Take], &[0, 0]),
    (NINE, &[Done(8), Take], &[0, 1]),
    (NINE, &[Done(0), Done(3), Done(7), Take], &[137, 0]),
    (SEVENTEEN, &[Done(16), Done(9), Take], &[0, 2, 1]),
    (THREE_OF_NINE, &[], &[7, 0]),
    (EIGHT_TWICE, &[Done(0), Done(4), Take], &[17]),
    (
        EIGHT_TWICE,
        &[Done(0), Done(1), Done(2), Done(3), Done(4), Done(12), Take],
        &[31],
    ),
];

#[test]
fn blocks_that_one_run_asks_for(rt: HostRuntime) -> Result<(), Fail> {
    for (number, (job, told, bytes)) in RUNS.iter().enumerate() {
        let step = Step { job, told, ..FIRST };
        if tells(rt.alloc(), &step, b"", bytes) != Some(true) {
            return Err(Fail::new(number));
        }
    }
    Ok(())
}

/// No run, and one whose state was lost, of a ledger that asks for nothing.
#[test]
fn no_blocks_of_an_empty_ledger(rt: HostRuntime) {
    let lost = Step {
        since: Since::LostRun,
        ..FIRST
    };
    let nine = Step { job: NINE, ..REST };
    assert!(rt; tells(rt.alloc(), &REST, b"", &[0]) == Some(true));
    assert!(rt; tells(rt.alloc(), &lost, b"", &[0]) == Some(true));
    assert!(rt; tells(rt.alloc(), &nine, b"", &[0, 0]) == Some(true));
}

/// All blocks but the last are lost.
const LOST: Step = Step {
    target: &[
        Byte(1),
        Byte(1),
        Byte(1),
        Byte(1),
        Byte(1),
        Byte(1),
        Byte(1),
        Write(RUN, 7, 7),
    ],
    status: 1,
    lines: "block 0 at-rest: wants write 0 of run 7, holds byte 1\n\
        block 1 at-rest: wants write 1 of run 7, holds byte 1\n\
        block 2 at-rest: wants write 2 of run 7, holds byte 1\n\
        block 3 at-rest: wants write 3 of run 7, holds byte 1\n\
        block 4 at-rest: wants write 4 of run 7, holds byte 1\n\
        block 5 at-rest: wants write 5 of run 7, holds byte 1\n\
        block 6 at-rest: wants write 6 of run 7, holds byte 1\n\
        unchecked\nreport checked 8 faults 7 end whole first 0 1 2 3 4 5 6 at-rest 7\n",
    ..REST
};

/// The state of a run that may have written blocks 0 and 1 is lost.
const LOST_RUN: Step = Step {
    since: Since::LostRun,
    ..SECOND
};

/// A run has completed its write to block 1, and has that to block 0 in flight; and one has both in flight.
const ONE_DONE: Step = Step {
    run: 9,
    told: &[Done(1), Take],
    ..SECOND
};

const NONE_DONE: Step = Step {
    run: 9,
    told: &[Take],
    ..SECOND
};

/// Behind a full pass over eight blocks each is asked for, whatever the run has in flight; but not those to which a run
/// whose state was lost may have written.
static BEHIND_A_PASS: [(Step, &[u8]); 5] = [
    (REST, &[255]),
    (SECOND, &[255]),
    (NONE_DONE, &[255]),
    (LOST_RUN, &[252]),
    (
        Step {
            job: EIGHT,
            ..LOST_RUN
        },
        &[0],
    ),
];

/// Behind a check that found one of them, that is asked for, and what a run has completed.
static BEHIND_LOSSES: [(Step, &[u8]); 5] = [
    (REST, &[128]),
    (SECOND, &[129]),
    (ONE_DONE, &[130]),
    (NONE_DONE, &[128]),
    (
        Step {
            told: &[],
            ..SECOND
        },
        &[131],
    ),
];

/// Whether each row is told so behind these steps.
fn tell_behind(alloc: Global, steps: &[Step], rows: &[(Step, &[u8])]) -> Result<(), Fail> {
    let ledger = ledger_behind_all(alloc, steps)?;
    for (number, (step, bytes)) in rows.iter().enumerate() {
        if tells(alloc, step, &ledger, bytes) != Some(true) {
            return Err(Fail::new(number));
        }
    }
    Ok(())
}

#[test]
fn blocks_that_a_ledger_asks_for(rt: HostRuntime) -> Result<(), Fail> {
    tell_behind(rt.alloc(), &[FIRST], &BEHIND_A_PASS)?;
    tell_behind(rt.alloc(), &[FIRST, LOST], &BEHIND_LOSSES)
}
