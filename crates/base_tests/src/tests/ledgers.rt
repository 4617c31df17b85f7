//! What no clause shows of `ledger`: that the calls answer with ample memory, and what is told of stories that can be
//! followed by hand.

mod bytes;
mod copies;
mod faults;
mod stories;

use super::jobs::{KEY, ONE_WRITE};
use fc_base::{JobParts, JobRecord, Key, RunNo, Seq};
use ledger::Ledger;
use recheck::Recheck;
use std::alloc::Global;
use verify_state::VerifyState;
use write_order::{fill_block, place_of};

/// Four blocks of a sector, written once in turn, two writes at the same time.
const JOB: JobParts = JobParts {
    blocks: 4,
    total: 4,
    depth: 2,
    window: 2,
    ..ONE_WRITE
};

/// A run that wrote so many of the blocks in turn until the cut, and which of its writes had completed.
#[derive(Clone, Copy)]
struct Run {
    number: u64,
    total: u64,
    completed: &'static [u64],
}

/// Of the first run's four writes the last is in flight.
const FIRST: Run = Run {
    number: 1,
    total: 4,
    completed: &[0, 1, 2],
};

/// The second run writes the blocks 0 and 1 alone, and its write to block 1 is in flight.
const SECOND: Run = Run {
    number: 2,
    total: 2,
    completed: &[0],
};

/// What a block holds.
#[derive(Clone, Copy)]
enum Held {
    Zeros,
    /// The write of this run to the block, whose number is the block's.
    Write(u64),
}

fn key_of(run: u64) -> Key {
    Key {
        run: RunNo(run),
        ..KEY
    }
}

fn job_of(run: Run) -> Option<JobRecord> {
    JobRecord::make(JobParts {
        total: run.total,
        ..JOB
    })
}

/// The state of a run.
fn state_of(alloc: Global, run: Run) -> Option<VerifyState> {
    let job = job_of(run)?;
    let mut completed = Vec::new(alloc);
    for seq in run.completed {
        completed.push(Seq(*seq)).ok()?;
    }
    let place = place_of(&job, run.total);
    VerifyState::make(key_of(run.number), &job, run.total, place, completed).ok()
}

/// The check of a run, which has what a ledger goes by.
fn check_of(alloc: Global, run: Run) -> Option<Recheck> {
    let job = job_of(run)?;
    let state = state_of(alloc, run)?;
    let key = key_of(run.number);
    Recheck::new(alloc, &job, key, Some(&state), false).ok()
}

/// The ledger behind one more run.
fn behind(alloc: Global, ledger: &Ledger, run: Run) -> Option<Ledger> {
    ledger
        .after_run(alloc, check_of(alloc, run)?.expected())
        .ok()
}

/// The ledger behind the first run alone.
fn behind_first(alloc: Global) -> Option<Ledger> {
    behind(alloc, &Ledger::new(alloc, 512, 4).ok()?, FIRST)
}

/// The bytes of a block.
fn bytes_of(alloc: Global, block: u32, held: Held) -> Option<Vec<u8>> {
    let job = JobRecord::make(JOB)?;
    let mut bytes = vec![in alloc; 0u8; job.bs() as usize].ok()?;
    match held {
        Held::Zeros => {}
        Held::Write(run) => {
            fill_block(key_of(run), &job, Seq(u64::from(block)), block, &mut bytes);
        }
    }
    Some(bytes)
}
