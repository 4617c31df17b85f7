//! Stories of runs, cuts and checks. What each check has to tell was worked out by hand.

use super::{Held, JOB, SECOND, behind, behind_first, bytes_of, job_of};
use fc_base::{CheckReport, JobParts, JobRecord, ReportEnd};
use ledger::{Ledger, LedgerCheck};
use recheck::Verdict;
use recheck::Verdict::{Fault, Good, Skipped};
use std::alloc::Global;
use std::test::Fail;

/// What the four blocks hold, and what a check finds there.
#[derive(Clone, Copy)]
struct Cut {
    held: [Held; 4],
    found: [Verdict; 4],
}

/// Behind the first run: its three completed writes are there, the one in flight has not landed.
const SOUND: Cut = Cut {
    held: [Held::Write(1), Held::Write(1), Held::Write(1), Held::Zeros],
    found: [Good, Good, Good, Skipped],
};

/// The second run's write to block 0 is lost, so that it goes back; the one in flight to block 1 has landed; and block 2,
/// to which the run has no write, is lost at rest.
const LOST: Cut = Cut {
    held: [Held::Write(1), Held::Write(2), Held::Zeros, Held::Zeros],
    found: [Fault, Good, Fault, Skipped],
};

/// The blocks that were lost are asked for nothing more. Block 1 goes back to what it held before the check.
const WENT_BACK: Cut = Cut {
    held: [Held::Zeros, Held::Write(1), Held::Zeros, Held::Zeros],
    found: [Skipped, Fault, Skipped, Skipped],
};

/// Nothing is asked any more.
const NOTHING: Cut = Cut {
    held: [Held::Zeros, Held::Zeros, Held::Zeros, Held::Zeros],
    found: [Skipped, Skipped, Skipped, Skipped],
};

/// The write in flight to block 1 has not landed, and that of the first run is still there; nothing is lost.
const NOT_LANDED: Cut = Cut {
    held: [Held::Write(2), Held::Write(1), Held::Write(1), Held::Zeros],
    found: [Good, Good, Good, Skipped],
};

/// Behind a lost run to the blocks 0 and 1 only block 2 is asked for.
const UNKNOWN: Cut = Cut {
    held: [Held::Zeros, Held::Zeros, Held::Write(1), Held::Zeros],
    found: [Skipped, Skipped, Good, Skipped],
};

/// What a check of a cut has found, and what is known behind it.
#[derive(Drop)]
struct Found {
    verdicts: [Verdict; 4],
    report: CheckReport,
    ledger: Ledger,
}

/// Checks the four blocks.
fn check(alloc: Global, ledger: Ledger, held: [Held; 4]) -> Option<Found> {
    if ledger.blocks() != 4 {
        return None;
    }
    let blocks = (
        bytes_of(alloc, 0, held[0])?,
        bytes_of(alloc, 1, held[1])?,
        bytes_of(alloc, 2, held[2])?,
        bytes_of(alloc, 3, held[3])?,
    );
    let mut check = LedgerCheck::new(ledger);
    let first = check.feed(0, &blocks.0);
    let second = check.feed(1, &blocks.1);
    let third = check.feed(2, &blocks.2);
    let fourth = check.feed(3, &blocks.3);
    let (report, ledger) = check.finish();
    Some(Found {
        verdicts: [first, second, third, fourth],
        report,
        ledger,
    })
}

/// Whether a report tells what was found.
fn tells(report: &CheckReport, found: &[Verdict; 4]) -> bool {
    let mut checked = 0u32;
    let mut faults = 0usize;
    for (block, verdict) in found.iter().enumerate() {
        if *verdict != Skipped {
            checked = checked.wrapping_add(1);
        }
        if *verdict == Fault {
            if report.first().get(faults) != Some(&(block as u32)) {
                return false;
            }
            faults = faults.wrapping_add(1);
        }
    }
    report.checked() == checked
        && report.faults() as usize == faults
        && report.first().len() == faults
        && report.end() == ReportEnd::Whole
}

/// The ledger behind a check that finds what it has to.
fn behind_cut(alloc: Global, ledger: Ledger, cut: &Cut) -> Option<Ledger> {
    let found = check(alloc, ledger, cut.held)?;
    if found.verdicts == cut.found && tells(&found.report, &cut.found) {
        Some(found.ledger)
    } else {
        None
    }
}

/// A check behind each of two runs, and then one of a block that goes back.
fn losses(alloc: Global) -> Option<Ledger> {
    let ledger = behind_cut(alloc, behind_first(alloc)?, &SOUND)?;
    let ledger = behind_cut(alloc, behind(alloc, &ledger, SECOND)?, &LOST)?;
    let ledger = behind_cut(alloc, ledger, &WENT_BACK)?;
    behind_cut(alloc, ledger, &NOTHING)
}

#[test]
fn losses_at_rest_are_told_once(rt: HostRuntime) {
    assert!(rt; losses(rt.alloc()).is_some());
}

/// Two runs and no check between them: the ledger wants what either left.
fn no_check_between(alloc: Global) -> Option<Ledger> {
    let ledger = behind(alloc, &behind_first(alloc)?, SECOND)?;
    behind_cut(alloc, ledger, &NOT_LANDED)
}

#[test]
fn a_write_in_flight_keeps_what_was_there(rt: HostRuntime) {
    assert!(rt; no_check_between(rt.alloc()).is_some());
}

/// A check, and then a run whose state is lost.
fn lost_run(alloc: Global) -> Option<Ledger> {
    let ledger = behind_cut(alloc, behind_first(alloc)?, &SOUND)?;
    let ledger = ledger.after_lost_run(alloc, &job_of(SECOND)?).ok()?;
    behind_cut(alloc, ledger, &UNKNOWN)
}

#[test]
fn a_lost_run_empties_what_it_may_have_written(rt: HostRuntime) {
    assert!(rt; lost_run(rt.alloc()).is_some());
}

/// Which blocks are wanted behind a lost run of this job.
fn wanted(alloc: Global, parts: JobParts) -> Option<[bool; 4]> {
    let job = JobRecord::make(parts)?;
    let ledger = behind_first(alloc)?.after_lost_run(alloc, &job).ok()?;
    let check = LedgerCheck::new(ledger);
    Some([
        check.wants(0),
        check.wants(1),
        check.wants(2),
        check.wants(3),
    ])
}

/// A job and which blocks are wanted behind a lost run of it. A pass of a map names each block; and block 3 is never
/// wanted, since only a write in flight goes to it.
static LOST_RUNS: [(JobParts, [bool; 4]); 3] = [
    (JobParts { total: 1, ..JOB }, [false, true, true, false]),
    (JobParts { total: 3, ..JOB }, [false, false, false, false]),
    (JobParts { blocks: 2, ..JOB }, [false, false, true, false]),
];

#[test]
fn lost_runs_of_other_jobs(rt: HostRuntime) -> Result<(), Fail> {
    for (i, row) in LOST_RUNS.iter().enumerate() {
        if wanted(rt.alloc(), row.0) != Some(row.1) {
            return Err(Fail::new(i));
        }
    }
    Ok(())
}
