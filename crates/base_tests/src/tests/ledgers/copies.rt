//! Copies of a ledger, and checks that end at a block that could not be read.

use super::{Held, SECOND, behind, behind_first, bytes_of};
use fc_base::{CheckReport, MAX_BLOCKS, ReportEnd};
use ledger::{Ledger, LedgerCheck};
use recheck::Verdict;
use std::alloc::Global;
use std::test::Fail;

/// Whether a copy has the bytes of its ledger.
fn is_copied(alloc: Global, ledger: &Ledger) -> Option<bool> {
    let bytes = ledger.encode(alloc).ok()?;
    let copied = ledger.copy(alloc).ok()?.encode(alloc).ok()?;
    Some(copied.as_slice() == bytes.as_slice())
}

/// Copies of a ledger that asks for nothing, of one behind a run, and of one behind two, whose block 1 has two writes.
fn are_copied(alloc: Global) -> Option<bool> {
    let first = behind_first(alloc)?;
    let second = behind(alloc, &first, SECOND)?;
    if second.blocks() != 4 {
        return None;
    }
    let has_two = second.entry(1).as_slice().len() == 2;
    Some(
        has_two
            && is_copied(alloc, &Ledger::new(alloc, 4096, 9).ok()?)?
            && is_copied(alloc, &first)?
            && is_copied(alloc, &second)?,
    )
}

#[test]
fn copies_ask_for_the_same(rt: HostRuntime) {
    assert!(rt; are_copied(rt.alloc()) == Some(true));
}

/// What a check of block 0 by a copy tells, where it is lost, and whether the ledger and the copy want it still.
fn wanting(alloc: Global) -> Option<(Verdict, bool, bool)> {
    let ledger = behind_first(alloc)?;
    let mut copied = ledger.copy(alloc).ok()?;
    let zeros = bytes_of(alloc, 0, Held::Zeros)?;
    if copied.blocks() != 4 {
        return None;
    }
    let verdict = copied.check(0, &zeros);
    Some((verdict, ledger.wants(0), copied.wants(0)))
}

#[test]
fn a_copy_changes_alone(rt: HostRuntime) {
    assert!(rt; wanting(rt.alloc()) == Some((Verdict::Fault, true, false)));
}

/// Behind the first run: what the first three blocks hold, the block at which the check ends, and which of them are
/// lost.
type Row = ([Held; 3], u32, &'static [u32]);

static ENDS: [Row; 4] = [
    ([Held::Write(1), Held::Write(1), Held::Write(1)], 3, &[]),
    ([Held::Zeros, Held::Write(1), Held::Write(1)], 3, &[0]),
    ([Held::Write(2), Held::Write(1), Held::Zeros], 3, &[0, 2]),
    ([Held::Zeros, Held::Zeros, Held::Zeros], 65_535, &[0, 1, 2]),
];

/// The report of a check behind the first run that is handed these blocks, and then ends at one.
fn report_at(alloc: Global, held: [Held; 3], block: u32) -> Option<CheckReport> {
    let ledger = behind_first(alloc)?;
    if block >= MAX_BLOCKS || ledger.blocks() != 4 {
        return None;
    }
    let blocks = (
        bytes_of(alloc, 0, held[0])?,
        bytes_of(alloc, 1, held[1])?,
        bytes_of(alloc, 2, held[2])?,
    );
    let mut check = LedgerCheck::new(ledger);
    check.feed(0, &blocks.0);
    check.feed(1, &blocks.1);
    check.feed(2, &blocks.2);
    Some(check.finish_at(block))
}

/// Whether a report tells so many checked blocks, these lost ones, and that it ends at this block.
fn tells(report: &CheckReport, checked: u32, lost: &[u32], block: u32) -> bool {
    report.checked() == checked
        && report.faults() as usize == lost.len()
        && report.first() == lost
        && report.end() == ReportEnd::ReadFault(block)
}

#[test]
fn checks_that_end_at_a_block(rt: HostRuntime) -> Result<(), Fail> {
    for (number, (held, block, lost)) in ENDS.iter().enumerate() {
        match report_at(rt.alloc(), *held, *block) {
            Some(report) if tells(&report, 3, lost, *block) => {}
            _ => return Err(Fail::new(number)),
        }
    }
    Ok(())
}

/// The report of a check that is handed no block.
fn report_of_nothing(alloc: Global) -> Option<CheckReport> {
    Some(LedgerCheck::new(behind_first(alloc)?).finish_at(0))
}

#[test]
fn a_check_that_ends_at_once(rt: HostRuntime) -> Result<(), Fail> {
    match report_of_nothing(rt.alloc()) {
        Some(report) if tells(&report, 0, &[], 0) => Ok(()),
        _ => Err(Fail::new("no block")),
    }
}
