//! The ledgers that checks write and read, spelled by hand.

use super::inputs::Tell::*;
use super::ledger_inputs::Block::*;
use super::ledger_inputs::{Step, TWO, ledger_behind_all};
use super::ledgers::FIRST;
use super::stamps::RUN;
use fc_base::put_u64;
use sha1::Sha1;
use std::alloc::Global;
use std::test::Fail;

/// What a ledger begins with: `FCLEDGR1`.
pub(super) const MAGIC: u64 = 0x4643_4c45_4447_5231;

/// A full pass over two blocks, in which each holds its write.
pub(super) const TWO_PASS: Step = Step {
    job: TWO,
    target: &[Write(RUN, 0, 0), Write(RUN, 1, 1)],
    lines: "unchecked\nreport checked 2 faults 0 end whole first -\n",
    ..FIRST
};

/// The ledger behind that: the magic, the block's size, two blocks, one run; that run, from its number 7 to its window
/// 2; and the entries: write 0 and write 1 of the run at place 0.
pub(super) const PASS_NUMBERS: [u64; 22] = [
    MAGIC, 1024, 2, 1, 7, 0, 0, 0, 0, 0, 1024, 2, 2, 1, 2, 2, 1, 0, 0, 1, 0, 1,
];

/// Their digest, by Python's `hashlib.sha1`.
const PASS_DIGEST: [u8; 20] = [
    141, 204, 151, 183, 235, 150, 118, 219, 115, 249, 48, 238, 132, 33, 174, 174, 56, 175, 236, 236,
];

/// A second run has both its writes in flight; block 0 could not be read, and the write to block 1 has landed.
const IN_FLIGHT: Step = Step {
    run: 8,
    told: &[Take],
    target: &[Unread, Write(8, 1, 1)],
    status: 2,
    lines: "block 0 unread: wants write 0 of run 7 or write 0 of run 8\n\
        unchecked\nreport checked 1 faults 0 end whole first - unread 1\n",
    ..TWO_PASS
};

/// The ledger behind that: two runs, and the entries: write 0 of the run at place 0 or of that at place 1; and write 1
/// of that at place 1.
const IN_FLIGHT_NUMBERS: [u64; 36] = [
    MAGIC, 1024, 2, 2, 7, 0, 0, 0, 0, 0, 1024, 2, 2, 1, 2, 2, 8, 0, 0, 0, 0, 0, 1024, 2, 2, 1, 2,
    2, 2, 0, 0, 1, 0, 1, 1, 1,
];

const IN_FLIGHT_DIGEST: [u8; 20] = [
    154, 198, 244, 12, 205, 114, 107, 233, 69, 25, 202, 137, 212, 53, 67, 70, 71, 58, 245, 147,
];

/// Numbers, and behind them a digest: their own where there is none.
pub(super) fn spelled(alloc: Global, numbers: &[u64], digest: Option<[u8; 20]>) -> Option<Vec<u8>> {
    let mut bytes = Vec::new(alloc);
    for number in numbers {
        put_u64(&mut bytes, *number).ok()?;
    }
    let digest = match digest {
        Some(digest) => digest,
        None => Sha1::digest(&bytes),
    };
    bytes.extend_from_slice(&digest).ok()?;
    Some(bytes)
}

/// Whether the ledger behind these steps has these bytes.
fn is_spelled_so(
    alloc: Global,
    steps: &[Step],
    numbers: &[u64],
    digest: [u8; 20],
) -> Result<bool, Fail> {
    let ledger = ledger_behind_all(alloc, steps)?;
    match spelled(alloc, numbers, Some(digest)) {
        Some(bytes) => Ok(ledger.as_slice() == bytes.as_slice()),
        None => Ok(false),
    }
}

#[test]
fn the_bytes_of_a_ledger_behind_one_run(rt: HostRuntime) -> Result<(), Fail> {
    let is_so = is_spelled_so(rt.alloc(), &[TWO_PASS], &PASS_NUMBERS, PASS_DIGEST)?;
    assert!(rt; is_so);
    Ok(())
}

#[test]
fn the_bytes_of_a_ledger_behind_two_runs(rt: HostRuntime) -> Result<(), Fail> {
    let is_so = is_spelled_so(
        rt.alloc(),
        &[TWO_PASS, IN_FLIGHT],
        &IN_FLIGHT_NUMBERS,
        IN_FLIGHT_DIGEST,
    )?;
    assert!(rt; is_so);
    Ok(())
}
