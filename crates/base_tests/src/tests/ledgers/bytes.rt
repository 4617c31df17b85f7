//! The bytes of a ledger, spelled by hand.

use super::behind_first;
use fc_base::put_u64;
use ledger::{Ledger, LedgerFault};
use sha1::Sha1;
use std::alloc::Global;
use std::test::Fail;

/// The ledger behind the first run: the magic, the block's size, four blocks, one run; that run, from its number 1 to its
/// window 2; and the entries: write 0, write 1 and write 2 of the run at place 0, and an empty one.
const NUMBERS: [u64; 26] = [
    0x4643_4c45_4447_5231,
    512,
    4,
    1,
    1,
    0,
    0,
    0,
    0,
    0,
    512,
    4,
    4,
    1,
    2,
    2,
    1,
    0,
    0,
    1,
    0,
    1,
    1,
    0,
    2,
    0,
];

/// Their digest, by Python's `hashlib.sha1`.
const DIGEST: [u8; 20] = [
    225, 208, 223, 33, 59, 83, 33, 102, 212, 33, 130, 65, 187, 144, 205, 22, 145, 39, 84, 62,
];

/// Numbers, and behind them a digest.
fn spelled(alloc: Global, numbers: &[u64], digest: Option<[u8; 20]>) -> Option<Vec<u8>> {
    let mut bytes = Vec::new(alloc);
    for number in numbers {
        put_u64(&mut bytes, *number).ok()?;
    }
    let digest = match digest {
        Some(digest) => digest,
        None => Sha1::digest(&bytes),
    };
    bytes.extend_from_slice(&digest).ok()?;
    Some(bytes)
}

/// Whether the ledger behind the first run has these bytes, and they are read as it.
fn is_spelled_so(alloc: Global) -> Option<bool> {
    let bytes = behind_first(alloc)?.encode(alloc).ok()?;
    let by_hand = spelled(alloc, &NUMBERS, Some(DIGEST))?;
    let again = Ledger::decode(alloc, &by_hand).ok()?.encode(alloc).ok()?;
    Some(bytes.as_slice() == by_hand.as_slice() && again.as_slice() == by_hand.as_slice())
}

#[test]
fn a_ledger_and_its_bytes(rt: HostRuntime) {
    assert!(rt; is_spelled_so(rt.alloc()) == Some(true));
}

/// A number in another place's stead, and why the ledger is refused.
static REFUSED: [(usize, u64, LedgerFault); 11] = [
    (0, 0, LedgerFault::NoLedger),
    (1, 1 << 32, LedgerFault::BadBlockSize),
    (1, 1024, LedgerFault::Impossible),
    (2, 65_537, LedgerFault::TooManyBlocks),
    (2, 23, LedgerFault::Short),
    (3, 2, LedgerFault::Short),
    (7, 3, LedgerFault::BadRun),
    (14, 65, LedgerFault::BadRun),
    (16, 5, LedgerFault::Short),
    (17, 1, LedgerFault::BadRun),
    (18, 4, LedgerFault::Impossible),
];

/// Why these numbers are refused, with a digest of their own.
fn fault_of(alloc: Global, numbers: &[u64]) -> Option<LedgerFault> {
    Ledger::decode(alloc, &spelled(alloc, numbers, None)?).err()
}

fn fault_with(alloc: Global, at: usize, number: u64) -> Option<LedgerFault> {
    let mut numbers = NUMBERS;
    *numbers.get_mut(at)? = number;
    fault_of(alloc, &numbers)
}

#[test]
fn numbers_that_are_refused(rt: HostRuntime) -> Result<(), Fail> {
    for (i, row) in REFUSED.iter().enumerate() {
        if fault_with(rt.alloc(), row.0, row.1) != Some(row.2) {
            return Err(Fail::new(i));
        }
    }
    Ok(())
}

/// Why the ledger's bytes are refused where one number more stands behind them, or where they are cut short.
fn other_lengths(alloc: Global) -> Option<(LedgerFault, LedgerFault, LedgerFault)> {
    let mut more = Vec::from_slice(alloc, &NUMBERS).ok()?;
    more.push(0).ok()?;
    let trailing = fault_of(alloc, &more)?;
    let whole = spelled(alloc, &NUMBERS, Some(DIGEST))?;
    let cut = Ledger::decode(alloc, whole.as_slice().get(..227)?).err()?;
    let short = Ledger::decode(alloc, whole.as_slice().get(..19)?).err()?;
    Some((trailing, cut, short))
}

#[test]
fn bytes_that_are_no_ledger(rt: HostRuntime) {
    assert!(rt;
        other_lengths(rt.alloc())
            == Some((
                LedgerFault::OtherSpelling,
                LedgerFault::Damaged,
                LedgerFault::Short
            ))
    );
}
