//! How blocks differ from the write that is wanted, counted by hand.

use super::layout::{Part, SECTORS, Stamped, spell};
use super::rows::filled;
use super::{JOB, whole};
use crate::tests::jobs::KEY;
use diagnosis::{Difference, compare_write};
use fc_base::{JobParts, JobRecord, Seq, Verify};
use std::alloc::Global;
use std::test::Fail;

/// How a block of these sectors differs from write 6 to block 2 of this job.
fn difference(alloc: Global, job: JobParts, parts: &[Part]) -> Option<Difference> {
    let rec = JobRecord::make(job)?;
    let bytes = spell(alloc, parts)?;
    if bytes.len() == rec.bs() as usize {
        Some(compare_write(&KEY, &rec, Seq(6), 2, &bytes))
    } else {
        None
    }
}

/// A byte of a sector, its bits that are others, and how many these are.
static CHANGES: [(usize, u8, u32); 5] = [
    (0, 0x80, 1),
    (35, 4, 1),
    (36, 0xff, 8),
    (488, 1, 1),
    (511, 0x83, 3),
];

/// Whether a block that differs in one byte is told so, whichever sector that is in.
fn is_told(alloc: Global, at: usize, bits: u8, count: u32) -> bool {
    let own = Stamped::of((1, 0, 0, 6, 2));
    for number in 0..SECTORS {
        let mut parts = whole(own);
        parts[number] = Part::Changed(own.at(number as u32), at, bits);
        let found = Difference {
            bytes: 1,
            bits: count,
            first: Some((number as u32 * 512).wrapping_add((at % 512) as u32)),
        };
        if difference(alloc, JOB, &parts) != Some(found) {
            return false;
        }
    }
    true
}

#[test]
fn one_byte(rt: HostRuntime) -> Result<(), Fail> {
    for (i, row) in CHANGES.iter().enumerate() {
        if !is_told(rt.alloc(), row.0, row.1, row.2) {
            return Err(Fail::new(i));
        }
    }
    Ok(())
}

/// The second sector differs in four bits of each byte, the fourth in one; and a block that is the
/// write's.
#[test]
fn many_bytes_and_none(rt: HostRuntime) {
    let alloc = rt.alloc();
    let pattern = JobParts {
        verify: Verify::Pattern,
        pattern: 0xa5,
        ..JOB
    };
    let many = Difference {
        bytes: 1024,
        bits: 2560,
        first: Some(512),
    };
    let none = Difference {
        bytes: 0,
        bits: 0,
        first: None,
    };
    let own = whole(Stamped::of((1, 0, 0, 6, 2)));
    assert!(rt; difference(alloc, pattern, &filled([0xa5, 0, 0xa5, 0xa4])) == Some(many));
    assert!(rt; difference(alloc, JOB, &own) == Some(none));
}
