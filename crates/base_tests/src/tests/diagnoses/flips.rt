//! Each bit of a block turned over.

use super::layout::{Part, Stamped, spell};
use super::{JOB, check_of, told};
use crate::tests::jobs::KEY;
use diagnosis::{Difference, Holds, compare_write};
use fc_base::{JobParts, Seq};
use recheck::Recheck;
use std::alloc::Global;
use std::test::Fail;

/// The bytes of write 6 to block 2, in so many sectors.
fn write_6(alloc: Global, sectors: u32) -> Option<Vec<u8>> {
    let own = Stamped::of((1, 0, 0, 6, 2));
    let mut parts = Vec::new(alloc);
    for number in 0..sectors {
        parts.push(Part::Stamp(own.at(number))).ok()?;
    }
    spell(alloc, &parts)
}

/// How many sectors are unknown where this bit of a byte of the stamp at that place of a block is
/// another. By the layout it is none where the run is one from 1 on, the server one of 8, the job
/// one of 16, the block one of the job's four, or the place one of the block's; else it is that
/// one.
fn unknown_sectors(byte: usize, bit: u32, place: u32, sectors: u32) -> u32 {
    let known = match byte {
        0..=6 => true,
        7 => bit != 0,
        11 => bit < 3,
        15 => bit < 4,
        31 => bit < 2,
        35 => (place ^ (1u32 << (bit % 8))) < sectors,
        _ => false,
    };
    if known { 0 } else { 1 }
}

/// How block 2 differs from write 6 to it.
fn difference(check: &Recheck, bytes: &[u8]) -> Option<Difference> {
    let rec = check.expected().rec();
    if bytes.len() == rec.bs() as usize {
        Some(compare_write(&KEY, &rec, Seq(6), 2, bytes))
    } else {
        None
    }
}

/// Whether the block is told so that has one bit of this byte turned over.
fn is_told(check: &Recheck, bytes: &[u8], at: u32, bit: u32, sectors: u32) -> bool {
    let found = Difference {
        bytes: 1,
        bits: 1,
        first: Some(at),
    };
    let unknown = unknown_sectors(at as usize % 512, bit, at / 512, sectors);
    told(check, 2, bytes) == Some(Holds::Corrupt(unknown))
        && difference(check, bytes) == Some(found)
}

/// Turns a bit of a byte over.
fn turn(bytes: &mut Vec<u8>, at: u32, bit: u32) {
    if let Some(byte) = bytes.get_mut(at as usize) {
        *byte ^= 1 << (bit % 8);
    }
}

/// Whether each bit of a block of so many sectors is told so.
fn are_told(alloc: Global, sectors: u32) -> Result<(), Fail> {
    let bs = sectors.wrapping_mul(512);
    let parts = JobParts {
        bs: u64::from(bs),
        ..JOB
    };
    let (Some(check), Some(mut bytes)) = (check_of(alloc, parts), write_6(alloc, sectors)) else {
        return Err(Fail::new("check"));
    };
    for at in 0..bs {
        for bit in 0..8 {
            turn(&mut bytes, at, bit);
            if !is_told(&check, &bytes, at, bit, sectors) {
                return Err(Fail::new(at));
            }
            turn(&mut bytes, at, bit);
        }
    }
    if told(&check, 2, &bytes) == Some(Holds::Sound) {
        Ok(())
    } else {
        Err(Fail::new("sound"))
    }
}

#[test]
fn each_bit_of_one_sector(rt: HostRuntime) -> Result<(), Fail> {
    are_told(rt.alloc(), 1)
}

#[test]
fn each_bit_of_eight_sectors(rt: HostRuntime) -> Result<(), Fail> {
    are_told(rt.alloc(), 8)
}
