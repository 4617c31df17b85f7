//! Blocks that differ in few bits from a write that they may hold: which of them are told as
//! damaged copies of it. A write and the one 256 before it differ in the higher bytes of their
//! number alone.

use super::layout::{Part, SECTORS, Stamped};
use super::rows::Told;
use super::{JOB, check_after, is_told};
use fc_base::JobParts;
use std::test::Fail;

/// Of 266 writes to four blocks in turn, 264 and 265 are in flight to the blocks 0 and 1, and the
/// last completed ones are 260 to 263.
const LATER: JobParts = JobParts { total: 2000, ..JOB };

/// Blocks of one sector: the sector, by its run, server, job, number and block. An older write of
/// the job to the block is lost, however few the bits are; what else is near a wanted write is
/// corrupt.
static SINGLE: [(u32, (u64, u32, u32, u64, u64), Told); 14] = [
    (2, (1, 0, 0, 262, 2), Told::Sound),
    (2, (1, 0, 0, 6, 2), Told::Lost),
    (2, (1, 0, 0, 261, 2), Told::Lost),
    (0, (1, 0, 0, 4, 0), Told::Lost),
    (0, (1, 0, 0, 8, 0), Told::Lost),
    (1, (1, 0, 0, 265, 1), Told::Sound),
    (0, (1, 0, 0, 520, 0), Told::Corrupt(0)),
    (0, (1, 0, 0, 265, 0), Told::Unissued),
    (2, (1, 0, 0, 774, 2), Told::Corrupt(0)),
    (2, (1, 0, 0, 2000, 2), Told::Corrupt(1)),
    (2, (1, 0, 1, 262, 2), Told::Corrupt(0)),
    (2, (1, 0, 0, 262, 3), Told::Corrupt(0)),
    (2, (2, 0, 0, 262, 2), Told::Corrupt(0)),
    (2, (2, 0, 0, 261, 2), Told::OtherRun),
];

#[test]
fn of_one_sector(rt: HostRuntime) -> Result<(), Fail> {
    let alloc = rt.alloc();
    let single = JobParts { bs: 512, ..LATER };
    let Some(check) = check_after(alloc, single, 266) else {
        return Err(Fail::new("check"));
    };
    for (i, row) in SINGLE.iter().enumerate() {
        let stamp = Stamped::of(row.1);
        if !is_told(alloc, &check, row.0, &[Part::Stamp(stamp)], row.2.of(stamp)) {
            return Err(Fail::new(i));
        }
    }
    Ok(())
}

/// Blocks of four sectors, each by its run and the number of its write to the block. Sectors of
/// writes of the job that may have come to the block are torn, and what all sectors say is so.
static SEVERAL: [(u32, [(u64, u64); SECTORS], Told); 12] = [
    (2, [(1, 262), (1, 262), (1, 6), (1, 6)], Told::Torn),
    (2, [(1, 6), (1, 6), (1, 6), (1, 262)], Told::Torn),
    (0, [(1, 264), (1, 264), (1, 264), (1, 8)], Told::Torn),
    (0, [(1, 8), (1, 264), (1, 264), (1, 264)], Told::Torn),
    (0, [(1, 260), (1, 260), (1, 264), (1, 264)], Told::Torn),
    (
        0,
        [(1, 264), (1, 264), (1, 264), (1, 520)],
        Told::Corrupt(0),
    ),
    (
        2,
        [(1, 262), (1, 262), (1, 262), (1, 774)],
        Told::Corrupt(0),
    ),
    (2, [(2, 262), (1, 262), (1, 6), (1, 6)], Told::Corrupt(0)),
    (
        2,
        [(1, 262), (1, 262), (1, 262), (1, 2310)],
        Told::Corrupt(1),
    ),
    (2, [(1, 6), (1, 6), (1, 6), (1, 6)], Told::Lost),
    (2, [(1, 774), (1, 774), (1, 774), (1, 774)], Told::Unissued),
    (2, [(2, 262), (2, 262), (2, 262), (2, 262)], Told::OtherRun),
];

#[test]
fn of_several_sectors(rt: HostRuntime) -> Result<(), Fail> {
    let alloc = rt.alloc();
    let Some(check) = check_after(alloc, LATER, 266) else {
        return Err(Fail::new("check"));
    };
    for (i, row) in SEVERAL.iter().enumerate() {
        let mut parts = [Part::Byte(0); SECTORS];
        for at in 0..SECTORS {
            let (run, write) = row.1[at];
            let stamp = Stamped::of((run, 0, 0, write, u64::from(row.0)));
            parts[at] = Part::Stamp(stamp.at(at as u32));
        }
        let (run, write) = row.1[0];
        let first = Stamped::of((run, 0, 0, write, u64::from(row.0)));
        if !is_told(alloc, &check, row.0, &parts, row.2.of(first)) {
            return Err(Fail::new(i));
        }
    }
    Ok(())
}
