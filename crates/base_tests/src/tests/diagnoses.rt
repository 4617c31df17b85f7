//! What no clause shows: that each kind is told of bytes that are spelled from the manual's layout
//! of a stamp, and not by the library that writes them.

mod contents;
mod copies;
mod differences;
mod flips;
mod layout;
mod random;
mod rows;

use super::jobs::{KEY, ONE_WRITE};
use diagnosis::{Holds, diagnose, extent_at};
use fc_base::{JobParts, JobRecord, Seq, Verify};
use layout::{Odd, Part, SECTORS, Stamped, spell};
use recheck::Recheck;
use rows::{LIMITS, ODD, PATTERNS, Told, WHOLE, filled};
use std::alloc::Global;
use std::test::Fail;
use verify_state::VerifyState;
use write_order::place_of;

/// Four blocks of four sectors, written in turn. Of ten writes, 8 and 9 are in flight to the blocks
/// 0 and 1, and the last completed ones are 4 to 7.
const JOB: JobParts = JobParts {
    bs: 2048,
    blocks: 4,
    total: 12,
    depth: 4,
    window: 4,
    ..ONE_WRITE
};

/// The check of such a job.
fn check_of(alloc: Global, parts: JobParts) -> Option<Recheck> {
    check_after(alloc, parts, 10)
}

/// The check of such a job once so many writes were issued, of which the last two are in flight.
fn check_after(alloc: Global, parts: JobParts, issued: u64) -> Option<Recheck> {
    let job = JobRecord::make(parts)?;
    let mut completed = Vec::new(alloc);
    for back in 0..8u64 {
        completed
            .push(Seq(issued.saturating_sub(10).wrapping_add(back)))
            .ok()?;
    }
    let state = VerifyState::make(KEY, &job, issued, place_of(&job, issued), completed).ok()?;
    Recheck::new(alloc, &job, KEY, Some(&state), false).ok()
}

/// What a block holds that holds these bytes.
fn told(check: &Recheck, block: u32, bytes: &[u8]) -> Option<Holds> {
    let expected = check.expected();
    if check.wants(block) && bytes.len() == expected.rec().bs() as usize {
        Some(diagnose(expected, block, bytes))
    } else {
        None
    }
}

/// Whether a block of these sectors is told so.
fn is_told(alloc: Global, check: &Recheck, block: u32, parts: &[Part], holds: Holds) -> bool {
    match spell(alloc, parts) {
        Some(bytes) => told(check, block, &bytes) == Some(holds),
        None => false,
    }
}

/// The sectors of a write.
fn whole(stamp: Stamped) -> [Part; SECTORS] {
    [
        Part::Stamp(stamp.at(0)),
        Part::Stamp(stamp.at(1)),
        Part::Stamp(stamp.at(2)),
        Part::Stamp(stamp.at(3)),
    ]
}

fn has_whole(alloc: Global, check: &Recheck, block: u32, stamp: Stamped, told: Told) -> bool {
    is_told(alloc, check, block, &whole(stamp), told.of(stamp))
}

#[test]
fn whole_writes(rt: HostRuntime) -> Result<(), Fail> {
    let alloc = rt.alloc();
    let Some(check) = check_of(alloc, JOB) else {
        return Err(Fail::new("check"));
    };
    for (i, row) in WHOLE.iter().enumerate() {
        if !has_whole(alloc, &check, row.0, Stamped::of(row.1), row.2) {
            return Err(Fail::new(i));
        }
    }
    Ok(())
}

#[test]
fn at_the_limits(rt: HostRuntime) -> Result<(), Fail> {
    let alloc = rt.alloc();
    let Some(check) = check_of(alloc, JOB) else {
        return Err(Fail::new("check"));
    };
    for (i, row) in LIMITS.iter().enumerate() {
        if !has_whole(alloc, &check, 2, Stamped::of(row.0), row.1) {
            return Err(Fail::new(i));
        }
    }
    Ok(())
}

/// Whether block 2 is told so that holds its last write, but this at one sector, whichever it is.
fn is_odd(alloc: Global, check: &Recheck, odd: Odd, told: Told) -> bool {
    let own = Stamped::of((1, 0, 0, 6, 2));
    for at in 0..SECTORS {
        let mut parts = whole(own);
        parts[at] = odd.part(at as u32);
        if !is_told(alloc, check, 2, &parts, told.of(own)) {
            return false;
        }
    }
    true
}

#[test]
fn one_odd_sector(rt: HostRuntime) -> Result<(), Fail> {
    let alloc = rt.alloc();
    let Some(check) = check_of(alloc, JOB) else {
        return Err(Fail::new("check"));
    };
    for (i, row) in ODD.iter().enumerate() {
        if !is_odd(alloc, &check, row.0, row.1) {
            return Err(Fail::new(i));
        }
    }
    Ok(())
}

#[test]
fn patterns(rt: HostRuntime) -> Result<(), Fail> {
    let alloc = rt.alloc();
    let pattern = JobParts {
        verify: Verify::Pattern,
        pattern: 0xa5,
        ..JOB
    };
    let Some(check) = check_of(alloc, pattern) else {
        return Err(Fail::new("check"));
    };
    let own = Stamped::of((1, 0, 0, 7, 3));
    for (i, row) in PATTERNS.iter().enumerate() {
        if !is_told(alloc, &check, 3, &filled(row.0), row.1.of(own)) {
            return Err(Fail::new(i));
        }
    }
    Ok(())
}

/// Blocks with the ends of their extents: two sectors of an older write, zeros and a corrupt one;
/// one that stands in another's place, and one whose place no sector has; and two corrupt ones
/// before a write's last two.
static EXTENTS: [([Odd; SECTORS], &[u32]); 3] = [
    (
        [
            Odd::Of(1, 2, 2),
            Odd::Of(1, 2, 2),
            Odd::Byte(0),
            Odd::Changed(40, 1),
        ],
        &[2, 3, 4],
    ),
    (
        [Odd::Moved(0), Odd::Moved(0), Odd::Moved(1), Odd::Moved(512)],
        &[2, 3, 4],
    ),
    (
        [
            Odd::Changed(500, 8),
            Odd::Byte(0x5a),
            Odd::Moved(0),
            Odd::Moved(0),
        ],
        &[2, 4],
    ),
];

/// Whether the extents of a block end there.
fn has_ends(alloc: Global, check: &Recheck, odd: [Odd; SECTORS], ends: &[u32]) -> Option<bool> {
    let [a, b, c, d] = odd;
    let bytes = spell(alloc, &[a.part(0), b.part(1), c.part(2), d.part(3)])?;
    let mut from = 0;
    for end in ends {
        if from >= 4 || bytes.len() < 2048 {
            return None;
        }
        let extent = extent_at(check.expected(), &bytes, from, 4);
        if extent.end != *end {
            return Some(false);
        }
        from = extent.end;
    }
    Some(from == 4)
}

#[test]
fn extents(rt: HostRuntime) -> Result<(), Fail> {
    let alloc = rt.alloc();
    let Some(check) = check_of(alloc, JOB) else {
        return Err(Fail::new("check"));
    };
    for (i, row) in EXTENTS.iter().enumerate() {
        if has_ends(alloc, &check, row.0, row.1) != Some(true) {
            return Err(Fail::new(i));
        }
    }
    Ok(())
}
