//! What no clause shows: that the calls succeed with ample memory, and that what they leave is what
//! a reader of the manual expects.

mod notes;
mod step;

use disk_model::{Disk, FaultDisk, MemDisk};
use fc_base::Fault;
use std::alloc::{AllocError, Global};
use std::test::Fail;
use step::{Step, all_hold, is_full_of};

/// Which call of a disk fails, if it is one whose calls do, and what happens to it from before its first
/// boot on.
struct Story {
    name: &'static str,
    failing: Option<u64>,
    steps: &'static [Step],
}

static STORIES: [Story; 7] = [
    Story {
        name: "a read after a cut is off",
        failing: None,
        steps: &[
            Step::Read(Err(Fault::Off)),
            Step::On(7),
            Step::Write(7, 5, Ok(())),
            Step::Write(6, 6, Err(Fault::Off)),
            Step::Cut,
            Step::Read(Err(Fault::Off)),
            Step::Write(7, 6, Err(Fault::Off)),
            Step::On(8),
            Step::Write(7, 6, Err(Fault::Off)),
            Step::Holds(5, 5),
        ],
    },
    Story {
        name: "a torn overwrite",
        failing: None,
        steps: &[
            Step::On(7),
            Step::Write(7, 1, Ok(())),
            Step::Cut,
            Step::Land(2, 1),
            Step::On(8),
            Step::Holds(2, 1),
            Step::Land(3, u128::MAX - 1),
            Step::Holds(2, 3),
        ],
    },
    Story {
        name: "rot of one sector",
        failing: None,
        steps: &[
            Step::On(7),
            Step::Write(7, 1, Ok(())),
            Step::Rot(7, 9),
            Step::Holds(1, 9),
            Step::Rot(1 << 63, 8),
            Step::Holds(1, 9),
        ],
    },
    Story {
        name: "a sector never written reads as zeros",
        failing: None,
        steps: &[
            Step::On(7),
            Step::Holds(0, 0),
            Step::LastIsClear,
            Step::Rot(6, 9),
            Step::Holds(9, 0),
        ],
    },
    Story {
        name: "a failing write",
        failing: Some(2),
        steps: &[
            Step::On(7),
            Step::Write(7, 1, Ok(())),
            Step::Holds(1, 1),
            Step::Write(7, 2, Err(Fault::WriteFault)),
            Step::Holds(2, 1),
            Step::Write(7, 3, Ok(())),
            Step::Holds(3, 3),
        ],
    },
    Story {
        name: "a failing read",
        failing: Some(2),
        steps: &[
            Step::On(7),
            Step::Cut,
            Step::Read(Err(Fault::Off)),
            Step::On(8),
            Step::Write(8, 1, Ok(())),
            Step::Read(Err(Fault::ReadFault)),
            Step::Holds(1, 1),
        ],
    },
    Story {
        name: "off comes before a fault",
        failing: Some(0),
        steps: &[
            Step::Write(7, 1, Err(Fault::Off)),
            Step::On(7),
            Step::Write(7, 1, Ok(())),
            Step::Holds(1, 1),
        ],
    },
];

/// Whether a story goes so.
fn goes_so(alloc: Global, story: &Story) -> bool {
    let mut disk = MemDisk::new(alloc);
    match story.failing {
        Some(call) => all_hold(&mut FaultDisk::new(disk, call), story.steps),
        None => all_hold(&mut disk, story.steps),
    }
}

#[test]
fn stories(rt: HostRuntime) -> Result<(), Fail> {
    for story in &STORIES {
        if !goes_so(rt.alloc(), story) {
            return Err(Fail::new(story.name));
        }
    }
    Ok(())
}

fn disk_that_is_on(alloc: Global) -> MemDisk {
    let mut disk = MemDisk::new(alloc);
    disk.power_on(7);
    disk
}

/// The byte that fills the first sector of a run.
fn filler(run: u32) -> u8 {
    (run % 251) as u8 + 1
}

/// Replaces the first sector of each of so many runs.
fn rot_runs(disk: &mut MemDisk, count: u32) -> Result<(), AllocError> {
    for run in 0..count {
        disk.rot(128 * u64::from(run), [filler(run); 512])?;
    }
    Ok(())
}

/// Whether a run, which is a block of the greatest size, has its first sector as it was replaced,
/// and zeros behind it.
fn has_filler(disk: &mut MemDisk, run: u32) -> bool {
    if run >= 65_536 {
        return false;
    }
    let mut bytes = [0xff; 65_536];
    let is_read = disk.read(run, &mut bytes).is_ok();
    let (front, back) = bytes.split_at(512);
    is_read && is_full_of(front, filler(run)) && is_full_of(back, 0)
}

/// Whether 600 of 60,000 runs have their fillers, those with all last two digits.
fn have_fillers(disk: &mut MemDisk) -> bool {
    for i in 0..600 {
        if !has_filler(disk, 100 * i + i % 100) {
            return false;
        }
    }
    true
}

#[test]
fn rot_of_many_runs(rt: HostRuntime) {
    let mut disk = disk_that_is_on(rt.alloc());
    assert!(rt; rot_runs(&mut disk, 60_000) == Ok(()) && have_fillers(&mut disk));
}

/// Whether three sectors, no two of them alike, are read again as they were written.
fn reads_again(disk: &mut MemDisk) -> bool {
    let mut bytes = [0; 1536];
    for (i, b) in bytes.iter_mut().enumerate() {
        *b = (i % 251) as u8;
    }
    let mut read = [0; 1536];
    disk.write(7, 42, &bytes) == Ok(())
        && disk.read(42, &mut read) == Ok(())
        && read.as_slice() == bytes.as_slice()
}

/// Whether the three sectors behind them are zeros.
fn is_clear_behind(disk: &mut MemDisk) -> bool {
    let mut after = [0xff; 1536];
    disk.read(43, &mut after) == Ok(()) && is_full_of(&after, 0)
}

#[test]
fn block_across_runs(rt: HostRuntime) {
    let mut disk = disk_that_is_on(rt.alloc());
    assert!(rt; reads_again(&mut disk) && is_clear_behind(&mut disk));
}
