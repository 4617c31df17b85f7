//! What the check of a disk tells, as steps with the report that has to come.

use super::{Given, JOB, blank_disk, tells};
use disk_model::{FaultDisk, MemDisk};
use fc_base::{CheckReport, Fault, JobParts, ReportEnd};
use std::alloc::Global;
use std::test::Fail;
use verify_state::VerifyState;

/// What happens to a disk, or what a check of it has to tell.
#[derive(Clone, Copy)]
enum Step {
    /// These sectors of a write land in the block.
    Land(u64, u32, u128),
    /// A sector rots.
    Rot(u64),
    /// The power is cut.
    Cut,
    /// A check tells so many blocks checked, just these of them faulty.
    Finds(u32, &'static [u32]),
    /// A check for which a fault is fatal ends at the first.
    FindsFirst(u32, &'static [u32]),
    /// A check is refused, since the disk is off.
    Off,
}

/// All sectors of a block.
const WHOLE: u128 = u128::MAX;

/// By what a disk is checked.
#[derive(Clone, Copy)]
enum By {
    /// The state of two writes, of which only write 0 has completed.
    State,
    /// Nothing: it is a full pass.
    Nothing,
}

/// A disk's job, by what the disk is checked, and what happens to it.
struct Story {
    name: &'static str,
    job: JobParts,
    by: By,
    steps: &'static [Step],
}

/// A job that writes each of four blocks once.
const FOUR_BLOCKS: JobParts = JobParts {
    blocks: 4,
    total: 4,
    ..JOB
};

static STORIES: [Story; 4] = [
    Story {
        name: "torn overwrite",
        job: JobParts {
            bs: 1024,
            blocks: 1,
            depth: 1,
            window: 1,
            ..JOB
        },
        by: By::State,
        steps: &[
            Step::Land(0, 0, WHOLE),
            Step::Finds(1, &[]),
            Step::Land(1, 0, 1),
            Step::Finds(1, &[0]),
            Step::Land(1, 0, 2),
            Step::Finds(1, &[]),
        ],
    },
    Story {
        name: "rot beside an open write",
        job: JOB,
        by: By::State,
        steps: &[
            Step::Land(0, 0, WHOLE),
            Step::Rot(1),
            Step::Finds(1, &[]),
            Step::Rot(0),
            Step::Finds(1, &[0]),
            Step::FindsFirst(1, &[0]),
        ],
    },
    Story {
        name: "full pass of a write that never landed",
        job: JOB,
        by: By::Nothing,
        steps: &[
            Step::Land(0, 0, WHOLE),
            Step::Finds(2, &[1]),
            Step::Cut,
            Step::Off,
        ],
    },
    Story {
        name: "rotted blocks",
        job: FOUR_BLOCKS,
        by: By::Nothing,
        steps: &[
            Step::Land(0, 0, WHOLE),
            Step::Land(1, 1, WHOLE),
            Step::Land(2, 2, WHOLE),
            Step::Land(3, 3, WHOLE),
            Step::Finds(4, &[]),
            Step::Rot(1),
            Step::Rot(2),
            Step::Finds(4, &[1, 2]),
            Step::FindsFirst(2, &[1]),
        ],
    },
];

/// A job, and what its disk is checked by: a state, or nothing in a full pass.
#[derive(Drop)]
struct Checked {
    alloc: Global,
    given: Given,
    state: Option<VerifyState>,
}

impl Checked {
    /// Takes the step, and tells whether a check tells what it has to.
    fn holds(&self, disk: &mut MemDisk, step: Step) -> bool {
        match step {
            Step::Land(seq, block, sectors) => self.lands(disk, seq, block, sectors),
            Step::Rot(sector) => disk.rot(sector, [7; 512]).is_ok(),
            Step::Cut => {
                disk.cut();
                true
            }
            Step::Finds(checked, first) => self.finds(disk, checked, first),
            Step::FindsFirst(checked, first) => self.finds_first(disk, checked, first),
            Step::Off => self.report(disk, false).err() == Some(Fault::Off),
        }
    }

    fn lands(&self, disk: &mut MemDisk, seq: u64, block: u32, sectors: u128) -> bool {
        self.given
            .land(self.alloc, disk, seq, block, sectors)
            .is_some()
    }

    fn report(&self, disk: &mut MemDisk, fatal: bool) -> Result<CheckReport, Fault> {
        self.given
            .check(self.alloc, self.state.as_ref(), fatal, disk)
    }

    fn finds(&self, disk: &mut MemDisk, checked: u32, first: &[u32]) -> bool {
        match self.report(disk, false) {
            Ok(report) => tells(&report, checked, first, ReportEnd::Whole),
            Err(_) => false,
        }
    }

    fn finds_first(&self, disk: &mut MemDisk, checked: u32, first: &[u32]) -> bool {
        match self.report(disk, true) {
            Ok(report) => tells(&report, checked, first, ReportEnd::AtFault),
            Err(_) => false,
        }
    }

    /// Whether each of the steps holds, one after the other.
    fn all_hold(&self, disk: &mut MemDisk, steps: &[Step]) -> bool {
        for step in steps {
            if !self.holds(disk, *step) {
                return false;
            }
        }
        true
    }
}

/// What a story's disk is checked by.
fn checked_of(alloc: Global, story: &Story) -> Option<Checked> {
    let given = Given::new(story.job)?;
    let state = match story.by {
        By::State => Some(given.state(alloc)?),
        By::Nothing => None,
    };
    Some(Checked {
        alloc,
        given,
        state,
    })
}

/// Whether a story goes so.
fn goes_so(alloc: Global, story: &Story) -> bool {
    match checked_of(alloc, story) {
        Some(checked) => checked.all_hold(&mut blank_disk(alloc), story.steps),
        None => false,
    }
}

#[test]
fn stories(rt: HostRuntime) -> Result<(), Fail> {
    for story in &STORIES {
        if !goes_so(rt.alloc(), story) {
            return Err(Fail::new(story.name));
        }
    }
    Ok(())
}

/// A disk on which four writes landed, each in its block.
fn disk_of_four(alloc: Global, given: &Given) -> Option<MemDisk> {
    let mut disk = blank_disk(alloc);
    match given.land_first(alloc, &mut disk, 4) {
        Some(()) => Some(disk),
        None => None,
    }
}

/// The report of a full pass over four blocks, of which the third can't be read.
fn report_of_four(alloc: Global) -> Option<CheckReport> {
    let given = Given::new(FOUR_BLOCKS)?;
    let disk = disk_of_four(alloc, &given)?;
    let mut disk = FaultDisk::new(disk, 2);
    given.check(alloc, None, false, &mut disk).ok()
}

#[test]
fn block_that_can_not_be_read(rt: HostRuntime) {
    let tells = match report_of_four(rt.alloc()) {
        Some(report) => tells(&report, 2, &[], ReportEnd::ReadFault(2)),
        None => false,
    };
    assert!(rt; tells);
}

/// The report of a full pass over 40 blocks that were never written.
fn report_of_forty(alloc: Global) -> Option<CheckReport> {
    let given = Given::new(JobParts {
        blocks: 40,
        total: 40,
        ..JOB
    })?;
    given.check(alloc, None, false, &mut blank_disk(alloc)).ok()
}

static FIRST_32: [u32; 32] = [
    0, 1, 2, 3, 4, 5, 6, 7, 8, 9, 10, 11, 12, 13, 14, 15, 16, 17, 18, 19, 20, 21, 22, 23, 24, 25,
    26, 27, 28, 29, 30, 31,
];

/// Whether all of the 40 blocks are faulty, and the first 32 are told.
fn tells_forty(report: &CheckReport) -> bool {
    report.checked() == 40 && report.faults() == 40 && report.first() == FIRST_32.as_slice()
}

#[test]
fn more_than_32_faults(rt: HostRuntime) {
    let tells = match report_of_forty(rt.alloc()) {
        Some(report) => tells_forty(&report),
        None => false,
    };
    assert!(rt; tells);
}
