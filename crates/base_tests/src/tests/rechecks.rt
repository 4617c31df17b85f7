//! What no clause shows: that the calls answer with ample memory, and that what they find is what a
//! reader of the manual expects.

ghost use Rattle.std.specs.Prelude.{IsTrue, length};
ghost use Rattle.disk_model.specs.File.{IsBlock};

mod beside;
mod disks;
mod machine;
mod plain;

use super::jobs::{KEY, ONE_WRITE};
use disk_model::{Disk, MemDisk};
use fc_base::{CheckReport, Fault, JobParts, JobRecord, Key, ReportEnd, Seq, ServerNo};
use recheck::{Recheck, Verdict, check_disk};
use std::alloc::Global;
use std::test::Fail;
use verify_state::VerifyState;
use write_order::{fill_block, place_of};

/// Two blocks of a sector, written once in turn, both writes at the same time.
const JOB: JobParts = JobParts {
    blocks: 2,
    total: 2,
    depth: 2,
    window: 2,
    ..ONE_WRITE
};

/// A job and its key.
#[derive(Clone, Copy)]
struct Given {
    key: Key,
    job: JobRecord,
}

impl Given {
    fn new(parts: JobParts) -> Option<Given> {
        let job = JobRecord::make(parts)?;
        Some(Given { key: KEY, job })
    }

    /// The state of so many issued writes of which these have completed, with the generator at this place.
    fn state_of(
        &self,
        alloc: Global,
        issued: u64,
        place: [u64; 4],
        completed: &[Seq],
    ) -> Option<VerifyState> {
        let list = Vec::from_slice(alloc, completed).ok()?;
        VerifyState::make(self.key, &self.job, issued, place, list).ok()
    }

    /// The state of two issued writes of which only write 0 has completed.
    fn state(&self, alloc: Global) -> Option<VerifyState> {
        self.state_of(alloc, 2, place_of(&self.job, 2), &[Seq(0)])
    }

    /// The bytes of a write.
    fn bytes_of(&self, alloc: Global, seq: u64, block: u32) -> Option<Vec<u8>> {
        let mut bytes = vec![in alloc; 0u8; self.job.bs() as usize].ok()?;
        fill_block(self.key, &self.job, Seq(seq), block, &mut bytes);
        Some(bytes)
    }

    /// Lands the first so many writes, each in its block.
    fn land_first(&self, alloc: Global, disk: &mut MemDisk, blocks: u32) -> Option<()> {
        for block in 0..blocks {
            self.land(alloc, disk, u64::from(block), block, u128::MAX)?;
        }
        Some(())
    }

    /// Lands these sectors of a write.
    fn land(
        &self,
        alloc: Global,
        disk: &mut MemDisk,
        seq: u64,
        block: u32,
        sectors: u128,
    ) -> Option<()> {
        let bytes = self.bytes_of(alloc, seq, block)?;
        if is_block(block, &bytes) {
            disk.land(block, &bytes, sectors).ok()
        } else {
            None
        }
    }

    /// A check by this state.
    fn recheck(&self, alloc: Global, state: &VerifyState) -> Result<Recheck, Fault> {
        Recheck::new(alloc, &self.job, self.key, Some(state), false)
    }

    /// What a check by this state finds at a block that holds these bytes.
    fn verdict(
        &self,
        alloc: Global,
        state: &VerifyState,
        block: u32,
        bytes: &[u8],
    ) -> Option<Verdict> {
        if self.job.blocks() <= block || bytes.len() != self.job.bs() as usize {
            return None;
        }
        match Recheck::new(alloc, &self.job, self.key, Some(state), false) {
            Ok(mut check) => Some(check.feed(block, bytes)),
            Err(_) => None,
        }
    }

    /// What a check of the disk by this state tells, or a full pass of it.
    fn check<D: Disk>(
        &self,
        alloc: Global,
        state: Option<&VerifyState>,
        fatal: bool,
        disk: &mut D,
    ) -> Result<CheckReport, Fault> {
        check_disk(alloc, &self.job, self.key, state, fatal, disk)
    }
}

/// A disk of the second boot to which nothing was written.
fn blank_disk(alloc: Global) -> MemDisk {
    let mut disk = MemDisk::new(alloc);
    disk.power_on(2);
    disk
}

/// Whether these bytes can be a block.
fn is_block(block: u32, bytes: &[u8]) -> bool
    ensures { IsTrue result → IsBlock block (length bytes.now) }
{
    let len = bytes.len();
    block < 65_536 && 512 <= len && len <= 65_536 && len % 512 == 0
}

/// Whether a report tells just this.
fn tells(report: &CheckReport, checked: u32, first: &[u32], end: ReportEnd) -> bool {
    report.checked() == checked
        && report.faults() as usize == first.len()
        && report.first() == first
        && report.end() == end
}

/// Whether a check by this state reads only the first of the blocks 0 to 2.
fn wants_the_first(alloc: Global, given: &Given, state: &VerifyState) -> bool {
    match given.recheck(alloc, state) {
        Ok(check) => check.wants(0) && !check.wants(1) && !check.wants(2),
        Err(_) => false,
    }
}

/// Whether a check skips a write that was open at the trigger, whatever its block holds.
fn skips_the_open_write(alloc: Global) -> Option<bool> {
    let given = Given::new(JOB)?;
    let state = given.state(alloc)?;
    let bytes = given.bytes_of(alloc, 7, 1)?;
    let verdict = given.verdict(alloc, &state, 1, &bytes)?;
    Some(wants_the_first(alloc, &given, &state) && verdict == Verdict::Skipped)
}

#[test]
fn open_write_at_the_trigger(rt: HostRuntime) {
    assert!(rt; skips_the_open_write(rt.alloc()) == Some(true));
}

/// A server and its job, with the place of the generator in a state of `JOB`, where that isn't its own; and
/// why no check of the job by the state starts.
struct Fit {
    server: u32,
    job: JobParts,
    place: Option<[u64; 4]>,
    fault: Option<Fault>,
}

/// A check by the state itself, which starts.
const FITS: Fit = Fit {
    server: 0,
    job: JOB,
    place: None,
    fault: None,
};

static FITTING: [Fit; 5] = [
    Fit {
        server: 1,
        fault: Some(Fault::OtherKey),
        ..FITS
    },
    Fit {
        job: JobParts { seed: 2, ..JOB },
        fault: Some(Fault::OtherJob),
        ..FITS
    },
    Fit {
        job: JobParts { bs: 1024, ..JOB },
        fault: Some(Fault::OtherJob),
        ..FITS
    },
    Fit {
        place: Some([1, 2, 3, 4]),
        fault: Some(Fault::OtherPlace),
        ..FITS
    },
    // The state of a deeper job fits.
    Fit {
        job: JobParts { depth: 1, ..JOB },
        ..FITS
    },
];

/// The state of two writes of `JOB`, with the generator at this place, or at its own.
fn state_at(alloc: Global, place: Option<[u64; 4]>) -> Option<VerifyState> {
    let given = Given::new(JOB)?;
    match place {
        Some(place) => given.state_of(alloc, 2, place, &[Seq(0)]),
        None => given.state(alloc),
    }
}

/// Whether a check starts, or doesn't, as its row has it.
fn fits(alloc: Global, row: &Fit) -> Option<bool> {
    let state = state_at(alloc, row.place)?;
    let given = Given {
        key: Key {
            server: ServerNo(row.server),
            ..KEY
        },
        job: JobRecord::make(row.job)?,
    };
    Some(given.recheck(alloc, &state).err() == row.fault)
}

#[test]
fn states_that_fit_or_do_not(rt: HostRuntime) -> Result<(), Fail> {
    for (i, row) in FITTING.iter().enumerate() {
        if fits(rt.alloc(), row) != Some(true) {
            return Err(Fail::new(i));
        }
    }
    Ok(())
}
