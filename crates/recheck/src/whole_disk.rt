//! The check of a whole disk.

ghost use Rattle.std.specs.Prelude.{◌≡◌, ◌<◌, ◌≤◌, length, false};
ghost use Rattle.std.specs.Option.{option_copied};
ghost use Rattle.disk_model.specs.File.{IsBlock};
ghost use Rattle.recheck.specs.Check.{has_ended};
ghost use Rattle.recheck.specs.Disk.{ChecksDisk};
ghost use Rattle.recheck.specs.DiskSteps.{StepsDisk};

use crate::recheck::Recheck;
use disk_model::Disk;
use fc_base::{CheckReport, Fault, JobRecord, Key};
use std::alloc::Global;
use verify_state::VerifyState;

/// Checks the file of a disk, as [`Recheck`] does: it reads each block that has to be checked, in
/// ascending order, and no other. It ends at the first fault where a fault is fatal, and at a block
/// that can't be read, which the report tells.
///
/// Refused are a state that doesn't fit ([`Fault::OtherKey`], [`Fault::OtherJob`] and
/// [`Fault::OtherPlace`], as by [`Recheck::new`]), want of memory ([`Fault::NoMemory`]), and
/// [`Fault::Off`] where the state fits, some block has to be read, and the disk is off. The file is
/// then the same.
pub fn check_disk<D: Disk>(
    alloc: Global,
    rec: &JobRecord,
    key: Key,
    state: Option<&VerifyState>,
    fatal: bool,
    disk: &mut D,
) -> Result<CheckReport, Fault>
    ensures { ChecksDisk result key rec.now (option_copied state.entry) fatal (D.file disk.old)
        (D.file disk.new) }
{
    let mut check = Recheck::new(alloc, rec, key, state, fatal)?;
    let Ok(mut bytes) = vec![in alloc; 0u8; rec.bs() as usize] else {
        return Err(Fault::NoMemory);
    };
    for block in 0..rec.blocks() {
        match check_block(&mut check, block, &mut bytes, disk) {
            Ok(()) => {}
            Err(Fault::ReadFault) => return Ok(check.finish_at(block)),
            Err(fault) => return Err(fault),
        }
        if check.ended() {
            return Ok(check.finish());
        }
    }
    Ok(check.finish())
}

/// Reads the next block, where it has to be checked, and checks it.
fn check_block<D: Disk>(
    check: &mut Recheck,
    block: u32,
    bytes: &mut [u8],
    disk: &mut D,
) -> Result<(), Fault>
    requires block { block < check.old.expected.job.blocks }
    requires limits { IsBlock block (length bytes.old) }
    requires next { check.old.next ≤ block }
    requires bytes { length bytes.old ≡ check.old.expected.job.bs }
    requires unended { has_ended check.old ≡ false }
    ensures { StepsDisk result check.old check.new block (D.file disk.old) (D.file disk.new) }
{
    if !check.wants(block) {
        return Ok(());
    }
    disk.read(block, bytes)?;
    check.feed(block, bytes);
    Ok(())
}
