//! A disk outlives a cut of its power.

ghost use Rattle.std.specs.Prelude.{◌≡◌, IfOk, IsTrue};
ghost use Rattle.fc_base.specs.Keys.{is_key};

use crate::checks::count_losses;
use crate::writes::write_job;
use disk_model::{MemDisk, block_law};
use fc_base::{Fault, JobRecord, Key};
use recheck::faults_are_losses;
use std::alloc::Global;
use write_order::{writes_fill_their_blocks, writes_stay_in_the_region};

/// Writes a job to a disk, cuts the power, and counts by the state that was taken what was lost:
/// nothing.
pub fn write_cut_check(
    alloc: Global,
    key: Key,
    rec: &JobRecord,
    disk: &mut MemDisk,
) -> Result<u32, Fault>
    requires { IsTrue (is_key key) }
    ensures { IfOk result (λ lost. lost ≡ 0) }
{
    block_law();
    faults_are_losses();
    writes_fill_their_blocks();
    writes_stay_in_the_region();
    let _limits = rec.parts();
    disk.power_on(1);
    let state = write_job(alloc, 1, key, rec, disk)?;
    disk.cut();
    disk.power_on(2);
    count_losses(alloc, state.key(), rec, &state, disk)
}
