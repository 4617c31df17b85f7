//! A disk is checked.

ghost use Rattle.std.specs.Prelude.{◌≡◌, ◌<◌, ℕ, Some, IfOk, length, filter};
ghost use Rattle.std.specs.List.{range_with_len};
ghost use Rattle.recheck.specs.Disk.{held_by};
ghost use Rattle.recheck.specs.Expected.{expected_by};
ghost use Rattle.recheck.specs.Faults.{is_fault};
ghost use Rattle.recheck.specs.Laws.{HasLost};

use disk_model::Disk;
use fc_base::{Fault, JobRecord, Key, ReportEnd};
use recheck::{check_disk, faults_are_losses};
use std::alloc::Global;
use verify_state::VerifyState;

/// How many blocks of a disk have lost writes that a state of its job counts: where it is 0, none
/// has. A block that can't be read is answered as [`Fault::ReadFault`].
pub fn count_losses<D: Disk>(
    alloc: Global,
    key: Key,
    rec: &JobRecord,
    state: &VerifyState,
    disk: &mut D,
) -> Result<u32, Fault>
    ensures faults { let e = expected_by key rec.now (Some state.now) in
        let held = held_by (D.file disk.old) rec.now in
        IfOk result (λ count. count
        ≡ length (filter (is_fault e held) (range_with_len 0 rec.now.blocks))) }
    ensures none { let held = held_by (D.file disk.old) rec.now in
        IfOk result (λ count. count ≡ 0 → (block : ℕ) → block < rec.now.blocks
        → HasLost key rec.now (Some state.now) held block → ⊥) }
{
    faults_are_losses();
    let report = check_disk(alloc, rec, key, Some(state), false, disk)?;
    match report.end() {
        ReportEnd::Whole => Ok(report.faults()),
        _ => Err(Fault::ReadFault),
    }
}
