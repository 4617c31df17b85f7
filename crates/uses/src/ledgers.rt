//! A disk is checked by a ledger.

ghost use Rattle.std.specs.Prelude.{◌≡◌, ℕ, ◌+◌, ◌<◌, ◌≤◌, ◌%◌, List, length, IfOk, OnOk};
ghost use Rattle.disk_model.specs.File.{IsBlock, block_bytes};
ghost use Rattle.ledger.specs.Places.{Place, after_check};
ghost use Rattle.ledger.specs.Reports.{report};
ghost use Rattle.ledger.specs.Checks.{HasSeen};
ghost use Rattle.fc_base.specs.declared.limits.TheConstants.{MAX_BLOCK_SIZE};

use disk_model::Disk;
use fc_base::{CheckReport, Fault, MAX_BLOCK_SIZE};
use ledger::{Ledger, LedgerCheck};
use std::alloc::Global;

/// What a check of a whole disk by a ledger tells, and what is known of it from then on.
#[derive(Drop)]
pub struct Checked {
    pub report: CheckReport,
    pub ledger: Ledger,
}

/// Checks a disk by its ledger: it reads the blocks of which something is asked, and no other.
pub fn check_by_ledger<D: Disk>(
    alloc: Global,
    ledger: Ledger,
    disk: &mut D,
) -> Result<Checked, Fault>
    requires size { (512 ≤ ledger.bs) × (ledger.bs ≤ MAX_BLOCK_SIZE) × (ledger.bs % 512 ≡ 0) }
    ensures report { let held = block_bytes (D.file disk.old).content ledger.bs in
        IfOk result (λ checked. checked.report ≡ report ledger held) }
    ensures behind { let held = block_bytes (D.file disk.old).content ledger.bs in
        IfOk result (λ checked. checked.ledger ≡ after_check held ledger) }
{
    let Ok(mut bytes) = vec![in alloc; 0u8; ledger.block_size() as usize] else {
        return Err(Fault::NoMemory);
    };
    let mut check = LedgerCheck::new(ledger);
    for block in 0..check.blocks() {
        check_block(&mut check, block, &mut bytes, disk)?;
    }
    let (report, ledger) = check.finish();
    Ok(Checked { report, ledger })
}

/// Reads the next block, where something is asked of it, and checks it.
fn check_block<D: Disk>(
    check: &mut LedgerCheck,
    block: u32,
    bytes: &mut [u8],
    disk: &mut D,
) -> Result<(), Fault>
    requires block { block < length check.old.place.entries }
    requires next { check.old.next ≤ block }
    requires limits { IsBlock block (length bytes.old) }
    ensures seen { OnOk result ((place : Place)
        → HasSeen check.old place (block_bytes (D.file disk.old).content (length bytes.old)) block
        → HasSeen check.new place (block_bytes (D.file disk.old).content (length bytes.old))
        (block + 1)) }
    ensures file { OnOk result (D.file disk.new ≡ D.file disk.old) }
{
    if !check.wants(block) {
        return Ok(());
    }
    disk.read(block, bytes)?;
    check.feed(block, bytes);
    Ok(())
}
