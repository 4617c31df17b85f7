//! A job writes to a disk.

ghost use Rattle.std.specs.Prelude.{◌≡◌, ℕ, nat_lt, IsTrue, OnOk, IfOk, length, fold};
ghost use Rattle.disk_model.specs.File.{IsBlock, with_block};
ghost use Rattle.fc_base.specs.Counted.{has, numbers_below};
ghost use Rattle.fc_base.specs.Keys.{is_key};
ghost use Rattle.write_order.specs.Blocks.{block_of};
ghost use Rattle.write_order.specs.Stamps.{bytes_of, written_bytes};

use disk_model::Disk;
use engine::{Engine, Issue, Ticket};
use fc_base::{Fault, JobRecord, Key};
use std::alloc::Global;
use verify_state::VerifyState;
use write_order::{fill_block, writes_stay_in_the_region};

/// Writes a job to a disk from its first write to its last, each as soon as the one before is done,
/// and takes its state then. An error is that of the disk, which has to be on in this epoch.
pub fn write_job<D: Disk>(
    alloc: Global,
    epoch: u64,
    key: Key,
    rec: &JobRecord,
    disk: &mut D,
) -> Result<VerifyState, Fault>
    requires { IsTrue (is_key key) }
    ensures file { OnOk result
        (D.file disk.new
        ≡ fold (λ file k. with_block (block_of rec.now k) (bytes_of key rec.now k) file)
        (D.file disk.old) (numbers_below rec.now.total)) }
    ensures key { IfOk result (λ state. state.key ≡ key) }
    ensures job { IfOk result (λ state. state.job ≡ rec.now) }
    ensures issued { IfOk result (λ state. state.issued ≡ rec.now.total) }
    ensures counts { IfOk result (λ state.
        (k : ℕ) → has state.counted k ≡ nat_lt k rec.now.total) }
{
    // What is known of each job: its limits, and that its writes go to its blocks.
    let _limits = rec.parts();
    writes_stay_in_the_region();
    let Ok(mut engine) = Engine::new(alloc, epoch, key, rec) else {
        return Err(Fault::NoMemory);
    };
    let Ok(mut bytes) = vec![in alloc; 0u8; rec.bs() as usize] else {
        return Err(Fault::NoMemory);
    };
    while let Issue::Write(ticket) = engine.issue() {
        carry_out(rec, &ticket, &mut bytes, disk)?;
        engine.done(ticket)?;
    }
    Ok(engine.take())
}

/// Carries a write out: its bytes go to its block.
fn carry_out<D: Disk>(
    rec: &JobRecord,
    ticket: &Ticket,
    bytes: &mut [u8],
    disk: &mut D,
) -> Result<(), Fault>
    requires block { IsBlock ticket.now.block rec.now.bs }
    requires room { length bytes.old ≡ rec.now.bs }
    ensures { let t = ticket.now in
        let bytes = written_bytes t.key rec.now t.seq t.block in
        OnOk result (D.file disk.new ≡ with_block t.block bytes (D.file disk.old)) }
{
    fill_block(ticket.key, rec, ticket.seq, ticket.block, bytes);
    disk.write(ticket.boot, ticket.block, bytes)
}
