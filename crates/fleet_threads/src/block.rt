//! How a worker carries out a write on the file of its job.

ghost use Rattle.std.specs.Prelude.{◌≡◌, length, IsSome};
ghost use Rattle.fc_base.specs.declared.limits.TheConstants.{MAX_BLOCK_SIZE as BLOCK_SIZE};
ghost use Rattle.server_core.specs.declared.input.WriteEnd.TheVariants.{Done};

use crate::asking::Order;
use crate::lock::lock_file;
use crate::untold_end::UntoldEnd;
use disk_model::Disk;
use fc_base::MAX_BLOCKS;
use std::sync::{Mutex, Wait};
use write_order::fill_block;

/// Carries out a write on the file of its job's number, by way of the worker's memory, in which its block is filled
/// before its file's lock is taken; that another thread had that lock is told. It fails where its job isn't
/// known, or has no file, and where the disk refuses it.
pub(crate) fn carry_out<R: Wait, D: Disk>(
    rt: &R,
    files: &[Mutex<D>],
    order: &Order,
    memory: &mut [u8],
    was_held: &mut bool,
) -> UntoldEnd
    requires { length memory.old ≡ BLOCK_SIZE }
    ensures ticket { result.ticket ≡ order.now.ticket }
    ensures known { result.end ≡ Done → IsSome order.now.rec }
    ensures room { length memory.new ≡ BLOCK_SIZE }
{
    let Order { ticket, rec } = *order;
    let (Some(rec), Some(file)) = (rec, files.get(ticket.key.job.0 as usize)) else {
        return UntoldEnd::failed(&ticket);
    };
    if ticket.block >= MAX_BLOCKS {
        return UntoldEnd::failed(&ticket);
    }
    let bytes = &mut memory[..rec.bs() as usize];
    fill_block(ticket.key, &rec, ticket.seq, ticket.block, bytes);
    UntoldEnd::land(&mut *lock_file(rt, file, was_held), &ticket, &rec, bytes)
}
