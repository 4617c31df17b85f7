//! What a worker has in hand.

ghost use Rattle.std.specs.Prelude.{◌≡◌, ◌+◌, length};
ghost use Rattle.fc_base.specs.declared.limits.TheConstants.{MAX_BLOCK_SIZE as BLOCK_SIZE};

use crate::asking::{HAND, Order};
use crate::block::carry_out;
use crate::gate::Gate;
use crate::untold_end::UntoldEnd;
use disk_model::Disk;
use fc_base::MAX_BLOCK_SIZE;
use std::alloc::{AllocError, Global};
use std::sync::{Mutex, Wait};

/// What a worker has between its turns: the memory for a block, the writes that it was given and hasn't carried
/// out, since its gate refuses them, and those that have ended and of which its server isn't told yet.
#[derive(Drop)]
pub(crate) struct WriteQueue {
    memory: Vec<u8>,
    pub(crate) given: Vec<Order>,
    pub(crate) ended: Vec<UntoldEnd>,
    /// Another worker had the lock of a file to which it wrote last.
    pub(crate) was_held: bool,
    ghost whole: { length memory.items ≡ BLOCK_SIZE },
}

impl WriteQueue {
    /// That of a worker which has nothing in hand.
    pub(crate) fn new(alloc: Global) -> Result<WriteQueue, AllocError> {
        Ok(WriteQueue {
            memory: vec![in alloc; 0; MAX_BLOCK_SIZE as usize]?,
            given: Vec::with_capacity(alloc, HAND)?,
            ended: Vec::with_capacity(alloc, HAND)?,
            was_held: false,
        })
    }

    /// Carries out those writes in hand that the gate lets through by now, the first of them first; the others
    /// stay. Whether there was one.
    pub(crate) fn carry_out<R: Wait, D: Disk, G: Gate>(
        &mut self,
        rt: &R,
        files: &[Mutex<D>],
        gate: &G,
    ) -> bool
        ensures { length self.new.given.items + length self.new.ended.items
            ≡ length self.old.given.items + length self.old.ended.items }
    {
        let mut kept = 0;
        self.was_held = false;
        for at in 0..self.given.len() {
            let order = self.given.as_slice()[at];
            // (where there is no memory to note its end, it waits as one that is refused)
            if self.ended.reserve(1).is_ok() && gate.may_write(&order.ticket) {
                self.ended.push_reserved(carry_out(
                    rt,
                    files,
                    &order,
                    &mut self.memory,
                    &mut self.was_held,
                ));
            } else {
                self.given[kept] = order;
                kept += 1;
            }
        }
        let is_any = kept < self.given.len();
        self.given.truncate(kept);
        is_any
    }
}
