//! The blocks that a job writes.

ghost use Rattle.std.specs.Prelude.{◌≡◌, true, map, slice_set, IfOk};
ghost use Rattle.std.specs.List.{range_with_len};
ghost use Rattle.ledger.specs.Entries.{may_write};

use fc_base::JobRecord;
use std::alloc::{AllocError, Global};
use write_order::Order;

/// Which of so many blocks the job has a write to. It goes once over the writes of the job.
pub fn blocks_touched(alloc: Global, rec: &JobRecord, blocks: u32) -> Result<Vec<bool>, AllocError>
    ensures { IfOk result (λ touched. touched.items ≡ map (may_write rec.now)
        (range_with_len 0 blocks)) }
{
    let mut touched = vec![in alloc; false; blocks as usize]?;
    let mut order = Order::new(alloc, rec)?;
    for _ in 0..rec.total() {
        let Some(block) = order.peek() else {
            unreachable!()
        };
        mark(&mut touched, block);
        order.advance();
    }
    Ok(touched)
}

/// Marks a block, where it is one of them.
fn mark(touched: &mut Vec<bool>, block: u32)
    ensures { touched.new.items ≡ slice_set touched.old.items block true }
{
    if (block as usize) < touched.len() {
        touched[block as usize] = true;
    }
}
