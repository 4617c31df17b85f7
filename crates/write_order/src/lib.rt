//! The write order of a job: which block each write goes to, where the generator of random orders
//! stands after some writes, and the bytes that a write puts into its block.
//!
//! ```text
//! let mut order = Order::new(alloc, &rec)?;
//! while let Some(block) = order.peek() {
//!     fill_block(key, &rec, Seq(order.issued()), block, &mut bytes);
//!     order.advance();
//! }
//! ```
//!
//! Begin with `order` and `specs/Blocks.antt`; `stamp` has the bytes, `specs/Picks.antt` the random
//! orders.
#![tactic(auto)]

mod holding;
mod law;
mod order;
mod pass;
mod picks;
mod stamp;
mod words;

pub use holding::holds_write;
pub use law::{
    examples, passes_name_each_block_once, stamps_tell_writes_apart, writes_fill_their_blocks,
    writes_stay_in_the_region,
};
pub use order::{Order, place_of};
pub use picks::pick_blocks;
pub use stamp::fill_block;
