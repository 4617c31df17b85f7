//! Inputs and outputs in memory that are slow, hold back or fail where a test wants it.
#![tactic(auto)]

mod held;
mod page;
mod source;

pub use held::{Held, held_output};
pub use page::{Page, page_with};
pub use source::{Source, failing, failing_at, in_steps, interrupted, source_of};
