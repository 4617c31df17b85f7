//! What a check finds at a block.

/// What a check finds at a block.
#[derive(Clone, Copy, Debug, PartialEq, Eq)]
pub enum Verdict {
    /// No write to the block has completed: it may hold anything, and isn't checked.
    Skipped,
    /// The block holds its last completed write, or one that was in flight to it.
    Good,
    /// The block holds none of these.
    Fault,
}
