//! Why a story doesn't go on.

use std::alloc::AllocError;

#[derive(Clone, Copy, Debug, PartialEq, Eq)]
pub enum Trouble {
    /// Memory ran out, twice.
    NoMemory,
    /// The frame of a row is refused by this number.
    BadFrame(u8),
    /// The row is none.
    BadRow,
    /// The node is off, or is on.
    Off,
    /// A refused call has changed the node, or a note isn't written as it was read.
    Changed,
}

impl From<AllocError> for Trouble {
    fn from(_error: AllocError) -> Trouble {
        Trouble::NoMemory
    }
}
