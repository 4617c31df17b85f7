//! Why a story doesn't go on.

use std::alloc::AllocError;

#[derive(Clone, Copy, Debug, PartialEq, Eq)]
pub enum Trouble {
    /// Memory ran out, twice.
    NoMemory,
    /// The row is none.
    BadRow,
    /// A refused event has changed the world.
    Changed,
}

impl From<AllocError> for Trouble {
    fn from(_error: AllocError) -> Trouble {
        Trouble::NoMemory
    }
}
