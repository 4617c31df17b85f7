//! A core under its lock, whichever node it is of, with the history of all that came to it.

mod deliver;
mod hear;
mod power;

use crate::history::History;
pub(crate) use hear::outcome;
use node::Power;
pub(crate) use power::{cut, restart};
use std::alloc::Global;

/// A core that has power, or its notes, and the history of all that came to it.
pub(crate) struct Cell<C, N> {
    pub(crate) alloc: Global,
    pub(crate) power: Power<C, N>,
    pub(crate) history: History,
}

/// By hand, so that the crates above need no proof of it.
impl<C: Drop, N: Drop> Drop for Cell<C, N> {
    fn drop(self) {
        let Cell {
            alloc: _,
            power: _,
            history: _,
        } = self;
    }
}
