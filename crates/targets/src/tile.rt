//! The open tiles of a tour.

ghost use Rattle.std.specs.Prelude.{◌≤◌, ◌<◌, vec_capacity};
ghost use Rattle.fc_base.specs.declared.limits.TheConstants.{MAX_JOBS};
ghost use Rattle.targets.specs.declared.tile.TheConstants.{MAX_OPEN};

use crate::writing::Writes;
use fc_base::{JobNo, JobRecord};
use std::alloc::Global;

/// How many tiles are open at once at the most.
pub const MAX_OPEN: usize = 64;

/// A tile that is open: its number and its writes.
#[derive(Drop)]
pub(crate) struct Tile {
    pub(crate) number: u64,
    pub(crate) writes: Writes,
}

/// A tour: the tiles that are open, with room for as many as may be, and what they have in common.
#[derive(Drop)]
pub(crate) struct Tour {
    pub(crate) alloc: Global,
    pub(crate) number: JobNo,
    pub(crate) rec: JobRecord,
    pub(crate) tiles: Vec<Tile>,
    /// The number of the next tile.
    pub(crate) next: u64,
    /// Room for the bytes of a state.
    pub(crate) bytes: Vec<u8>,
    ghost is_job: { number < MAX_JOBS },
    ghost room: { MAX_OPEN ≤ vec_capacity tiles },
}
