//! Which blocks a disk has.

ghost use Rattle.std.specs.Prelude.{IsTrue, ◌↔◌};
ghost use Rattle.disk_model.specs.File.{IsBlock};

use crate::run::SECTOR;
use fc_base::{MAX_BLOCK_SIZE, MAX_BLOCKS};

/// Whether a disk has a block of this number and of so many bytes: one of the first [`MAX_BLOCKS`],
/// of a length that a job's block size may have. What calls of a [`Disk`](crate::Disk) require.
pub fn is_block(block: u32, len: usize) -> bool
    ensures { IsTrue result ↔ IsBlock block len }
{
    block < MAX_BLOCKS && SECTOR <= len && len <= MAX_BLOCK_SIZE as usize && len % SECTOR == 0
}
