//! A run of sectors.

ghost use Rattle.std.specs.Prelude.{◌≡◌, ℕ, ◌+◌, ◌*◌, ◌/◌, ◌%◌, ◌<◌, ◌≤◌, length, replicate, IfOk};
ghost use Rattle.disk_model.specs.File.{sector_of, sectors, landed};
ghost use Rattle.disk_model.specs.Picks.{is_picked};

use crate::picks::Picks;
use fc_base::{MAX_BLOCK_SIZE, MAX_BLOCKS};
use std::alloc::{AllocError, Global};
use std::marker::Model;

/// Bytes of a sector.
pub(crate) const SECTOR: usize = 512;

/// Sectors of a run.
pub(crate) const RUN_SECTORS: usize = 128;

/// Bytes of a run.
const RUN_BYTES: usize = RUN_SECTORS * SECTOR;

/// One past the greatest number of a sector that a block can have.
pub(crate) const MAX_SECTORS: u64 = MAX_BLOCKS as u64 * (MAX_BLOCK_SIZE as u64 / SECTOR as u64);

/// 128 sectors, one after another.
#[derive(Drop)]
pub(crate) struct Run {
    bytes: Vec<u8>,
}

impl Model for Run {
    ghost use Rattle.std.specs.Prelude.{◌≡◌, ℕ, List, length};
    ghost use Rattle.disk_model.specs.declared.run.TheConstants.{RUN_BYTES};

    ghost Value = { List ℕ };

    ghost view = { λ r. r.bytes.items };

    ghost invariant = { λ r. length r.bytes.items ≡ RUN_BYTES };
}

/// The bytes of a run of zeros, copied a sector at a time, which is faster than byte by byte.
pub(crate) fn zero_bytes(alloc: Global) -> Result<Vec<u8>, AllocError>
    ensures { IfOk result (λ bytes. bytes.items ≡ replicate RUN_BYTES 0) }
{
    let sector = [0; SECTOR];
    let mut bytes = Vec::with_capacity(alloc, RUN_BYTES)?;
    for _ in 0..RUN_SECTORS {
        bytes.extend_from_slice(&sector)?;
    }
    Ok(bytes)
}

impl Run {
    /// The run of these bytes.
    pub(crate) fn make(bytes: Vec<u8>) -> Self
        requires { length bytes.items ≡ RUN_BYTES }
        ensures { result ≡ bytes.items }
    {
        Run { bytes }
    }

    /// Reads sectors from `first` on.
    pub(crate) fn read(&self, first: usize, bytes: &mut [u8])
        requires within { first + length bytes.old / 512 ≤ 128 }
        requires whole { length bytes.old % 512 ≡ 0 }
        ensures { bytes.new ≡ sectors (sector_of self.now) first (length bytes.old / 512) }
    {
        let start = first * SECTOR;
        bytes.copy_from_slice(&self.bytes[start..start + bytes.len()]);
    }

    /// Writes the picked sectors of these, from `first` on.
    pub(crate) fn land(&mut self, first: usize, bytes: &[u8], picks: Picks)
        requires within { first + length bytes.now / 512 ≤ 128 }
        requires whole { length bytes.now % 512 ≡ 0 }
        ensures { (i : ℕ) → i < 128 → sector_of self.new i
            ≡ landed (is_picked picks) first bytes.now (sector_of self.old) i }
    {
        land_bytes(&mut self.bytes, first, bytes, picks);
    }
}

fn land_bytes(run: &mut [u8], first: usize, bytes: &[u8], picks: Picks)
    requires len { length run.old ≡ RUN_BYTES }
    requires within { first + length bytes.now / 512 ≤ 128 }
    requires whole { length bytes.now % 512 ≡ 0 }
    ensures { (i : ℕ) → i < 128 → sector_of run.new i
        ≡ landed (is_picked picks) first bytes.now (sector_of run.old) i }
{
    let start = first * SECTOR;
    picks.copy(bytes, &mut run[start..start + bytes.len()]);
}
