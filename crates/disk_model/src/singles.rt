//! Sectors that lie by themselves.

ghost use Rattle.std.specs.Prelude.{◌≡◌, ℕ, ◌+◌, ◌*◌, ◌/◌, ◌%◌, ◌^◌, ◌<◌, ◌≤◌, length, IfOk, OnOk, OnErr};
ghost use Rattle.disk_model.specs.File.{zeros, sector_of, put};

use crate::run::{RUN_SECTORS, Run, SECTOR, zero_bytes};
use std::alloc::{AllocError, Global};
use std::collections::BTreeMap;

/// Single sectors by their numbers. The others hold zeros.
#[derive(Drop)]
pub(crate) struct Singles {
    alloc: Global,
    sectors: BTreeMap<u64, [u8; 512]>,
}

impl Singles {
    ghost use Rattle.disk_model.specs.Singles.{single_of, AreSingles, IsSameOutsideRun};

    /// All sectors hold zeros.
    pub(crate) fn new(alloc: Global) -> Self
        ensures { single_of result ≡ (λ _. zeros) }
    {
        Singles {
            alloc,
            sectors: BTreeMap::new(alloc),
        }
    }

    /// Replaces one sector. For want of memory nothing changes.
    pub(crate) fn replace(&mut self, sector: u64, bytes: [u8; 512]) -> Result<(), AllocError>
        ensures ok { OnOk result (AreSingles self.new (put sector bytes (single_of self.old))) }
        ensures err { OnErr result (AreSingles self.new (single_of self.old)) }
    {
        self.sectors.insert(sector, bytes)?;
        Ok(())
    }

    /// Reads sectors from `first` on.
    pub(crate) fn read(&self, first: u64, bytes: &mut [u8])
        requires reach { first + length bytes.old / 512 ≤ 2 ^ 64 }
        requires whole { length bytes.old % 512 ≡ 0 }
        ensures { (i : ℕ) → i < length bytes.old / 512 → sector_of bytes.new i
            ≡ single_of self.now (first + i) }
    {
        bytes.fill(0);
        for i in 0..bytes.len() / SECTOR {
            if let Some(sector) = self.sectors.get(&(first + i as u64)) {
                let start = i * SECTOR;
                copy(sector, &mut bytes[start..start + SECTOR]);
            }
        }
    }

    /// A run of what its sectors hold.
    pub(crate) fn gather(&self, run: u64) -> Result<Run, AllocError>
        requires { run < 2 ^ 57 }
        ensures { IfOk result (λ made. (i : ℕ) → i < 128 → sector_of made i
            ≡ single_of self.now (128 * run + i)) }
    {
        let mut bytes = zero_bytes(self.alloc)?;
        self.read(128 * run, &mut bytes);
        Ok(Run::make(bytes))
    }

    /// Drops the sectors that lie where a run does.
    pub(crate) fn forget(&mut self, run: u64)
        requires { run < 2 ^ 57 }
        ensures { IsSameOutsideRun self.old self.new run }
    {
        for i in 0..RUN_SECTORS as u64 {
            let _ = self.sectors.remove(&(128 * run + i));
        }
    }
}

fn copy(sector: &[u8; 512], to: &mut [u8])
    requires { length to.old ≡ 512 }
    ensures { to.new ≡ sector.now }
{
    to.copy_from_slice(sector.as_slice());
}
