//! A disk in memory.

ghost use Rattle.std.specs.Prelude.{◌≡◌, ◌==◌, ◌≤◌, ◌+◌, ◌/◌, None, Some, length, OnOk, OnErr};
ghost use Rattle.disk_model.specs.File.{IsBlock, zeros, first_sector, has_bit};
ghost use Rattle.disk_model.specs.File.{with_landed, with_sector, IsSameOutside, HasWholeSectors};

use crate::disk::Disk;
use crate::picks::Picks;
use crate::run::{MAX_SECTORS, SECTOR};
use crate::sectors::Sectors;
use fc_base::Fault;
use std::alloc::{AllocError, Global};

/// A disk that keeps its file in memory. It never fails, but for want of memory.
pub struct MemDisk {
    sectors: Sectors,
    power: Option<u64>,
}

/// By hand, so that the crates above need no proof of it.
impl Drop for MemDisk {
    fn drop(self) {
        let MemDisk {
            sectors: _,
            power: _,
        } = self;
    }
}

impl MemDisk {
    ghost use Rattle.disk_model.specs.MemDisk.{file_of};

    /// A disk that is off, and on which nothing was written: all sectors hold zeros.
    pub fn new(alloc: Global) -> Self
        ensures { file_of result ≡ record { content = λ _. zeros; power = None; failures = 0 } }
    {
        MemDisk {
            sectors: Sectors::new(alloc),
            power: None,
        }
    }

    /// Cuts the power. The content stays as it is.
    pub fn cut(&mut self)
        ensures { file_of self.new ≡ record (file_of self.old) { power = None } }
    {
        self.power = None;
    }

    /// Powers the disk on, in a new epoch. The content stays as it is.
    pub fn power_on(&mut self, epoch: u64)
        ensures { file_of self.new ≡ record (file_of self.old) { power = Some epoch } }
    {
        self.power = Some(epoch);
    }

    /// The epoch in which the disk is on, or none while it is off.
    pub fn power(&self) -> Option<u64>
        ensures { result ≡ (file_of self.now).power }
    {
        self.power
    }

    /// Lands those sectors of a block whose bit is set: bit `i` of `mask` is for sector `i` of the
    /// block, and bits past the block mean nothing. It is done whether the power is on or off. For
    /// want of memory nothing changes.
    pub fn land(&mut self, block: u32, bytes: &[u8], mask: u128) -> Result<(), AllocError>
        requires { IsBlock block (length bytes.now) }
        ensures ok { OnOk result
            (file_of self.new ≡ with_landed (has_bit mask) block bytes.now (file_of self.old)) }
        ensures err { OnErr result (file_of self.new ≡ file_of self.old) }
    {
        self.sectors.land(first_sector(block, bytes.len()), bytes, Picks::Masked(mask))
    }

    /// Lands the first sector of a block alone, as a write that is cut short may.
    pub(crate) fn tear(&mut self, block: u32, bytes: &[u8]) -> Result<(), AllocError>
        requires { IsBlock block (length bytes.now) }
        ensures ok { OnOk result
            (file_of self.new ≡ with_landed (λ i. i == 0) block bytes.now (file_of self.old)) }
        ensures outside { OnOk result
            (IsSameOutside (file_of self.old) (file_of self.new) block (length bytes.now)) }
        ensures whole { OnOk result
            (HasWholeSectors (file_of self.old) → HasWholeSectors (file_of self.new)) }
        ensures err { OnErr result (file_of self.new ≡ file_of self.old) }
    {
        self.land(block, bytes, 1)?;
        Ok(())
    }

    /// Replaces one sector, as a failing medium may: any sector, also one that no block reaches. It
    /// is done whether the power is on or off. For want of memory nothing changes.
    pub fn rot(&mut self, sector: u64, bytes: [u8; 512]) -> Result<(), AllocError>
        ensures ok { OnOk result (file_of self.new ≡ with_sector sector bytes (file_of self.old)) }
        ensures err { OnErr result (file_of self.new ≡ file_of self.old) }
    {
        self.sectors.rot(sector, bytes)
    }
}

impl Disk for MemDisk {
    ghost use Rattle.disk_model.specs.MemDisk.{file_of};

    ghost file = { file_of };

    fn write(&mut self, epoch: u64, block: u32, bytes: &[u8]) -> Result<(), Fault> {
        if self.power != Some(epoch) {
            return Err(Fault::Off);
        }
        match self
            .sectors
            .land(first_sector(block, bytes.len()), bytes, Picks::All)
        {
            Ok(()) => Ok(()),
            Err(_) => Err(Fault::NoMemory),
        }
    }

    fn read(&mut self, block: u32, bytes: &mut [u8]) -> Result<(), Fault> {
        if self.power.is_none() {
            return Err(Fault::Off);
        }
        self.sectors.read(first_sector(block, bytes.len()), bytes);
        Ok(())
    }
}

/// The first sector of a block.
fn first_sector(block: u32, len: usize) -> u64
    requires { IsBlock block len }
    ensures value { result ≡ first_sector block len }
    ensures reach { result + len / 512 ≤ MAX_SECTORS }
{
    u64::from(block) * (len / SECTOR) as u64
}
