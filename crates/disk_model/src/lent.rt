//! A disk that is lent is a disk.

use crate::disk::Disk;
use fc_base::Fault;

impl<D: Disk> Disk for &mut D {
    ghost file = { λ disk. D.file disk.now };

    fn write(&mut self, epoch: u64, block: u32, bytes: &[u8]) -> Result<(), Fault> {
        Disk::write(&mut **self, epoch, block, bytes)
    }

    fn read(&mut self, block: u32, bytes: &mut [u8]) -> Result<(), Fault> {
        Disk::read(&mut **self, block, bytes)
    }
}
