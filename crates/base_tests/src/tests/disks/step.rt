//! What happens to a disk, as steps with the answers that have to come.

use disk_model::{Disk, FaultDisk, MemDisk};
use fc_base::Fault;

/// A call of a disk that has to answer so, or what has to be read of it. All but rot is of block 3, which has
/// two sectors, and each sector is full of one byte.
#[derive(Clone, Copy)]
pub enum Step {
    /// The power comes on, in this boot.
    On(u64),
    Cut,
    /// A write in this boot, of this byte.
    Write(u64, u8, Result<(), Fault>),
    Read(Result<(), Fault>),
    /// Sectors of a write of this byte land.
    Land(u8, u128),
    /// A sector of the disk rots to this byte.
    Rot(u64, u8),
    /// The two sectors are full of these bytes.
    Holds(u8, u8),
    /// The last block of the greatest size reads as zeros.
    LastIsClear,
}

/// A disk over one in memory.
pub trait Over: Disk {
    fn memory(&mut self) -> &mut MemDisk;
}

impl Over for MemDisk {
    fn memory(&mut self) -> &mut MemDisk {
        self
    }
}

impl Over for FaultDisk {
    fn memory(&mut self) -> &mut MemDisk {
        self.disk_mut()
    }
}

/// Whether each of the steps holds, one after the other.
pub fn all_hold<D: Over>(disk: &mut D, steps: &[Step]) -> bool {
    for step in steps {
        if !holds(disk, *step) {
            return false;
        }
    }
    true
}

/// Takes the step, and tells whether the disk answers so.
fn holds<D: Over>(disk: &mut D, step: Step) -> bool {
    match step {
        Step::Write(epoch, byte, answer) => disk.write(epoch, 3, &[byte; 1024]) == answer,
        Step::Read(answer) => disk.read(3, &mut [0; 1024]) == answer,
        Step::Holds(first, second) => has_bytes(disk, first, second),
        Step::LastIsClear => last_is_clear(disk),
        beneath => holds_beneath(disk.memory(), beneath),
    }
}

/// The same of what happens to the disk in memory.
fn holds_beneath(disk: &mut MemDisk, step: Step) -> bool {
    match step {
        Step::On(epoch) => {
            disk.power_on(epoch);
            true
        }
        Step::Cut => {
            disk.cut();
            true
        }
        Step::Land(byte, mask) => disk.land(3, &[byte; 1024], mask) == Ok(()),
        Step::Rot(sector, byte) => disk.rot(sector, [byte; 512]) == Ok(()),
        _ => false,
    }
}

/// Whether the two sectors of block 3 are full of these bytes.
fn has_bytes<D: Disk>(disk: &mut D, first: u8, second: u8) -> bool {
    let mut bytes = [0xff; 1024];
    let is_read = disk.read(3, &mut bytes).is_ok();
    let (front, back) = bytes.split_at(512);
    is_read && is_full_of(front, first) && is_full_of(back, second)
}

fn last_is_clear<D: Disk>(disk: &mut D) -> bool {
    let mut last = [0xff; 65_536];
    disk.read(65_535, &mut last).is_ok() && is_full_of(&last, 0)
}

pub fn is_full_of(bytes: &[u8], byte: u8) -> bool {
    for b in bytes {
        if *b != byte {
            return false;
        }
    }
    true
}
