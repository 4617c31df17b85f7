//! Two disks that are read at the same time.

ghost use Rattle.disk_model.specs.MemDisk.{file_of};

use disk_model::{Disk, MemDisk};
use fc_base::Fault;
use std::alloc::{AllocError, Global};
use std::sync::Arc;
use std::sync::atomic::{AtomicBool, Ordering};
use std::thread;

/// How often a read looks whether the other has begun.
const TURNS: u32 = 1_000_000;

/// A disk in memory whose first read answers once the first read of another has begun. It fails
/// where that doesn't begin.
#[derive(Drop)]
pub struct Meeting {
    disk: MemDisk,
    was_read: bool,
    failures: u64,
    mine: Arc<AtomicBool, Global>,
    other: Arc<AtomicBool, Global>,
}

/// A flag that isn't set, twice.
fn flag(alloc: Global) -> Result<(Arc<AtomicBool, Global>, Arc<AtomicBool, Global>), AllocError> {
    let flag = Arc::new(alloc, AtomicBool::new(false))?;
    let same = Arc::try_clone(&flag)?;
    Ok((flag, same))
}

/// Whether the flag is set before the turns are spent.
fn is_set_in_time(flag: &AtomicBool) -> bool {
    for _ in 0..TURNS {
        if flag.load(Ordering::SeqCst) {
            return true;
        }
        thread::yield_now();
    }
    false
}

impl Meeting {
    /// Two disks whose first reads wait for each other.
    pub fn pair(
        alloc: Global,
        first: MemDisk,
        second: MemDisk,
    ) -> Result<(Meeting, Meeting), Fault> {
        let Ok((first_begun, first_seen)) = flag(alloc) else {
            return Err(Fault::NoMemory);
        };
        let Ok((second_begun, second_seen)) = flag(alloc) else {
            return Err(Fault::NoMemory);
        };
        let one = Meeting {
            disk: first,
            was_read: false,
            failures: 0,
            mine: first_begun,
            other: second_seen,
        };
        let other = Meeting {
            disk: second,
            was_read: false,
            failures: 0,
            mine: second_begun,
            other: first_seen,
        };
        Ok((one, other))
    }

    /// Begins the first read. Whether that of the other disk has begun, too.
    fn meets(&self) -> bool {
        self.mine.store(true, Ordering::SeqCst);
        is_set_in_time(&self.other)
    }
}

impl Disk for Meeting {
    ghost file = { λ disk. record (file_of disk.disk) { failures = disk.failures } };

    fn write(&mut self, _epoch: u64, _block: u32, _bytes: &[u8]) -> Result<(), Fault> {
        Err(Fault::NoMemory)
    }

    fn read(&mut self, block: u32, bytes: &mut [u8]) -> Result<(), Fault> {
        if self.disk.power().is_none() {
            return Err(Fault::Off);
        }
        if !self.was_read {
            self.was_read = true;
            if !self.meets() && self.failures < u64::MAX {
                self.failures += 1;
                return Err(Fault::ReadFault);
            }
        }
        self.disk.read(block, bytes)
    }
}
