//! A disk that fails once.

ghost use Rattle.std.specs.Prelude.{◌≡◌, ◌≢◌, ◌==◌, Some, Ok, Err, length};
ghost use Rattle.std.specs.Borrow.{sem};
ghost use Rattle.disk_model.specs.File.{IsBlock, with_landed};
ghost use Rattle.disk_model.specs.Disk.{IsWritten, IsRead};
ghost use Rattle.disk_model.specs.MemDisk.{file_of};
ghost use Rattle.disk_model.specs.Countdown.{one_fewer};

use crate::countdown::Countdown;
use crate::disk::Disk;
use crate::mem_disk::MemDisk;
use fc_base::Fault;

/// A disk in memory, one of whose reads and writes fails.
#[derive(Drop)]
pub struct FaultDisk {
    disk: MemDisk,
    countdown: Countdown,
}

impl FaultDisk {
    ghost use Rattle.disk_model.specs.FaultDisk.{faulty_file, calls_left, disk_of, LendsDisk};

    /// A disk whose call number `at` fails: reads and writes are counted together from 0, refused
    /// ones too. A write that fails leaves the first sector of its block new and the others old. A
    /// call that is refused by `Off` or for want of memory doesn't fail, and then none does.
    pub fn new(disk: MemDisk, at: u64) -> Self
        ensures file { faulty_file result ≡ file_of disk }
        ensures at { calls_left result ≡ Some at }
    {
        FaultDisk {
            disk,
            countdown: Countdown::Left(at),
        }
    }

    /// The disk in memory, with all that was done to it.
    pub fn into_disk(self) -> MemDisk
        ensures disk { result ≡ disk_of self }
        ensures file { file_of result ≡ record (faulty_file self) { failures = 0 } }
    {
        let FaultDisk { disk, countdown: _ } = self;
        disk
    }

    /// The disk in memory, to cut it and to power it on. What is done to it counts for no call.
    pub fn disk_mut(&mut self) -> &mut MemDisk
        ensures* lends { sem 𝓛 (LendsDisk self.entry result) }
        ensures value { result.now ≡ disk_of self.old }
    {
        &mut self.disk
    }
}

impl Disk for FaultDisk {
    ghost use Rattle.disk_model.specs.FaultDisk.{faulty_file, calls_left};

    ghost file = { faulty_file };

    fn write(&mut self, epoch: u64, block: u32, bytes: &[u8]) -> Result<(), Fault>
        requires { IsBlock block (length bytes.now) }
        ensures law { IsWritten (faulty_file self.old)
            (faulty_file self.new) epoch block bytes.now result }
        ensures left { calls_left self.new ≡ one_fewer (calls_left self.old) }
        // The call whose turn it is doesn't succeed, and no other fails.
        ensures due { calls_left self.old ≡ Some 0 → result ≢ Ok tt }
        ensures spared { calls_left self.old ≢ Some 0 → result ≢ Err Fault.WriteFault }
        ensures torn { result ≡ Err Fault.WriteFault → (faulty_file self.new).content
            ≡ (with_landed (λ i. i == 0) block bytes.now (faulty_file self.old)).content }
    {
        let is_due = self.countdown.is_due();
        self.countdown = self.countdown.next();
        if !is_due {
            return self.disk.write(epoch, block, bytes);
        }
        if self.disk.power() != Some(epoch) {
            return Err(Fault::Off);
        }
        match self.disk.tear(block, bytes) {
            Ok(()) => {
                self.countdown = Countdown::Failed;
                Err(Fault::WriteFault)
            }
            Err(_) => Err(Fault::NoMemory),
        }
    }

    fn read(&mut self, block: u32, bytes: &mut [u8]) -> Result<(), Fault>
        requires { IsBlock block (length bytes.old) }
        ensures law { IsRead (faulty_file self.old) (faulty_file self.new) block bytes.new result }
        ensures left { calls_left self.new ≡ one_fewer (calls_left self.old) }
        ensures due { calls_left self.old ≡ Some 0 → result ≢ Ok tt }
        ensures spared { calls_left self.old ≢ Some 0 → result ≢ Err Fault.ReadFault }
    {
        let is_due = self.countdown.is_due();
        self.countdown = self.countdown.next();
        if !is_due {
            return self.disk.read(block, bytes);
        }
        if self.disk.power().is_none() {
            return Err(Fault::Off);
        }
        self.countdown = Countdown::Failed;
        Err(Fault::ReadFault)
    }
}
