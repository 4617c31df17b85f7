//! What a disk does with the file that it keeps.

ghost use Rattle.std.specs.Prelude.{length};
ghost use Rattle.disk_model.specs.File.{File, IsBlock};
ghost use Rattle.disk_model.specs.Disk.{IsWritten, IsRead};

use fc_base::Fault;

/// A disk with one file, in blocks. A block's length is that of the bytes that are handed in, and
/// block `b` of length `len` begins at byte `b * len`.
pub trait Disk {
    /// The file, as the disk keeps it.
    ghost file: { Self → File };

    /// Writes a block, in the epoch in which the disk was last powered on.
    ///
    /// `Off`: the power is off, or this is an earlier epoch; nothing changes. `NoMemory`: nothing
    /// changes. `WriteFault`: the device failed, and the block holds any bytes.
    fn write(&mut self, epoch: u64, block: u32, bytes: &[u8]) -> Result<(), Fault>
        requires { IsBlock block (length bytes.now) }
        ensures { IsWritten (file self.old) (file self.new) epoch block bytes.now result };

    /// Reads a block. Where it is refused, `bytes` may hold anything, and the file is the same.
    ///
    /// `Off`: the power is off. `ReadFault`: the device failed.
    fn read(&mut self, block: u32, bytes: &mut [u8]) -> Result<(), Fault>
        requires { IsBlock block (length bytes.old) }
        ensures { IsRead (file self.old) (file self.new) block bytes.new result };
}
