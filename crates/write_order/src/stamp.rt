//! The bytes that a write puts into its block.

ghost use Rattle.std.specs.Prelude.{◌≡◌, ◌+◌, ◌*◌, ◌≤◌, ◌++◌, length, take, flat_map};
ghost use Rattle.std.specs.List.{range_with_len};
ghost use Rattle.write_order.specs.Blocks.{block_of};
ghost use Rattle.write_order.specs.Stamps.{stamped_sector, counting_bytes, written_bytes, bytes_of};
ghost use Rattle.write_order.specs.Filling.{with_number};

use fc_base::{JobRecord, Key, Seq, Verify};

/// Bytes of a sector.
pub(crate) const SECTOR: usize = 512;

/// Fills the block of write `seq` with what that write puts there (fio's manual, Verification): the
/// job's pattern in every byte, or a stamp in each sector of 512 bytes. The stamp's layout is this
/// project's own: run (8 bytes), server (4), job (4), number of the write (8), block (8) and sector
/// within the block (4), each high byte first, then 476 bytes that count up from the write's
/// number, modulo 256.
///
/// `bytes` is the whole block. No memory is taken.
pub fn fill_block(key: Key, rec: &JobRecord, seq: Seq, block: u32, bytes: &mut [u8])
    requires { length bytes.old ≡ rec.now.bs }
    ensures bytes { bytes.new ≡ written_bytes key rec.now seq block }
    ensures of_write { block ≡ block_of rec.now seq → bytes.new ≡ bytes_of key rec.now seq }
{
    match rec.verify() {
        Verify::Pattern => bytes.fill(rec.pattern()),
        Verify::Stamp => fill_stamps(&stamp(key, seq, block), rec.bs() / 512, bytes),
    }
}

/// The stamp of a write in the first sector of its block.
pub(crate) fn stamp(key: Key, seq: Seq, block: u32) -> [u8; SECTOR]
    ensures { result ≡ stamped_sector key seq block 0 }
{
    let mut sector = [0; SECTOR];
    let at = put(&mut sector, 0, &key.run.0.to_be_bytes());
    let at = put(&mut sector, at, &key.server.0.to_be_bytes());
    let at = put(&mut sector, at, &key.job.0.to_be_bytes());
    let at = put(&mut sector, at, &seq.0.to_be_bytes());
    let at = put(&mut sector, at, &u64::from(block).to_be_bytes());
    let at = put(&mut sector, at, &0u32.to_be_bytes());
    count_up(&mut sector[at..], seq.0);
    sector
}

/// Puts a field at an offset, and gives the offset behind it, where the next one goes.
fn put(sector: &mut [u8], at: usize, field: &[u8]) -> usize
    requires { at + length field.now ≤ length sector.old }
    ensures next { result ≡ at + length field.now }
    ensures front { take result sector.new ≡ take at sector.old ++ field.now }
{
    let next = at + field.len();
    sector[at..next].copy_from_slice(field);
    next
}

/// Fills bytes that count up from a number.
fn count_up(bytes: &mut [u8], from: u64)
    ensures { bytes.new ≡ counting_bytes from (length bytes.old) }
{
    let mut next = (from % 256) as u8;
    for byte in bytes.iter_mut() {
        *byte = next;
        next = next.wrapping_add(1);
    }
}

/// Copies the stamp into each sector, and puts the sector's number there.
fn fill_stamps(stamp: &[u8; SECTOR], sectors: u32, bytes: &mut [u8])
    requires { length bytes.old ≡ sectors * SECTOR }
    ensures { bytes.new ≡ flat_map (with_number stamp.now) (range_with_len 0 sectors) }
{
    for number in 0..sectors {
        let at = number as usize * SECTOR;
        fill_sector(stamp, number, &mut bytes[at..at + SECTOR]);
    }
}

/// Copies the stamp into one sector, and puts the sector's number behind the other fields.
pub(crate) fn fill_sector(stamp: &[u8; SECTOR], number: u32, sector: &mut [u8])
    requires { length sector.old ≡ SECTOR }
    ensures { sector.new ≡ with_number stamp.now number }
{
    sector.copy_from_slice(stamp);
    sector[32..36].copy_from_slice(&number.to_be_bytes());
}
