//! Whether a block holds the bytes of a write.

ghost use Rattle.std.specs.Prelude.{◌≡◌, ◌+◌, ◌*◌, ◌≤◌, length, take, drop, replicate};
ghost use Rattle.std.specs.List.{range_with_len, flat_map};
ghost use Rattle.std.specs.Str.{bytes_eq};
ghost use Rattle.write_order.specs.Stamps.{written_bytes};
ghost use Rattle.write_order.specs.Filling.{with_number};

use crate::stamp::{SECTOR, fill_sector, stamp};
use fc_base::{JobRecord, Key, Seq, Verify};

/// Whether these bytes are what write `seq` puts into this block, as
/// [`fill_block`](crate::fill_block) fills it. It compares sector by sector and stops at the first
/// that differs; no block is made, and no memory is taken.
///
/// `bytes` is the whole block.
pub fn holds_write(key: &Key, rec: &JobRecord, seq: Seq, block: u32, bytes: &[u8]) -> bool
    requires { length bytes.now ≡ rec.now.bs }
    ensures { result ≡ bytes_eq bytes.now (written_bytes key.now rec.now seq block) }
{
    let sectors = rec.bs() / 512;
    match rec.verify() {
        Verify::Pattern => holds_pattern(rec.pattern(), sectors, bytes),
        Verify::Stamp => holds_stamps(&stamp(*key, seq, block), sectors, bytes),
    }
}

/// Whether each byte is the pattern.
fn holds_pattern(pattern: u8, sectors: u32, bytes: &[u8]) -> bool
    requires { length bytes.now ≡ sectors * SECTOR }
    ensures { result ≡ bytes_eq bytes.now (replicate (length bytes.now) pattern) }
{
    let sector = [pattern; SECTOR];
    for number in 0..sectors {
        if !has_sector(bytes, number, &sector) {
            return false;
        }
    }
    true
}

/// Whether each sector is the stamp with the sector's number.
fn holds_stamps(stamp: &[u8; SECTOR], sectors: u32, bytes: &[u8]) -> bool
    requires { length bytes.now ≡ sectors * SECTOR }
    ensures { result ≡ bytes_eq bytes.now
        (flat_map (with_number stamp.now) (range_with_len 0 sectors)) }
{
    let mut sector = [0; SECTOR];
    for number in 0..sectors {
        fill_sector(stamp, number, &mut sector);
        if !has_sector(bytes, number, &sector) {
            return false;
        }
    }
    true
}

/// Whether the sector of this number is that one.
fn has_sector(bytes: &[u8], number: u32, sector: &[u8; SECTOR]) -> bool
    requires { (number + 1) * SECTOR ≤ length bytes.now }
    ensures { result ≡ bytes_eq (take SECTOR (drop (number * SECTOR) bytes.now)) sector.now }
{
    let at = number as usize * SECTOR;
    &bytes[at..at + SECTOR] == sector.as_slice()
}
