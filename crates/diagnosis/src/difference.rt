//! How the bytes of a block differ from those of a write.

ghost use Rattle.std.specs.Prelude.{◌≡◌, ◌+◌, ◌*◌, ◌≤◌, ◌<◌, ℕ, List, length, nat_le, take, drop};
ghost use Rattle.write_order.specs.Stamps.{written_bytes};
ghost use Rattle.diagnosis.specs.Differences.{difference_at, difference_of, differing_below};
ghost use Rattle.diagnosis.specs.Steps.{first_or, one_sector, with_byte};

use crate::stamp::SECTOR;
use fc_base::{JobParts, JobRecord, Key, MAX_BLOCK_SIZE, Seq, Verify};
use write_order::fill_block;

/// So many bytes that differ are few: a block that differs from a write in no more of them was most
/// likely written by it. Two stamps of one sector differ in more, unless they have the same number
/// modulo 256. The bound is this project's own, and no definition rests on it.
pub const FEW_BYTES: u32 = 16;

/// So many bits that differ are few: a faulty block that differs in no more of them from a write
/// that it may hold is told as a damaged copy of that write, as `specs/Damage.antt` says when. The
/// bound is this project's own.
pub const FEW_BITS: u32 = 16;

/// How the bytes of a block differ from those of a write.
#[derive(Clone, Copy, Debug, PartialEq, Eq)]
pub struct Difference {
    /// How many bytes differ.
    pub bytes: u32,
    /// How many bits differ in these.
    pub bits: u32,
    /// The first byte that differs, counted from 0 in the block.
    pub first: Option<u32>,
}

impl Difference {
    /// Whether at most [`FEW_BYTES`] differ.
    pub fn is_small(&self) -> bool
        ensures { result ≡ nat_le self.now.bytes FEW_BYTES }
    {
        self.bytes <= FEW_BYTES
    }
}

/// How the bytes of a block differ from what write `seq` puts into it. `bytes` is the whole block,
/// and no memory is taken.
pub fn compare_write(key: &Key, rec: &JobRecord, seq: Seq, block: u32, bytes: &[u8]) -> Difference
    requires { length bytes.now ≡ rec.now.bs }
    ensures { result ≡ difference_of bytes.now (written_bytes key.now rec.now seq block) }
{
    let mut found = Difference {
        bytes: 0,
        bits: 0,
        first: None,
    };
    let mut sector = [0; SECTOR];
    for number in 0..rec.bs() / 512 {
        fill_sector(key, rec, seq, block, number, &mut sector);
        found = with_sector(found, bytes, number, &sector);
    }
    found
}

/// The difference with that of one more sector, which should be this one.
fn with_sector(found: Difference, bytes: &[u8], number: u32, sector: &[u8; SECTOR]) -> Difference
    requires within { (number + 1) * SECTOR ≤ length bytes.now }
    requires size { length bytes.now ≤ MAX_BLOCK_SIZE }
    requires few { found.bytes ≤ number * SECTOR }
    requires bits { found.bits ≤ 8 * (number * SECTOR) }
    ensures value { (others : List ℕ) → take SECTOR (drop (number * SECTOR) others) ≡ sector.now
        → found
        ≡ difference_at bytes.now others (differing_below bytes.now others (number * SECTOR))
        → result ≡ difference_at bytes.now others
        (differing_below bytes.now others ((number + 1) * SECTOR)) }
    ensures few { result.bytes ≤ (number + 1) * SECTOR }
    ensures bits { result.bits ≤ 8 * ((number + 1) * SECTOR) }
{
    let mut sum = found;
    for i in 0..SECTOR {
        let at = number as usize * SECTOR + i;
        sum = with_byte(sum, at as u32, bytes[at], sector[i]);
    }
    sum
}

/// The difference with one more byte, which should be that one.
fn with_byte(found: Difference, at: u32, byte: u8, other: u8) -> Difference
    requires range { at < MAX_BLOCK_SIZE }
    requires few { found.bytes ≤ at }
    requires bits { found.bits ≤ 8 * at }
    ensures value { result ≡ with_byte found at byte other }
    ensures few { result.bytes ≤ at + 1 }
    ensures bits { result.bits ≤ 8 * (at + 1) }
{
    if byte == other {
        return found;
    }
    Difference {
        bytes: found.bytes + 1,
        bits: found.bits + (byte ^ other).count_ones(),
        first: first_or(found.first, at),
    }
}

/// The first place, or this one where there is none.
fn first_or(first: Option<u32>, at: u32) -> Option<u32>
    ensures { result ≡ first_or first at }
{
    match first {
        Some(place) => Some(place),
        None => Some(at),
    }
}

/// Fills one sector with what the write puts there.
fn fill_sector(
    key: &Key,
    rec: &JobRecord,
    seq: Seq,
    block: u32,
    number: u32,
    sector: &mut [u8; SECTOR],
)
    requires { (number + 1) * SECTOR ≤ rec.now.bs }
    ensures { sector.new
        ≡ take SECTOR (drop (number * SECTOR) (written_bytes key.now rec.now seq block)) }
{
    fill_block(*key, &one_sector(rec), seq, block, sector);
    match rec.verify() {
        Verify::Pattern => {}
        Verify::Stamp => sector[32..36].copy_from_slice(&number.to_be_bytes()),
    }
}

/// The job with blocks of one sector: the bytes of a write's first sector are those of its block
/// there.
fn one_sector(rec: &JobRecord) -> JobRecord
    ensures { result ≡ one_sector rec.now }
{
    let parts = JobParts {
        bs: 512,
        ..rec.parts()
    };
    match JobRecord::make(parts) {
        Some(rec) => rec,
        None => unreachable!(),
    }
}
