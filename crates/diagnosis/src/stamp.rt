//! The stamp that stands in a sector.

ghost use Rattle.std.specs.Prelude.{◌≡◌, ◌+◌, ◌≤◌, IfSome, Some, None, length, if◌then◌else◌};
ghost use Rattle.std.specs.Int.{w32, w64};
ghost use Rattle.std.specs.Str.{bytes_eq};
ghost use Rattle.verify_state.specs.Reading.{field};
ghost use Rattle.write_order.specs.Stamps.{counting_bytes};
ghost use Rattle.diagnosis.specs.Pieces.{says_something};
ghost use Rattle.diagnosis.specs.Sectors.{stamp_in, is_stamped, HasRoom};

use crate::limits::can_be;
use fc_base::{JobNo, Key, RunNo, Seq, ServerNo, split_u32, split_u64};
use recheck::Expected;

/// Bytes of a sector.
pub(crate) const SECTOR: usize = 512;

/// A write as a stamp names it: whose it is, which one, and the block that it goes to.
#[derive(Clone, Copy, Debug, PartialEq, Eq)]
pub struct Write {
    pub key: Key,
    pub seq: Seq,
    pub block: u32,
}

/// What a stamped sector says: the write that it is of, and which sector of that write's block it
/// is.
#[derive(Clone, Copy, Debug, PartialEq, Eq)]
pub struct Stamp {
    pub write: Write,
    pub sector: u32,
}

/// What a sector says, or `None` where its bytes are those of no stamp, or of one that can't be.
pub(crate) fn stamp_of(expected: &Expected, sector: &[u8]) -> Option<Stamp>
    requires { length sector.now ≡ SECTOR }
    ensures value { result
        ≡ (if says_something expected.now sector.now then Some (stamp_in sector.now) else None) }
    ensures room { IfSome result (λ stamp. HasRoom stamp.write) }
{
    if !is_stamped(sector) {
        return None;
    }
    let stamp = read_stamp(sector);
    if can_be(expected, &stamp) {
        Some(stamp)
    } else {
        None
    }
}

/// Whether a sector has the bytes of the stamp with the numbers that stand in it. These are what
/// they are, so that the rest is looked at: the high half of the block, and the bytes that count
/// up.
fn is_stamped(sector: &[u8]) -> bool
    requires { length sector.now ≡ SECTOR }
    ensures { result ≡ is_stamped sector.now }
{
    u32_at(sector, 24) == 0 && counts_up(&sector[36..], u64_at(sector, 16))
}

/// The numbers that stand where those of a stamp do.
fn read_stamp(sector: &[u8]) -> Stamp
    requires { length sector.now ≡ SECTOR }
    ensures value { result ≡ stamp_in sector.now }
    ensures room { HasRoom result.write }
{
    let key = Key {
        run: RunNo(u64_at(sector, 0)),
        server: ServerNo(u32_at(sector, 8)),
        job: JobNo(u32_at(sector, 12)),
    };
    let write = Write {
        key,
        seq: Seq(u64_at(sector, 16)),
        block: u32_at(sector, 28),
    };
    Stamp {
        write,
        sector: u32_at(sector, 32),
    }
}

/// Whether each byte is one more than the one before it, modulo 256, and the first is this number.
fn counts_up(bytes: &[u8], from: u64) -> bool
    ensures { result ≡ bytes_eq bytes.now (counting_bytes from (length bytes.now)) }
{
    let mut next = (from % 256) as u8;
    for byte in bytes {
        if *byte != next {
            return false;
        }
        next = next.wrapping_add(1);
    }
    true
}

#[tactic(auto, unfolding(verify_state::specs::Reading::field))]
fn u32_at(bytes: &[u8], at: usize) -> u32
    requires { at + 4 ≤ length bytes.now }
    ensures { result ≡ field w32 at bytes.now }
{
    let (number, _) = split_u32(&bytes[at..]);
    number
}

#[tactic(auto, unfolding(verify_state::specs::Reading::field))]
fn u64_at(bytes: &[u8], at: usize) -> u64
    requires { at + 8 ≤ length bytes.now }
    ensures { result ≡ field w64 at bytes.now }
{
    let (number, _) = split_u64(&bytes[at..]);
    number
}
