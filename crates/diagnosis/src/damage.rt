//! Whether a faulty block is a damaged copy of a write that it may hold.

ghost use Rattle.std.specs.Prelude.{◌≡◌, ◌↔◌, ◌≤◌, ◌==◌, IsTrue, length};
ghost use Rattle.std.specs.List.{list_any};
ghost use Rattle.recheck.specs.Faults.{writes_to};
ghost use Rattle.diagnosis.specs.Damage.{AreInPlace, IsDamaged, IsUnconfirmed, is_in_place, is_near, is_near_expected, is_stamp_in_place, may_have_come};

use crate::difference::{FEW_BITS, compare_write};
use crate::piece::Piece;
use crate::pieces::{block_size, piece_at};
use crate::stamp::{SECTOR, Stamp};
use crate::whole::whole_write;
use fc_base::Seq;
use recheck::Expected;

/// Whether a block is a damaged copy of a write that it may hold: it differs from one in few bits,
/// and neither are its sectors all of writes that may have come to it, nor are several of them all
/// of one.
pub(crate) fn is_damaged(expected: &Expected, block: u32, bytes: &[u8]) -> bool
    requires { length bytes.now ≡ expected.now.job.bs }
    ensures { IsTrue result ↔ IsDamaged expected.now block bytes.now }
{
    is_near_expected(expected, block, bytes)
        && !are_in_place(expected, block, bytes)
        && is_unconfirmed(expected, bytes)
}

/// Whether it has one sector, or isn't the whole of one write.
fn is_unconfirmed(expected: &Expected, bytes: &[u8]) -> bool
    requires { length bytes.now ≡ expected.now.job.bs }
    ensures { IsTrue result ↔ IsUnconfirmed expected.now bytes.now }
{
    bytes.len() == SECTOR || whole_write(expected, bytes).is_none()
}

/// Whether a block differs in few bits from a write that it may hold.
fn is_near_expected(expected: &Expected, block: u32, bytes: &[u8]) -> bool
    requires { length bytes.now ≡ expected.now.job.bs }
    ensures { result ≡ is_near_expected expected.now block bytes.now }
{
    match expected.last_write(block) {
        None => false,
        Some(seq) => {
            is_near(expected, block, bytes, seq) || is_near_in_flight(expected, block, bytes)
        }
    }
}

/// Whether it differs in few bits from a write in flight to it.
fn is_near_in_flight(expected: &Expected, block: u32, bytes: &[u8]) -> bool
    requires { length bytes.now ≡ expected.now.job.bs }
    ensures { result ≡ list_any (is_near expected.now block bytes.now)
        (writes_to block expected.now.in_flight) }
{
    for write in expected.in_flight() {
        if write.block == block && is_near(expected, block, bytes, write.seq) {
            return true;
        }
    }
    false
}

/// Whether it differs in few bits from this write.
fn is_near(expected: &Expected, block: u32, bytes: &[u8], seq: Seq) -> bool
    requires { length bytes.now ≡ expected.now.job.bs }
    ensures { result ≡ is_near expected.now block bytes.now seq }
{
    compare_write(&expected.key(), &expected.rec(), seq, block, bytes).bits <= FEW_BITS
}

/// Whether each of its sectors is the one at its place of a write that may have come to it.
fn are_in_place(expected: &Expected, block: u32, bytes: &[u8]) -> bool
    requires { length bytes.now ≡ expected.now.job.bs }
    ensures { IsTrue result ↔ AreInPlace expected.now block bytes.now }
{
    for number in 0..block_size(expected) / 512 {
        if !is_in_place(expected, block, number, piece_at(expected, bytes, number)) {
            return false;
        }
    }
    true
}

/// Whether a sector that holds this is the one at this place of such a write.
fn is_in_place(expected: &Expected, block: u32, place: u32, piece: Piece) -> bool
    ensures { result ≡ is_in_place expected.now block place piece }
{
    match piece {
        Piece::Stamp(stamp) => is_stamp_in_place(expected, block, place, &stamp),
        _ => false,
    }
}

/// Whether this is its stamp.
fn is_stamp_in_place(expected: &Expected, block: u32, place: u32, stamp: &Stamp) -> bool
    ensures { result ≡ is_stamp_in_place expected.now block place stamp.now }
{
    stamp.write.key == expected.key()
        && (stamp.write.block == block
            && (stamp.sector == place && may_have_come(expected, block, stamp.write.seq)))
}

/// Whether the write may have come to the block, as far as the state knows.
fn may_have_come(expected: &Expected, block: u32, seq: Seq) -> bool
    ensures { result ≡ may_have_come expected.now block seq }
{
    match expected.last_write(block) {
        None => false,
        Some(last) => seq <= last || is_in_flight(expected, block, seq),
    }
}

/// Whether it is in flight to the block.
fn is_in_flight(expected: &Expected, block: u32, seq: Seq) -> bool
    ensures { result ≡ list_any (λ j. j == seq) (writes_to block expected.now.in_flight) }
{
    for write in expected.in_flight() {
        if write.block == block && write.seq == seq {
            return true;
        }
    }
    false
}
