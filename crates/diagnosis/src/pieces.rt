//! What the sectors of a block hold.

ghost use Rattle.std.specs.Prelude.{◌≡◌, ◌+◌, ◌*◌, ◌/◌, ◌%◌, ◌≤◌, ◌<◌, ◌==◌, length};
ghost use Rattle.std.specs.List.{list_all};
ghost use Rattle.diagnosis.specs.Pieces.{piece_of, piece_at, is_unknown, unknown_below};

use crate::piece::Piece;
use crate::stamp::{SECTOR, stamp_of};
use fc_base::{MAX_BLOCK_SIZE, Verify};
use recheck::Expected;

/// How many bytes a block has.
pub(crate) fn block_size(expected: &Expected) -> u32
    ensures value { result ≡ expected.now.job.bs }
    ensures range { (512 ≤ result) × (result ≤ MAX_BLOCK_SIZE) × (result % 512 ≡ 0) }
{
    expected.rec().bs()
}

/// What the sector of this number holds, in a block of the job that is checked.
#[tactic(auto, unfolding(crate::specs::Pieces::piece_at))]
pub fn piece_at(expected: &Expected, bytes: &[u8], number: u32) -> Piece
    requires { (number + 1) * SECTOR ≤ length bytes.now }
    ensures { result ≡ piece_at expected.now bytes.now number }
{
    let at = number as usize * SECTOR;
    piece_of(expected, &bytes[at..at + SECTOR])
}

/// What a sector holds.
fn piece_of(expected: &Expected, sector: &[u8]) -> Piece
    requires { length sector.now ≡ SECTOR }
    ensures { result ≡ piece_of expected.now sector.now }
{
    if is_all(sector, 0) {
        return Piece::Zeros;
    }
    let rec = expected.rec();
    match rec.verify() {
        Verify::Pattern if is_all(sector, rec.pattern()) => Piece::Pattern,
        Verify::Pattern => Piece::Unknown,
        Verify::Stamp => match stamp_of(expected, sector) {
            Some(stamp) => Piece::Stamp(stamp),
            None => Piece::Unknown,
        },
    }
}

/// How many of the first so many sectors hold nothing that is known.
pub(crate) fn count_unknown(expected: &Expected, bytes: &[u8], sectors: u32) -> u32
    requires { sectors * SECTOR ≤ length bytes.now }
    ensures value { result ≡ unknown_below expected.now bytes.now sectors }
{
    let mut count = 0;
    for number in 0..sectors {
        if is_unknown(piece_at(expected, bytes, number)) {
            count += 1;
        }
    }
    count
}

fn is_unknown(piece: Piece) -> bool
    ensures { result ≡ is_unknown piece }
{
    match piece {
        Piece::Unknown => true,
        _ => false,
    }
}

/// Whether each byte is this one.
pub(crate) fn is_all(bytes: &[u8], byte: u8) -> bool
    ensures { result ≡ list_all (λ b. b == byte) bytes.now }
{
    bytes.iter().all(|b| *b == byte)
}
