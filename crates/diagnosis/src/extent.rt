//! Sectors that go together.

ghost use Rattle.std.specs.Prelude.{◌≡◌, ◌⊎◌, ◌↔◌, ℕ, IsTrue, ◌+◌, ◌*◌, ◌≤◌, ◌<◌, length};
ghost use Rattle.diagnosis.specs.Extents.{IsExtent, GoesOn, GoesWith};

use crate::piece::Piece;
use crate::pieces::piece_at;
use crate::stamp::SECTOR;
use recheck::Expected;

/// Sectors one after another that go together: zeros, the pattern, sectors of one write in their
/// order, or sectors of which nothing is known.
#[derive(Clone, Copy, Debug, PartialEq, Eq)]
pub struct Extent {
    /// What the first of them holds.
    pub piece: Piece,
    /// The first of them.
    pub from: u32,
    /// The one behind the last.
    pub end: u32,
}

/// The sectors from this one on that go together with it, of the first so many of a block: as many
/// as there are. Beginning at 0, and each time at the end of the last, a block is told from its
/// first sector to its last.
pub fn extent_at(expected: &Expected, bytes: &[u8], from: u32, sectors: u32) -> Extent
    requires there { from < sectors }
    requires bytes { sectors * SECTOR ≤ length bytes.now }
    ensures { IsExtent expected.now bytes.now from sectors result }
{
    let end = end_of_extent(expected, bytes, from, sectors);
    Extent {
        piece: piece_at(expected, bytes, from),
        from,
        end,
    }
}

/// The first sector behind this one that doesn't go together with it, or how many there are.
fn end_of_extent(expected: &Expected, bytes: &[u8], from: u32, sectors: u32) -> u32
    requires there { from < sectors }
    requires bytes { sectors * SECTOR ≤ length bytes.now }
    ensures some { from < result }
    ensures within { result ≤ sectors }
    ensures together { (number : ℕ) → from < number → number < result
        → GoesWith expected.now bytes.now from number }
    ensures all { (result ≡ sectors) ⊎ (GoesWith expected.now bytes.now from result → ⊥) }
{
    for end in from + 1..sectors {
        if !goes_with(expected, bytes, from, end) {
            return end;
        }
    }
    sectors
}

/// Whether a sector goes together with an earlier one.
fn goes_with(expected: &Expected, bytes: &[u8], from: u32, number: u32) -> bool
    requires order { from < number }
    requires bytes { (number + 1) * SECTOR ≤ length bytes.now }
    ensures { IsTrue result ↔ GoesWith expected.now bytes.now from number }
{
    let first = piece_at(expected, bytes, from);
    goes_on(first, number - from, piece_at(expected, bytes, number))
}

/// Whether this piece, so many sectors behind that one, goes together with it.
fn goes_on(first: Piece, behind: u32, piece: Piece) -> bool
    ensures { IsTrue result ↔ GoesOn first behind piece }
{
    match (first, piece) {
        (Piece::Zeros, Piece::Zeros) => true,
        (Piece::Pattern, Piece::Pattern) => true,
        (Piece::Unknown, Piece::Unknown) => true,
        (Piece::Stamp(first), Piece::Stamp(stamp)) => {
            stamp.write == first.write
                && u64::from(stamp.sector) == u64::from(first.sector) + u64::from(behind)
        }
        _ => false,
    }
}
