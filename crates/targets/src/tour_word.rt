//! The words of a tour.

ghost use Rattle.std.specs.Prelude.{◌≡◌, length};
ghost use Rattle.targets.specs.TourWords.{IsWordIn, word_of};

use crate::notice::{Notice, notice_of};
use fc_base::{RunNo, split_u64};

/// How many bytes a word has.
pub(crate) const WORD: usize = 24;

/// The number that says that a tile is begun.
const BEGIN: u64 = 4;

/// What a tour is told.
#[derive(Clone, Copy, Debug, PartialEq, Eq)]
pub enum TourWord {
    /// A tile of this number is begun, as this run.
    Begin { tile: u64, run: RunNo },
    /// This is told of the writes of a tile; or its state is to be taken, and the tile is closed then.
    Told { tile: u64, notice: Notice },
}

/// The word that these 24 bytes are: 1, 2, 3 or 4 in eight bytes, the number of a tile in eight, and in eight that of
/// a write, or of the run where the tile is begun. A take has 0 for a write. `None` where they are no word.
pub(crate) fn word_in(bytes: &[u8]) -> Option<TourWord>
    requires { length bytes.now ≡ WORD }
    ensures { IsWordIn bytes.now result }
{
    let (kind, rest) = split_u64(bytes);
    let (tile, rest) = split_u64(rest);
    let (number, _) = split_u64(rest);
    word_of(kind, tile, number)
}

/// The word of these three numbers.
fn word_of(kind: u64, tile: u64, number: u64) -> Option<TourWord>
    ensures { result ≡ word_of kind tile number }
{
    if kind == BEGIN {
        return Some(TourWord::Begin {
            tile,
            run: RunNo(number),
        });
    }
    match notice_of(kind, number) {
        Some(notice) => Some(TourWord::Told { tile, notice }),
        None => None,
    }
}
