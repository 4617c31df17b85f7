//! Many runs of one job, one a tile, of which some are open at once.

ghost use Rattle.std.specs.Prelude.{◌≡◌, ◌<◌, ◌+◌, ◌^◌, List, IfOk, IfSome};
ghost use Rattle.std.specs.Io.Buffered.{reader_remaining};
ghost use Rattle.targets.specs.declared.tour_word.TourWord.{TourWord};
ghost use Rattle.targets.specs.Tours.{Piece, Tours};
ghost use Rattle.targets.specs.Touring.{end_by, ReadsWord, Stands, Steps};

use crate::tile::Tour;
use crate::tour_word::{TourWord, WORD, word_in};
use crate::writing::MAX_READS;
use fc_base::{Fault, JobNo, JobRecord, MAX_JOBS};
use program_io::fill;
use std::alloc::Global;
use std::io;
use std::io::{BufReader, Read, Write};

/// How a tour ends.
#[derive(Clone, Copy, Debug, PartialEq, Eq)]
pub enum TourEnd {
    /// The input has ended, and no tile is open.
    Over,
    /// The tour isn't whole, for this fault.
    Refused(Fault),
}

/// Writes a job once for each tile that is begun, as [`write_blocks`](crate::write_blocks) does for one run: by
/// orders, and by what is told of the writes of each tile. Up to [`MAX_OPEN`](crate::MAX_OPEN) tiles are open at once,
/// and each tile's orders and state are those of its own notices. A tile whose state is taken is closed.
///
/// Refused are: 24 bytes that are no word, and a tile that isn't the next one or is begun as run 0
/// ([`Fault::BadNotice`]); a tile beyond those that may be open ([`Fault::Busy`]); a word of a tile that isn't open, or
/// that ends a write which isn't ([`Fault::NotInFlight`]); the end of the input within a word, or while a tile is open
/// ([`Fault::EndOfInput`]), a failed read ([`Fault::ReadError`]), want of memory before the first word, for a tile or
/// for the bytes of a state ([`Fault::NoMemory`]), and the last number that a tile could have
/// ([`Fault::NumbersSpent`]). The orders and states up to then are written. An error is that of a write.
pub fn tour_blocks<R: Read, W: Write>(
    alloc: Global,
    number: JobNo,
    rec: &JobRecord,
    reader: &mut BufReader<R>,
    writer: &mut W,
) -> io::Result<TourEnd>
    requires { number < MAX_JOBS }
    ensures { IfSome (reader_remaining R.remaining reader.old) (λ input. IfOk result
        (Tours number rec.now input (W.contents writer.old) (W.contents writer.new))) }
{
    let Ok(mut tour) = Tour::new(alloc, number, rec) else {
        return Ok(TourEnd::Refused(Fault::NoMemory));
    };
    for _ in 0..u64::MAX {
        if let Some(end) = step(&mut tour, reader, writer)? {
            return Ok(end);
        }
    }
    Ok(TourEnd::Refused(Fault::NumbersSpent))
}

/// Reads a word, and does what it says. An end of the tour changes nothing.
fn step<R: Read, W: Write>(
    tour: &mut Tour,
    reader: &mut BufReader<R>,
    writer: &mut W,
) -> io::Result<Option<TourEnd>>
    requires { tour.old.next + 1 < 2 ^ 64 }
    ensures { (words : List TourWord) (pieces : List Piece)
        → Stands tour.old.number tour.old.rec tour.old words pieces → IfOk result
        (Steps tour.old.number tour.old.rec words pieces tour.new
        (reader_remaining R.remaining reader.old) (reader_remaining R.remaining reader.new)
        (W.contents writer.old) (W.contents writer.new)) }
{
    if reader.buffer().len() < WORD {
        writer.flush()?;
    }
    match next_word(reader) {
        Ok(Some(word)) => tour.follow(word, writer),
        Ok(None) => Ok(Some(end_of(tour))),
        Err(fault) => Ok(Some(TourEnd::Refused(fault))),
    }
}

/// How a tour ends whose input does.
fn end_of(tour: &Tour) -> TourEnd
    ensures { result ≡ end_by tour.now.tiles.items }
{
    if tour.tiles.is_empty() {
        TourEnd::Over
    } else {
        TourEnd::Refused(Fault::EndOfInput)
    }
}

/// Reads the next word. `None` where the input has ended.
fn next_word<R: Read>(reader: &mut R) -> Result<Option<TourWord>, Fault>
    ensures { ReadsWord (R.remaining reader.old) (R.remaining reader.new) result }
{
    let mut bytes = [0; WORD];
    match fill(reader, &mut bytes, MAX_READS) {
        Ok(WORD) => match word_in(&bytes) {
            Some(word) => Ok(Some(word)),
            None => Err(Fault::BadNotice),
        },
        Ok(0) => Ok(None),
        Ok(_) => Err(Fault::EndOfInput),
        Err(_) => Err(Fault::ReadError),
    }
}
