//! What a word of a tour does to its tiles.

ghost use Rattle.std.specs.Prelude.{◌≡◌, ◌<◌, ◌+◌, ◌^◌, ◌==◌, [], length, not, filter, slice_index_or, List, Some, IfOk, vec_capacity};
ghost use Rattle.std.specs.List.{position};
ghost use Rattle.std.specs.Int.{w64};
ghost use Rattle.fc_base.specs.Layouts.{bytes_of};
ghost use Rattle.engine.specs.History.{Event};
ghost use Rattle.engine.specs.Running.{StandsFor};
ghost use Rattle.targets.specs.declared.notice.Notice.{Notice};
ghost use Rattle.targets.specs.declared.tour_word.TourWord.{TourWord};
ghost use Rattle.targets.specs.TourWords.{Fits};
ghost use Rattle.targets.specs.Tours.{Piece};
ghost use Rattle.targets.specs.Writing.{FollowsBy};
ghost use Rattle.targets.specs.Touring.{Does, EndsTile, HasState, HearsAt, Stands, StandsBut};

use crate::job_setup::key_of;
use crate::notice::Notice;
use crate::tile::{MAX_OPEN, Tile, Tour};
use crate::tour::TourEnd;
use crate::tour_word::TourWord;
use crate::writing::{RunEnd, Writes};
use fc_base::{Fault, JobNo, JobRecord, MAX_JOBS, RunNo};
use std::alloc::{AllocError, Global};
use std::io;
use std::io::Write;
use verify_state::VerifyState;

/// How many bytes a state has.
const STATE: usize = 136;

impl Tile {
    /// Does what a notice says of the writes, and orders those that can be ordered then, as those of this tile.
    fn hear<W: Write>(&mut self, notice: Notice, writer: &mut W) -> io::Result<Option<RunEnd>>
        ensures step { (h : List Event) → StandsFor self.old.writes.engine h → IfOk result
            (FollowsBy (bytes_of w64 self.old.number) notice h self.old.writes.engine
            self.new.writes.engine (W.contents writer.old) (W.contents writer.new)) }
        ensures number { self.new.number ≡ self.old.number }
    {
        let head = self.number.to_be_bytes();
        self.writes.follow(notice, writer, &head)
    }
}

impl Tour {
    /// The tiles of a tour before the first one, with room for as many as may be open.
    pub(crate) fn new(alloc: Global, number: JobNo, rec: &JobRecord) -> Result<Tour, AllocError>
        requires { number < MAX_JOBS }
        ensures { IfOk result (λ tour. Stands number rec.now tour [] []) }
    {
        Ok(Tour {
            alloc,
            number,
            rec: *rec,
            tiles: Vec::with_capacity(alloc, MAX_OPEN)?,
            next: 0,
            bytes: Vec::with_capacity(alloc, STATE)?,
        })
    }

    /// Does what a word says. An end of the tour changes nothing.
    pub(crate) fn follow<W: Write>(
        &mut self,
        word: TourWord,
        writer: &mut W,
    ) -> io::Result<Option<TourEnd>>
        requires { self.old.next + 1 < 2 ^ 64 }
        ensures { (words : List TourWord) (pieces : List Piece) → Fits word
            → Stands self.old.number self.old.rec self.old words pieces → IfOk result
            (Does self.old.number self.old.rec word words pieces self.new
            (W.contents writer.old) (W.contents writer.new)) }
    {
        match word {
            TourWord::Begin { tile, run } => self.begin(tile, run, writer),
            TourWord::Told { tile, notice } => self.tell(tile, notice, writer),
        }
    }

    /// Begins a tile as this run, and orders its first writes.
    fn begin<W: Write>(
        &mut self,
        tile: u64,
        run: RunNo,
        writer: &mut W,
    ) -> io::Result<Option<TourEnd>>
        requires { self.old.next + 1 < 2 ^ 64 }
        ensures { (words : List TourWord) (pieces : List Piece) → run < 2 ^ 64
            → Stands self.old.number self.old.rec self.old words pieces → IfOk result
            (Does self.old.number self.old.rec (TourWord.Begin tile run) words pieces self.new
            (W.contents writer.old) (W.contents writer.new)) }
    {
        if tile != self.next || run.0 == 0 {
            return Ok(Some(TourEnd::Refused(Fault::BadNotice)));
        }
        if self.tiles.len() >= MAX_OPEN {
            return Ok(Some(TourEnd::Refused(Fault::Busy)));
        }
        let key = key_of(run, self.number);
        let Ok(mut writes) = Writes::new(self.alloc, key, &self.rec) else {
            return Ok(Some(TourEnd::Refused(Fault::NoMemory)));
        };
        writes.order_all(writer, &tile.to_be_bytes())?;
        self.tiles.push_reserved(Tile {
            number: tile,
            writes,
        });
        self.next += 1;
        Ok(None)
    }

    /// Does what is told of a tile.
    fn tell<W: Write>(
        &mut self,
        tile: u64,
        notice: Notice,
        writer: &mut W,
    ) -> io::Result<Option<TourEnd>>
        ensures { (words : List TourWord) (pieces : List Piece)
            → Stands self.old.number self.old.rec self.old words pieces → IfOk result
            (Does self.old.number self.old.rec (TourWord.Told tile notice) words pieces self.new
            (W.contents writer.old) (W.contents writer.new)) }
    {
        match place_of(&self.tiles, tile) {
            Some(place) => self.tell_at(place, tile, notice, writer),
            None => Ok(Some(TourEnd::Refused(Fault::NotInFlight))),
        }
    }

    /// Does what is told of the tile at this place.
    fn tell_at<W: Write>(
        &mut self,
        place: usize,
        tile: u64,
        notice: Notice,
        writer: &mut W,
    ) -> io::Result<Option<TourEnd>>
        requires { place < length self.old.tiles.items }
        ensures { (words : List TourWord) (pieces : List Piece)
            → Stands self.old.number self.old.rec self.old words pieces
            → ((d : Tile) → (slice_index_or self.old.tiles.items place d).number ≡ tile)
            → IfOk result
            (Does self.old.number self.old.rec (TourWord.Told tile notice) words pieces self.new
            (W.contents writer.old) (W.contents writer.new)) }
    {
        match hear_at(&mut self.tiles, place, notice, writer)? {
            None => Ok(None),
            Some(end) => self.end_tile(tile, end, writer),
        }
    }

    /// Does what the end of a tile asks for: its state is written, or the tour is refused.
    fn end_tile<W: Write>(
        &mut self,
        tile: u64,
        end: RunEnd,
        writer: &mut W,
    ) -> io::Result<Option<TourEnd>>
        ensures { (notice : Notice) (words : List TourWord) (pieces : List Piece)
            → StandsBut tile self.old.number self.old.rec self.old words pieces
            → EndsTile self.old.number self.old.rec words pieces tile notice end → IfOk result
            (Does self.old.number self.old.rec (TourWord.Told tile notice) words pieces self.new
            (W.contents writer.old) (W.contents writer.new)) }
    {
        match end {
            RunEnd::Taken(state) => self.close(tile, &state, writer),
            RunEnd::Refused(fault) => Ok(Some(TourEnd::Refused(fault))),
        }
    }

    /// Writes the state of a tile, and lets the tile go.
    fn close<W: Write>(
        &mut self,
        tile: u64,
        state: &VerifyState,
        writer: &mut W,
    ) -> io::Result<Option<TourEnd>>
        ensures { (words : List TourWord) (pieces : List Piece)
            → StandsBut tile self.old.number self.old.rec self.old words pieces
            → HasState self.old.number self.old.rec words pieces tile state.now → IfOk result
            (Does self.old.number self.old.rec (TourWord.Told tile Notice.Take) words pieces self.new
            (W.contents writer.old) (W.contents writer.new)) }
    {
        self.bytes.clear();
        if state.push_to(&mut self.bytes).is_err() {
            return Ok(Some(TourEnd::Refused(Fault::NoMemory)));
        }
        writer.write_all(&self.bytes)?;
        writer.write_all(&tile.to_be_bytes())?;
        let_go(&mut self.tiles, tile);
        Ok(None)
    }
}

/// Does what a notice says of the tile at this place.
fn hear_at<W: Write>(
    tiles: &mut [Tile],
    place: usize,
    notice: Notice,
    writer: &mut W,
) -> io::Result<Option<RunEnd>>
    requires { place < length tiles.old }
    ensures { IfOk result (HearsAt place notice tiles.old tiles.new (W.contents writer.old) (W.contents writer.new)) }
{
    tiles[place].hear(notice, writer)
}

/// Where the tile of this number stands among the open ones.
fn place_of(tiles: &[Tile], number: u64) -> Option<usize>
    ensures { result ≡ position (λ tile. tile.number == number) tiles.now }
{
    tiles.iter().position(|tile| tile.number == number)
}

/// Lets the tile of this number go.
fn let_go(tiles: &mut Vec<Tile>, number: u64)
    ensures items { tiles.new.items ≡ filter (λ tile. not (tile.number == number)) tiles.old.items }
    ensures room { vec_capacity tiles.new ≡ vec_capacity tiles.old }
{
    tiles.retain(|tile| tile.number != number);
}
