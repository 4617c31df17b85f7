//! What comes together of the pieces that a node takes.

ghost use Rattle.std.specs.Prelude.{◌≡◌, OnOk, OnErr, [], ◌∷◌, ◌++◌};
ghost use Rattle.std.specs.List.{position};
ghost use Rattle.messages.specs.Bodies.{body_at};
ghost use Rattle.messages.specs.Tags.{is_tag};
ghost use Rattle.messages.specs.Assemblies.{filled_of, look_at_piece, of_tag, rows_after_piece, without_tag, newest, IsPieceKept, LookAnswers};

use crate::limits::MAX_TAGS;
use crate::packet::{Packet, PacketParts};
use crate::piece::{Piece, Tag};
use crate::places::{PlaceSet, Places, is_completed, join};
use crate::reading::body_of;
use fc_base::Fault;
use std::alloc::{AllocError, Global};
use std::marker::Model;

/// A tag, and what has come of its body.
#[derive(Drop)]
struct PartialBody {
    tag: Tag,
    places: Places,
}

impl Model for PartialBody {
    ghost use Rattle.messages.specs.Assemblies.{Row};

    ghost Value = { Row };

    ghost view = { λ w. record { tag = w.tag; filled = w.places } };
}

/// The pieces that came and whose bodies aren't whole yet: of at most 128 tags, in order of arrival.
#[derive(Drop)]
pub struct Assembly {
    alloc: Global,
    rows: Vec<PartialBody>,
}

impl Model for Assembly {
    ghost use Rattle.std.specs.Prelude.{List, length, ◌≤◌};
    ghost use Rattle.messages.specs.declared.limits.TheConstants.{MAX_TAGS};
    ghost use Rattle.messages.specs.Assemblies.{Row};

    ghost Value = { List Row };

    ghost view = { λ a. a.rows.items };

    ghost invariant = { λ a. length a.rows.items ≤ MAX_TAGS };
}

impl Assembly {
    /// Nothing yet.
    pub fn new(alloc: Global) -> Assembly
        ensures { result ≡ [] }
    {
        Assembly {
            alloc,
            rows: Vec::new(alloc),
        }
    }

    /// The packet that this piece completes, if it fills the last place of its tag. Nothing changes.
    ///
    /// `FrameBadField` is answered where the bytes are no packet with that tag, `NoMemory` where memory
    /// runs out, which it may only for a piece that fills the last place.
    pub fn look(&self, piece: &Piece) -> Result<Option<Packet>, Fault>
        ensures { LookAnswers result (look_at_piece self.now piece.now) }
    {
        match join(self.alloc, self.filled_of(piece.tag()), piece) {
            Ok(Some(bytes)) => packet_of(self.alloc, piece, &bytes),
            Ok(None) => Ok(None),
            Err(_) => Err(Fault::NoMemory),
        }
    }

    /// Takes a piece: it fills its place, and one that is filled stays as it is. The piece that fills
    /// the last place takes the tag out. A tag beyond 128 drops the oldest. Memory is needed only for
    /// a piece that is kept, and where it runs out nothing changes.
    pub fn take(&mut self, piece: &Piece) -> Result<(), AllocError>
        ensures taken { OnOk result (self.new ≡ rows_after_piece self.old piece.now) }
        ensures same { OnErr result (self.new ≡ self.old) }
        ensures kept { OnErr result (IsPieceKept self.old piece.now) }
    {
        if is_completed(self.filled_of(piece.tag()), piece) {
            self.drop(piece.tag());
            return Ok(());
        }
        let alloc = self.alloc;
        match self.place_of(piece.tag()) {
            Some(place) => self.rows[place].places.fill(alloc, piece),
            None => self.begin(piece),
        }
    }

    /// Forgets a tag.
    pub fn drop(&mut self, tag: Tag)
        ensures { self.new ≡ without_tag tag self.old }
    {
        if let Some(place) = self.place_of(tag) {
            let _ = self.rows.remove(place);
        }
    }

    /// Where the row of a tag stands.
    fn place_of(&self, tag: Tag) -> Option<usize>
        ensures { result ≡ position (λ row. is_tag row.tag tag) self.now }
    {
        self.rows.iter().position(|row| row.tag == tag)
    }

    /// The filled places of a tag.
    fn filled_of(&self, tag: Tag) -> &[PlaceSet]
        ensures { result.now ≡ filled_of tag self.now }
    {
        match self.place_of(tag) {
            Some(place) => self.rows[place].places.as_slice(),
            None => &[],
        }
    }

    /// Begins a row with a piece.
    fn begin(&mut self, piece: &Piece) -> Result<(), AllocError>
        ensures begun { OnOk result
            (self.new ≡ newest (self.old
            ++ record {
              tag = piece.now.tag;
              filled = record { at = piece.now.at; bytes = piece.now.bytes } ∷ [];
            } ∷ [])) }
        ensures same { OnErr result (self.new ≡ self.old) }
    {
        let places = Places::new(self.alloc, piece)?;
        self.rows.push(PartialBody {
            tag: piece.tag(),
            places,
        })?;
        if self.rows.len() > MAX_TAGS {
            let _ = self.rows.remove(0);
        }
        Ok(())
    }
}

/// The packet whose body has these bytes, with the ends and the tag of a piece.
fn packet_of(alloc: Global, piece: &Piece, bytes: &[u8]) -> Result<Option<Packet>, Fault>
    ensures { LookAnswers result (of_tag piece.now (body_at piece.now.tag.whole bytes.now)) }
{
    let tag = piece.tag();
    let body = match body_of(alloc, tag.whole, bytes) {
        Ok(body) => body,
        Err(Fault::FrameNoMemory) => return Err(Fault::NoMemory),
        Err(_) => return Err(Fault::FrameBadField),
    };
    if body.tag(tag.length) != tag {
        return Err(Fault::FrameBadField);
    }
    piece.keeps_its_ranges();
    Ok(Some(Packet::new(PacketParts {
        from: piece.from(),
        to: piece.to(),
        body,
    })))
}
