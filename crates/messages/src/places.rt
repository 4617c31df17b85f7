//! What has come of one body.

ghost use Rattle.std.specs.Prelude.{◌≡◌, ◌∷◌, [], None, Some, IfOk, OnOk, OnErr, MatchOption, is_some, true};
ghost use Rattle.messages.specs.Pieces.{places};
ghost use Rattle.messages.specs.Assemblies.{filled_at, fill, joined_bytes};

use crate::chunk::Chunk;
use crate::limits::CHUNK_LIMIT;
use crate::piece::Piece;
use std::alloc::{AllocError, Global};
use std::marker::Model;

/// A place, and the bytes that it is filled with.
#[derive(Drop)]
pub struct PlaceSet {
    pub at: u32,
    pub bytes: Chunk,
}

/// The places of one body that are filled, in order of arrival.
pub struct Places {
    filled: Vec<PlaceSet>,
}

/// By hand, so that the crates above need no proof of it.
impl Drop for Places {
    fn drop(self) {
        let Places { filled: _ } = self;
    }
}

impl Model for Places {
    ghost use Rattle.std.specs.Prelude.{List};
    ghost use Rattle.messages.specs.declared.places.PlaceSet.{PlaceSet};

    ghost Value = { List PlaceSet };

    ghost view = { λ p. p.filled.items };
}

/// What a piece fills its place with.
fn filling(alloc: Global, piece: &Piece) -> Result<PlaceSet, AllocError>
    ensures { IfOk result
        (λ filled. filled ≡ record { at = piece.now.at; bytes = piece.now.bytes }) }
{
    Ok(PlaceSet {
        at: piece.at(),
        bytes: Chunk::copied(alloc, piece.bytes())?,
    })
}

impl Places {
    /// The place of this piece alone.
    pub(crate) fn new(alloc: Global, piece: &Piece) -> Result<Places, AllocError>
        ensures { IfOk result
            (λ places. places ≡ record { at = piece.now.at; bytes = piece.now.bytes } ∷ []) }
    {
        let filled = filling(alloc, piece)?;
        Ok(Places {
            filled: vec![in alloc; filled]?,
        })
    }

    /// The filled places.
    pub(crate) fn as_slice(&self) -> &[PlaceSet]
        ensures { result.now ≡ self.now }
    {
        &self.filled
    }

    /// Fills the place of a piece, unless it is filled. Where memory runs out nothing changes.
    pub(crate) fn fill(&mut self, alloc: Global, piece: &Piece) -> Result<(), AllocError>
        ensures filled { OnOk result (self.new ≡ fill piece.now self.old) }
        ensures same { OnErr result (self.new ≡ self.old) }
        ensures empty { OnErr result (filled_at self.old piece.now.at ≡ None) }
    {
        if bytes_at(&self.filled, piece.at()).is_some() {
            return Ok(());
        }
        let filled = filling(alloc, piece)?;
        self.filled.push(filled)?;
        Ok(())
    }
}

/// The bytes at a place, where it is filled.
fn bytes_at(filled: &[PlaceSet], at: u32) -> Option<&[u8]>
    ensures { MatchOption result (filled_at filled.now at ≡ None)
        (λ bytes. filled_at filled.now at ≡ Some bytes.now) }
{
    for filled in filled {
        if filled.at == at {
            return Some(filled.bytes.as_slice());
        }
    }
    None
}

/// The bytes at a place, once a piece is there too.
fn bytes_with<'a>(filled: &'a [PlaceSet], piece: &'a Piece, at: u32) -> Option<&'a [u8]>
    ensures { MatchOption result (filled_at (fill piece.now filled.now) at ≡ None)
        (λ bytes. filled_at (fill piece.now filled.now) at ≡ Some bytes.now) }
{
    match bytes_at(filled, at) {
        Some(bytes) => Some(bytes),
        None if piece.at() == at => Some(piece.bytes()),
        None => None,
    }
}

/// Whether a piece fills the last place.
pub(crate) fn is_completed(filled: &[PlaceSet], piece: &Piece) -> bool
    ensures { result
        ≡ is_some (joined_bytes (fill piece.now filled.now) (places piece.now.tag.length)) }
{
    let length = piece.length();
    let mut at = 0;
    while at < length {
        let Some(_) = bytes_with(filled, piece, at) else {
            return false;
        };
        at += CHUNK_LIMIT as u32;
    }
    true
}

/// The whole body, where a piece fills the last place.
pub(crate) fn join(
    alloc: Global,
    filled: &[PlaceSet],
    piece: &Piece,
) -> Result<Option<Vec<u8>>, AllocError>
    ensures bytes { IfOk result
        (λ o. MatchOption o (joined_bytes (fill piece.now filled.now) (places piece.now.tag.length)
        ≡ None) (λ bytes. joined_bytes (fill piece.now filled.now) (places piece.now.tag.length)
        ≡ Some bytes.items)) }
    ensures complete { OnErr result
        (is_some (joined_bytes (fill piece.now filled.now) (places piece.now.tag.length)) ≡ true) }
{
    if !is_completed(filled, piece) {
        return Ok(None);
    }
    let length = piece.length();
    let mut bytes = Vec::with_capacity(alloc, length as usize)?;
    let mut at = 0;
    while at < length {
        let Some(part) = bytes_with(filled, piece, at) else {
            return Ok(None);
        };
        bytes.extend_from_slice(part)?;
        at += CHUNK_LIMIT as u32;
    }
    Ok(Some(bytes))
}
