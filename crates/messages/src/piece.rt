//! A piece of a packet's body, for networks that carry no larger frame.

ghost use Rattle.std.specs.Prelude.{◌≡◌, ◌≤◌, length, IsTrue, Ok, Err, if◌then◌else◌};
ghost use Rattle.messages.specs.PieceRanges.{is_long_kind, is_number, is_owner, is_cut_length, is_place};

use crate::chunk::Chunk;
use crate::kind::PacketKind;
use crate::limits::{CHUNK_LIMIT, MAX_BODY};
use crate::node::Node;
use crate::ranges::{is_attempt, is_job, is_run};
use fc_base::{Attempt, JobNo, MAX_SERVERS, RunNo, ServerNo};
use std::marker::Model;

/// What the pieces of one body have in common. The number is the attempt of a Verify or a Saved, else
/// 0; server and job are those of the state in a State or a Saved, else 0; the length is that of the
/// whole body, 1,025 to 16,400 bytes.
#[derive(Clone, Copy, Debug, PartialEq, Eq, Hash)]
pub struct Tag {
    pub whole: PacketKind,
    pub run: RunNo,
    pub number: u64,
    pub server: ServerNo,
    pub job: JobNo,
    pub length: u32,
}

/// What a piece is made of, with no ranges: at most 1,024 bytes of a body, and at which of its bytes
/// they begin.
#[derive(Drop)]
pub struct PieceParts {
    pub from: Node,
    pub to: Node,
    pub tag: Tag,
    pub at: u32,
    pub bytes: Chunk,
}

/// A piece whose numbers are in their ranges. It begins at a multiple of 1,024 below the length, and
/// goes on for 1,024 bytes or to the end of the body.
#[derive(Drop)]
pub struct Piece {
    parts: PieceParts,
}

impl Model for Piece {
    ghost use Rattle.std.specs.Prelude.{IsTrue};
    ghost use Rattle.messages.specs.declared.piece.PieceParts.{PieceParts};
    ghost use Rattle.messages.specs.PieceRanges.{is_piece};

    ghost Value = { PieceParts };

    ghost view = { λ q. q.parts };

    ghost invariant = { λ q. IsTrue (is_piece q.parts) };
}

fn is_long_kind(whole: PacketKind) -> bool
    ensures { result ≡ is_long_kind whole }
{
    match whole {
        PacketKind::Jobs | PacketKind::State | PacketKind::Verify | PacketKind::Saved => true,
        _ => false,
    }
}

fn is_number(whole: PacketKind, number: u64) -> bool
    ensures { result ≡ is_number whole number }
{
    match whole {
        PacketKind::Verify | PacketKind::Saved => is_attempt(Attempt(number)),
        _ => number == 0,
    }
}

fn is_owner(whole: PacketKind, server: ServerNo, job: JobNo) -> bool
    ensures { result ≡ is_owner whole server job }
{
    match whole {
        PacketKind::State | PacketKind::Saved => server.0 < MAX_SERVERS && is_job(job),
        _ => server.0 == 0 && job.0 == 0,
    }
}

fn is_cut_length(length: u32) -> bool
    ensures { result ≡ is_cut_length length }
{
    CHUNK_LIMIT as u32 + 1 <= length && length <= MAX_BODY
}

/// Whether so many bytes may stand at this place of a body of this length.
pub(crate) fn is_place(length: u32, at: u32, count: usize) -> bool
    ensures { result ≡ is_place length at count }
{
    at % CHUNK_LIMIT as u32 == 0 && at < length && count == CHUNK_LIMIT.min((length - at) as usize)
}

impl Tag {
    ghost use Rattle.messages.specs.PieceRanges.{is_tag_in_range};

    /// Whether the numbers are in their ranges.
    pub fn is_in_range(self) -> bool
        ensures { result ≡ is_tag_in_range self }
    {
        is_long_kind(self.whole)
            && is_run(self.run)
            && is_number(self.whole, self.number)
            && is_owner(self.whole, self.server, self.job)
            && is_cut_length(self.length)
    }
}

impl PieceParts {
    ghost use Rattle.messages.specs.PieceRanges.{is_piece};

    /// Whether all numbers are in their ranges, so that a piece can be made of the parts.
    pub fn is_piece(&self) -> bool
        ensures { result ≡ is_piece self.now }
    {
        self.from.is_node()
            && self.to.is_node()
            && self.tag.is_in_range()
            && is_place(self.tag.length, self.at, self.bytes.as_slice().len())
    }
}

impl Piece {
    ghost use Rattle.messages.specs.PieceRanges.{is_piece};

    /// The piece of these parts.
    pub fn new(parts: PieceParts) -> Piece
        requires { IsTrue (is_piece parts) }
        ensures { result ≡ parts }
    {
        Piece { parts }
    }

    /// The piece of these parts; where a number is out of its range, they come back.
    pub fn make(parts: PieceParts) -> Result<Piece, PieceParts>
        ensures { result ≡ (if is_piece parts then Ok parts else Err parts) }
    {
        if parts.is_piece() {
            Ok(Piece { parts })
        } else {
            Err(parts)
        }
    }

    /// Who sends it.
    pub fn from(&self) -> Node
        ensures { result ≡ self.now.from }
    {
        self.parts.from
    }

    /// To whom it goes.
    pub fn to(&self) -> Node
        ensures { result ≡ self.now.to }
    {
        self.parts.to
    }

    /// What it has in common with the other pieces of its body.
    pub fn tag(&self) -> Tag
        ensures { result ≡ self.now.tag }
    {
        self.parts.tag
    }

    /// How many bytes the whole body has.
    pub fn length(&self) -> u32
        ensures value { result ≡ self.now.tag.length }
        ensures range { result ≤ MAX_BODY }
    {
        self.parts.tag.length
    }

    /// Where its bytes begin in the body.
    pub fn at(&self) -> u32
        ensures { result ≡ self.now.at }
    {
        self.parts.at
    }

    /// Its bytes of the body.
    pub fn bytes(&self) -> &[u8]
        ensures value { result.now ≡ self.now.bytes }
        ensures range { length result.now ≤ CHUNK_LIMIT }
    {
        self.parts.bytes.as_slice()
    }

    /// The ranges that every piece keeps, for proofs: nothing runs.
    pub fn keeps_its_ranges(&self)
        ensures { IsTrue (is_piece self.now) }
    {
        let _ = &self.parts;
    }

    /// The parts.
    pub fn into_parts(self) -> PieceParts
        ensures value { result ≡ self }
        ensures ranges { IsTrue (is_piece result) }
    {
        let Piece { parts } = self;
        parts
    }
}
