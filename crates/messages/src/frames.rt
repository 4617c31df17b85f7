//! The frames of a packet.

ghost use Rattle.std.specs.Prelude.{◌≡◌, ℕ, ◌+◌, ◌≤◌, ◌∷◌, [], length, map, All, ◌<◌, ◌^◌, slice_get, slice_index, Some, MatchOption, OnOk, OnErr, IfOk, ◌++◌, vec_len, vec_capacity};
ghost use Rattle.messages.specs.Pieces.{bytes_at, tag_in, places};
ghost use Rattle.messages.specs.FramesOf.{spelled_piece, spelled_frames, AreFew};

use crate::limits::{CHUNK_LIMIT, MAX_BODY, PIECE_HEAD};
use crate::packet::Packet;
use crate::writing::{HEADER, encode, put_piece};
use std::alloc::{AllocError, Global};
use std::marker::Model;

/// The bytes of frames, in their order. They lie in one piece of memory, one behind the other.
pub struct Frames {
    bytes: Vec<u8>,
    ends: Vec<usize>,
}

/// By hand, so that the crates above need no proof of it.
impl Drop for Frames {
    fn drop(self) {
        let Frames { bytes: _, ends: _ } = self;
    }
}

impl Model for Frames {
    ghost use Rattle.std.specs.Prelude.{List, ℕ, length};
    ghost use Rattle.messages.specs.FramesOf.{parts_between, RiseTo};

    ghost Value = { List (List ℕ) };

    ghost view = { λ f. parts_between 0 f.ends.items f.bytes.items };

    ghost invariant = { λ f. RiseTo 0 f.ends.items (length f.bytes.items) };
}

impl Frames {
    /// None yet.
    pub fn new(alloc: Global) -> Frames
        ensures { result ≡ [] }
    {
        Frames {
            bytes: Vec::new(alloc),
            ends: Vec::new(alloc),
        }
    }

    /// Appends other frames. Where memory runs out nothing changes.
    pub fn append(&mut self, other: &Frames) -> Result<(), AllocError>
        ensures appended { OnOk result (self.new ≡ self.old ++ other.now) }
        ensures same { OnErr result (self.new ≡ self.old) }
    {
        let start = self.bytes.as_slice().len();
        self.ends.reserve(other.ends.as_slice().len())?;
        self.bytes.extend_from_slice(&other.bytes)?;
        push_ends(&mut self.ends, &other.ends, start);
        Ok(())
    }

    /// How many there are.
    pub fn len(&self) -> usize
        ensures { result ≡ length self.now }
    {
        self.ends.as_slice().len()
    }

    /// The bytes of one, in constant time; `None` where there are no more than `index`.
    pub fn get(&self, index: usize) -> Option<&[u8]>
        ensures { MatchOption result (length self.now ≤ index)
            (λ bytes. slice_get self.now index ≡ Some bytes.now) }
    {
        let ends = self.ends.as_slice();
        if index >= ends.len() {
            return None;
        }
        Some(&self.bytes[start_of(ends, index)..ends[index]])
    }
}

/// Where a frame begins: where the one before it ends.
fn start_of(ends: &[usize], index: usize) -> usize
    requires { index < length ends.now }
    ensures { result ≡ slice_index (0 ∷ ends.now) index }
{
    if index == 0 { 0 } else { ends[index - 1] }
}

/// Pushes where other frames end once they lie from `start` on. There is room for them.
fn push_ends(ends: &mut Vec<usize>, others: &[usize], start: usize)
    requires room { vec_len ends.old + length others.now ≤ vec_capacity ends.old }
    requires fits { All (λ end. start + end < 2 ^ 64) others.now }
    ensures { ends.new.items ≡ ends.old.items ++ map (λ end. start + end) others.now }
{
    for end in others {
        ends.push_reserved(start + *end);
    }
}

/// The frames that carry a packet: its own where the body has at most 1,024 bytes, else its pieces by
/// rising place. They are at most 17, of at most 1,073 bytes each.
pub fn frames_of(alloc: Global, packet: &Packet) -> Result<Frames, AllocError>
    ensures spelling { IfOk result (λ frames. frames ≡ spelled_frames packet.now) }
    ensures few { IfOk result (AreFew packet.now) }
{
    verify_state::one_spelling();
    packet.keeps_its_ranges();
    let bytes = encode(alloc, packet)?;
    if bytes.as_slice().len() <= HEADER + CHUNK_LIMIT {
        one(alloc, bytes)
    } else {
        let (_, body) = bytes.split_at(HEADER);
        cut(alloc, packet, body)
    }
}

/// A frame alone.
fn one(alloc: Global, bytes: Vec<u8>) -> Result<Frames, AllocError>
    ensures { IfOk result (λ frames. frames ≡ bytes.items ∷ []) }
{
    let ends = vec![in alloc; bytes.len()]?;
    Ok(Frames { bytes, ends })
}

/// The pieces of a packet whose body has these bytes.
fn cut(alloc: Global, packet: &Packet, body: &[u8]) -> Result<Frames, AllocError>
    requires { length body.now ≤ MAX_BODY }
    ensures { IfOk result
        (λ frames. frames ≡ map
        (spelled_piece packet.now.from packet.now.to
        (tag_in packet.now.body (length body.now)) body.now) (places (length body.now))) }
{
    let count = body.len().div_ceil(CHUNK_LIMIT);
    let mut bytes = Vec::with_capacity(alloc, body.len() + PIECE_HEAD * count)?;
    let mut ends = Vec::with_capacity(alloc, count)?;
    let mut at = 0;
    while at < body.len() {
        put_chunk(&mut bytes, packet, body, at)?;
        ends.push(bytes.len())?;
        at += CHUNK_LIMIT;
    }
    Ok(Frames { bytes, ends })
}

/// Appends the piece at a place.
fn put_chunk(out: &mut Vec<u8>, packet: &Packet, body: &[u8], at: usize) -> Result<(), AllocError>
    requires place { at ≤ length body.now }
    requires long { length body.now ≤ MAX_BODY }
    ensures { OnOk result
        (out.new.items ≡ out.old.items ++ spelled_piece packet.now.from packet.now.to
        (tag_in packet.now.body (length body.now)) body.now at) }
{
    let tag = packet.body().tag(body.len() as u32);
    let chunk = chunk_at(body, at);
    put_piece(out, packet.from(), packet.to(), tag, at as u32, chunk)
}

/// The bytes of a body at a place.
fn chunk_at(body: &[u8], at: usize) -> &[u8]
    requires { at ≤ length body.now }
    ensures value { result.now ≡ bytes_at body.now at }
    ensures len { length result.now ≤ CHUNK_LIMIT }
{
    let (_, rest) = body.split_at(at);
    &rest[..CHUNK_LIMIT.min(rest.len())]
}
