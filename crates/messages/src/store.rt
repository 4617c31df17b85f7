//! The bytes of frames, in one piece of memory.

ghost use Rattle.std.specs.Prelude.{◌≡◌, ◌+◌, ◌<◌, ◌≤◌, [], ◌∷◌, ◌++◌, length, slice_get, slice_index, MatchOption, OnOk, Some};

use std::alloc::{AllocError, Global};
use std::marker::Model;

/// Frames, one behind the other, and where each ends.
#[derive(Drop)]
pub(crate) struct Store {
    bytes: Vec<u8>,
    ends: Vec<usize>,
}

impl Model for Store {
    ghost use Rattle.std.specs.Prelude.{◌-◌, length, vec_len, vec_capacity};
    ghost use Rattle.messages.specs.FramesOf.{parts_between, RiseTo};
    ghost use Rattle.messages.specs.KeptNetwork.{Stored};

    ghost Value = { Stored };

    ghost view = { λ s. record {
      frames = parts_between 0 s.ends.items s.bytes.items;
      more = vec_capacity s.ends - vec_len s.ends;
      bytes = vec_capacity s.bytes - vec_len s.bytes;
    } };

    ghost invariant = { λ s. RiseTo 0 s.ends.items (length s.bytes.items) };
}

impl Store {
    /// No frames.
    pub fn new(alloc: Global) -> Store
        ensures { result.frames ≡ [] }
    {
        Store {
            bytes: Vec::new(alloc),
            ends: Vec::new(alloc),
        }
    }

    /// How many there are.
    pub fn len(&self) -> usize
        ensures { result ≡ length self.now.frames }
    {
        self.ends.as_slice().len()
    }

    /// The bytes of one, `None` where there are no more than `index`.
    pub fn get(&self, index: usize) -> Option<&[u8]>
        ensures { MatchOption result (length self.now.frames ≤ index)
            (λ bytes. slice_get self.now.frames index ≡ Some bytes.now) }
    {
        let ends = self.ends.as_slice();
        if index >= ends.len() {
            return None;
        }
        Some(&self.bytes[start_of(ends, index)..ends[index]])
    }

    /// Makes room for so many more frames, of so many bytes together.
    pub fn reserve(&mut self, frames: usize, bytes: usize) -> Result<(), AllocError>
        ensures frames { OnOk result (frames ≤ self.new.more) }
        ensures bytes { OnOk result (bytes ≤ self.new.bytes) }
        ensures same { self.new.frames ≡ self.old.frames }
    {
        self.ends.reserve(frames)?;
        self.bytes.reserve(bytes)
    }

    /// Adds a frame, for which there is room.
    pub fn push(&mut self, frame: &[u8])
        requires frames { 1 ≤ self.old.more }
        requires bytes { length frame.now ≤ self.old.bytes }
        ensures frames { self.new.frames ≡ self.old.frames ++ frame.now ∷ [] }
        ensures more { self.new.more + 1 ≡ self.old.more }
        ensures bytes { self.old.bytes ≤ self.new.bytes + length frame.now }
    {
        self.bytes.extend_from_slice(frame).unwrap();
        self.ends.push_reserved(self.bytes.as_slice().len());
    }
}

/// Where a frame begins: where the one before it ends.
fn start_of(ends: &[usize], index: usize) -> usize
    requires { index < length ends.now }
    ensures { result ≡ slice_index (0 ∷ ends.now) index }
{
    if index == 0 { 0 } else { ends[index - 1] }
}
