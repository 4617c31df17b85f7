//! The frames that were ever sent.

ghost use Rattle.std.specs.Prelude.{◌≡◌, ◌≤◌, ◌++◌, [], length, MatchOption, OnOk, IfOk, Some, slice_get, min};
ghost use Rattle.net_world.specs.Sending.{sent_in};

use messages::Frames;
use std::alloc::{AllocError, Global};

/// The frames that were ever sent, numbered from 0. All but the last event's lie in one piece of memory,
/// and those are put there before the next event, so that no event wants for memory once it is done.
#[derive(Drop)]
pub struct FrameLog {
    alloc: Global,
    older: Frames,
    last: Frames,
}

impl FrameLog {
    /// None yet.
    pub(crate) fn new(alloc: Global) -> FrameLog
        ensures { sent_in result ≡ [] }
    {
        FrameLog {
            alloc,
            older: Frames::new(alloc),
            last: Frames::new(alloc),
        }
    }

    /// How many there are: the greatest number, should they be more.
    pub fn len(&self) -> usize
        ensures { result ≡ min (length (sent_in self.now)) usize.MAX }
    {
        self.older.len().saturating_add(self.last.len())
    }

    /// The bytes of one, `None` where there are no more than `index`.
    pub fn get(&self, index: usize) -> Option<&[u8]>
        ensures { MatchOption result (length (sent_in self.now) ≤ index)
            (λ bytes. slice_get (sent_in self.now) index ≡ Some bytes.now) }
    {
        let older = self.older.len();
        if index < older {
            self.older.get(index)
        } else {
            self.last.get(index - older)
        }
    }

    /// Puts the last frames behind the older ones, and tells how many there are. For want of memory
    /// nothing changes.
    pub(crate) fn settle(&mut self) -> Result<usize, AllocError>
        ensures same { sent_in self.new ≡ sent_in self.old }
        ensures none { OnOk result (self.new.last ≡ []) }
        ensures first { IfOk result (λ first. first ≡ length (sent_in self.new)) }
    {
        if self.last.len() > 0 {
            self.older.append(&self.last)?;
            self.last = Frames::new(self.alloc);
        }
        Ok(self.older.len())
    }

    /// Adds the frames of an event.
    pub(crate) fn add(&mut self, frames: Frames)
        requires { self.old.last ≡ [] }
        ensures { sent_in self.new ≡ sent_in self.old ++ frames }
    {
        self.last = frames;
    }
}
