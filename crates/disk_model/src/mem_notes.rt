//! Durable notes in memory.

ghost use Rattle.std.specs.Prelude.{◌≡◌, OnOk, OnErr};
ghost use Rattle.disk_model.specs.Notes.{IsLoaded, IsSaved};
ghost use Rattle.disk_model.specs.MemNotes.{note_of, after_save};

use crate::notes::Notes;
use fc_base::Fault;
use std::marker::Model;
use std::mem;

/// Notes that lie in memory. They never fail, but for want of memory.
pub struct MemNotes {
    bytes: Vec<u8>,
    /// The bytes from before the last save, where it was not taken back.
    before: Option<Vec<u8>>,
}

/// By hand, so that the crates above need no proof of it.
impl Drop for MemNotes {
    fn drop(self) {
        let MemNotes {
            bytes: _,
            before: _,
        } = self;
    }
}

impl Model for MemNotes {
    ghost use Rattle.std.specs.Prelude.{unwrap_or};
    ghost use Rattle.std.specs.Option.{option_map};
    ghost use Rattle.disk_model.specs.MemNotes.{Saved};

    ghost Value = { Saved };

    ghost view = { λ n. record {
      bytes = n.bytes.items;
      before = unwrap_or (option_map (λ v. v.items) n.before) n.bytes.items;
    } };
}

impl MemNotes {
    /// Notes whose opening bytes are these. Saves take memory where these bytes have theirs.
    pub fn new(bytes: Vec<u8>) -> Self
        ensures { result ≡ record { bytes = bytes.items; before = bytes.items } }
    {
        MemNotes {
            bytes,
            before: None,
        }
    }

    /// Takes the last save back, as a medium that lost it does: the durable bytes are again those
    /// from before the last save that answered `Ok`, or the opening ones where there was none. A
    /// second call changes nothing.
    pub fn revert(&mut self)
        ensures { self.new ≡ record { bytes = self.old.before; before = self.old.before } }
    {
        if let Some(before) = self.before.take() {
            self.bytes = before;
        }
    }
}

impl Notes for MemNotes {
    ghost note = { note_of };

    fn load(&mut self) -> Result<Vec<u8>, Fault>
        ensures law { IsLoaded (note_of self.old) (note_of self.new) result }
        ensures left { self.new ≡ self.old }
    {
        match self.bytes.clone() {
            Ok(bytes) => Ok(bytes),
            Err(_) => Err(Fault::NoMemory),
        }
    }

    fn save(&mut self, bytes: &[u8]) -> Result<(), Fault>
        ensures law { IsSaved (note_of self.old) (note_of self.new) bytes.now result }
        ensures ok { OnOk result (self.new ≡ after_save self.old bytes.now) }
        ensures err { OnErr result (self.new ≡ self.old) }
    {
        match Vec::from_slice(*self.bytes.allocator(), bytes) {
            Ok(saved) => {
                self.before = Some(mem::replace(&mut self.bytes, saved));
                Ok(())
            }
            Err(_) => Err(Fault::NoMemory),
        }
    }
}
