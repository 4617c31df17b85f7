//! The note of a filter, which lies in memory.

ghost use Rattle.std.specs.Prelude.{◌≡◌};
ghost use Rattle.filters.specs.Kept.{note_kept};

use disk_model::Notes;
use fc_base::Fault;

/// A note that lies in memory, and in no file: each save of it is written as a record, and whoever runs the
/// filter makes that durable.
pub struct NoteBuffer {
    bytes: Vec<u8>,
}

/// By hand, so that the crates above need no proof of it.
impl Drop for NoteBuffer {
    fn drop(self) {
        let NoteBuffer { bytes: _ } = self;
    }
}

impl NoteBuffer {
    /// A note whose bytes are these.
    pub fn new(bytes: Vec<u8>) -> NoteBuffer
        ensures { (note_kept result).bytes ≡ bytes.items }
    {
        NoteBuffer { bytes }
    }

    /// Its bytes.
    pub fn as_slice(&self) -> &[u8]
        ensures { result.now ≡ (note_kept self.now).bytes }
    {
        &self.bytes
    }
}

impl Notes for NoteBuffer {
    ghost note = { note_kept };

    fn load(&mut self) -> Result<Vec<u8>, Fault> {
        match self.bytes.clone() {
            Ok(bytes) => Ok(bytes),
            Err(_) => Err(Fault::NoMemory),
        }
    }

    fn save(&mut self, bytes: &[u8]) -> Result<(), Fault> {
        match Vec::from_slice(*self.bytes.allocator(), bytes) {
            Ok(saved) => {
                self.bytes = saved;
                Ok(())
            }
            Err(_) => Err(Fault::NoMemory),
        }
    }
}
