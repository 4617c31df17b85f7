//! What notes say.

use super::trouble::Trouble;
use disk_model::{FaultNotes, Notes};
use fc_base::Fault;
use std::alloc::Global;

/// Whether notes have these bytes. Where memory runs out, they are asked once more.
pub fn have_bytes(notes: &mut FaultNotes, bytes: &[u8]) -> Result<bool, Trouble> {
    match have_bytes_once(notes, bytes) {
        Some(same) => Ok(same),
        None => have_bytes_once(notes, bytes).ok_or(Trouble::NoMemory),
    }
}

fn have_bytes_once(notes: &mut FaultNotes, bytes: &[u8]) -> Option<bool> {
    match notes.load() {
        Ok(found) => Some(found.as_slice() == bytes),
        Err(_) => None,
    }
}

/// Saves bytes in notes.
pub fn save(notes: &mut FaultNotes, bytes: &[u8]) -> Result<(), Trouble> {
    match notes.save(bytes) {
        Ok(()) => Ok(()),
        Err(Fault::NoMemory) => Err(Trouble::NoMemory),
        Err(_) => Err(Trouble::Off),
    }
}

/// Notes of which the first load fails. They save nothing.
#[derive(Drop)]
pub struct UnreadNotes {
    pub alloc: Global,
    pub failed: bool,
}

impl UnreadNotes {
    pub fn new(alloc: Global) -> UnreadNotes {
        UnreadNotes {
            alloc,
            failed: false,
        }
    }
}

impl Notes for UnreadNotes {
    ghost use Rattle.std.specs.Prelude.{[], if◌then◌else◌};

    ghost note = { λ n. record { bytes = []; failures = if n.failed then 1 else 0 } };

    fn load(&mut self) -> Result<Vec<u8>, Fault> {
        if self.failed {
            return Ok(Vec::new(self.alloc));
        }
        self.failed = true;
        Err(Fault::LoadFault)
    }

    fn save(&mut self, _bytes: &[u8]) -> Result<(), Fault> {
        Err(Fault::NoMemory)
    }
}
