//! What a server is restarted over.

use crate::tests::shared::{Draft, UnreadNotes};
use fc_base::{Fault, ServerNo};
use server_core::Server;
use std::alloc::Global;

/// What the note of a server says: its boot, and its last run.
#[derive(Clone, Copy)]
pub struct NoteNumbers {
    pub boot: u64,
    pub last_run: u64,
}

/// Puts the bytes of a note.
pub fn put_noted(draft: &mut Draft, noted: NoteNumbers) {
    draft.put(b"FCN1");
    draft.put_number(noted.boot, 8);
    draft.put_number(noted.last_run, 8);
}

/// The bytes of notes, and the number of the refusal, or 0 and then what the server shows.
pub static NOTES: &str = "
    - => 0 1 0
    46434e3100000000000000010000000000000000 => 0 2 0
    46434e310000000000000005000000000000000a => 0 6 10
    46434e31fffffffffffffffeffffffffffffffff => 0 18446744073709551615 18446744073709551615
    46434e31ffffffffffffffff0000000000000000 => 72
    46434e31ffffffffffffffffffffffffffffffff => 72
    46434e3100000000000000010000000000000000ff => 54
    46434e31000000000000000100000000000000 => 54
    46434e31 => 54
    46 => 54
    46434e3200000000000000010000000000000000 => 54
    4643433100000000000000010000000000000000 => 54
    00000000000000010000000000000000 => 54
";

/// Whether notes that can't be loaded come back with that.
pub fn come_back(alloc: Global) -> bool {
    match Server::restart(alloc, ServerNo(0), UnreadNotes::new(alloc)) {
        Err((notes, Fault::LoadFault)) => notes.failed,
        _ => false,
    }
}
