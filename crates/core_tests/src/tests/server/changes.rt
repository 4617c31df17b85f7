//! A note that is cut short, and a note of which one byte is changed.

use crate::tests::shared::{Draft, Reader, Trouble, first_note, is_changed_note};
use server_core::ServerNote;
use std::alloc::Global;

/// Boot 5, and run 3.
const NOTE: &str = "46434e3100000000000000050000000000000003";

/// How many changes of one of its bytes leave a note: all of both numbers, and none of the magic.
pub const CHANGES: u32 = 16 * 255;

/// Reads notes as a server does.
#[derive(Clone, Copy)]
struct NoteReader;

impl Reader for NoteReader {
    /// Whether bytes are a note, which has to be written as just these bytes.
    fn is_note(&self, bytes: &[u8]) -> Result<bool, Trouble> {
        match ServerNote::decode(bytes) {
            Some(noted) if noted.encode().as_slice() == bytes => Ok(true),
            Some(_) => Err(Trouble::Changed),
            None => Ok(false),
        }
    }
}

/// The bytes of the note. Where memory runs out, they are put once more.
fn note(alloc: Global) -> Result<Draft, Trouble> {
    let mut note = Draft::new(alloc);
    note.put_hex(NOTE);
    if note.told() == Err(Trouble::NoMemory) {
        note.clear();
        note.put_hex(NOTE);
    }
    note.told()?;
    Ok(note)
}

/// Whether the note is one, and nothing shorter.
pub fn is_whole(alloc: Global) -> Result<bool, Trouble> {
    let note = note(alloc)?;
    let len = first_note(&NoteReader, note.bytes())?;
    Ok(len == Some(note.bytes().len()))
}

/// How many changes of one byte leave a note.
pub fn changes(alloc: Global) -> Result<u32, Trouble> {
    let mut note = note(alloc)?;
    let bytes = note.bytes_mut();
    let mut count: u32 = 0;
    for at in 0..bytes.len() {
        count = count.saturating_add(changes_at(bytes, at)?);
    }
    Ok(count)
}

fn changes_at(note: &mut [u8], at: usize) -> Result<u32, Trouble> {
    let mut count: u32 = 0;
    for bits in 1..=u8::MAX {
        if is_changed_note(&NoteReader, note, at, bits)? {
            count = count.saturating_add(1);
        }
    }
    Ok(count)
}
