//! Notes that are cut short, and notes of which one byte is changed.

use super::written::put_note;
use crate::tests::shared::{
    Draft, Reader, Trouble, first_note, first_unlike_field, is_changed_note,
};
use client_core::ClientNote;
use std::alloc::Global;

/// What stands before the states, field by field: how many bytes, and how many changes of one of them leave
/// a note, of 255 for each: by hand, from the field's range.
static HEAD: &str = "
    4 0 the magic
    8 1020 the generation: below 2 ^ 32
    8 2040 the runs
    8 2040 the attempts
    4 0 the number of states
";

/// What bytes are changed to in a note from before there were generations.
const VALUES: [u8; 4] = [0, 1, 0x80, 0xff];

/// How many such changes leave that note, by hand: 25 of the runs and as many of the attempts. Of each
/// state 23 of the run, 1 of the server, 1 of the kind, 1 of how it is verified, 1 of the block's bytes, 6 of
/// the blocks, 6 of the writes, 24 of the seed, 1 of the writes in flight, 2 of the window, 1 of the writes
/// issued, 128 of the place of the generator, and 1 of the writes that are done.
pub const OLD_CHANGES: u32 = 25 + 25 + 2 * 196;

/// Reads notes as a client does.
#[derive(Clone, Copy)]
pub struct NoteReader {
    pub alloc: Global,
}

impl Reader for NoteReader {
    /// Whether bytes are a note, which has to be written as just these bytes, or with generation 0 where it
    /// is from before there were generations.
    fn is_note(&self, bytes: &[u8]) -> Result<bool, Trouble> {
        match ClientNote::decode(self.alloc, bytes)? {
            Some(noted) => is_written_so(self.alloc, &noted, bytes),
            None => Ok(false),
        }
    }
}

fn is_written_so(alloc: Global, noted: &ClientNote, read: &[u8]) -> Result<bool, Trouble> {
    let written = noted.encode(alloc)?;
    if is_written(read, written.as_slice()) {
        Ok(true)
    } else {
        Err(Trouble::Changed)
    }
}

/// Whether a note that was read is to be written so.
fn is_written(read: &[u8], written: &[u8]) -> bool {
    match read.strip_prefix(b"FCC1") {
        Some(old) => written.strip_prefix(b"FCC2\0\0\0\0\0\0\0\0") == Some(old),
        None => read == written,
    }
}

/// Puts the bytes of a note. Where memory runs out, it is tried again.
fn put_again(draft: &mut Draft, words: &str) -> Result<(), Trouble> {
    put_note(draft, words);
    if draft.told() == Err(Trouble::NoMemory) {
        draft.clear();
        put_note(draft, words);
    }
    draft.told()
}

/// Whether a note is one, and nothing shorter.
pub fn is_whole(alloc: Global, words: &str) -> Result<bool, Trouble> {
    let mut note = Draft::new(alloc);
    put_again(&mut note, words)?;
    let len = first_note(&NoteReader { alloc }, note.bytes())?;
    Ok(len == Some(note.bytes().len()))
}

/// The first field of a note of which more or fewer changes leave a note.
pub fn unlike_field(alloc: Global, words: &str) -> Result<Option<(usize, u32)>, Trouble> {
    let mut note = Draft::new(alloc);
    put_again(&mut note, words)?;
    first_unlike_field(&NoteReader { alloc }, note.bytes_mut(), HEAD)
}

/// How many changes of one byte of a note to one of some values leave a note.
pub fn changes_of(alloc: Global, words: &str) -> Result<u32, Trouble> {
    let mut note = Draft::new(alloc);
    put_again(&mut note, words)?;
    changes_to_values(&NoteReader { alloc }, note.bytes_mut())
}

fn changes_to_values(reader: &NoteReader, note: &mut [u8]) -> Result<u32, Trouble> {
    let mut count: u32 = 0;
    for value in VALUES {
        count = count.saturating_add(changes_to(reader, note, value)?);
    }
    Ok(count)
}

fn changes_to(reader: &NoteReader, note: &mut [u8], value: u8) -> Result<u32, Trouble> {
    let mut count: u32 = 0;
    for at in 0..note.len() {
        let bits = bits_between(note.get(at), value);
        if bits != 0 && is_changed_note(reader, note, at, bits)? {
            count = count.saturating_add(1);
        }
    }
    Ok(count)
}

/// In which bits a byte differs from a value.
fn bits_between(byte: Option<&u8>, value: u8) -> u8 {
    match byte {
        Some(byte) => *byte ^ value,
        None => 0,
    }
}
