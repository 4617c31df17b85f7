//! Notes that are cut short, and notes of which one byte is changed.

use super::notes::{NoteReader, put_note};
use crate::tests::shared::{Draft, Trouble, first_note, first_unlike_field};
use std::alloc::Global;

/// What stands before the states, field by field: how many bytes, and how many changes of one of them leave
/// a note, of 255 for each: by hand, from the field's range. A generation of eight bytes fits four.
const HEAD: &str = "
    4 0 the magic
    4 0 the generation's high half
    4 1020 its low half
    4 0 the number of states
";

/// Puts the bytes of a note. Where memory runs out, it is tried again.
fn put_again(draft: &mut Draft, words: &str) -> Result<(), Trouble> {
    put_note(draft, words);
    if draft.told() == Err(Trouble::NoMemory) {
        draft.clear();
        put_note(draft, words);
    }
    draft.told()
}

/// Whether a note is one, and nothing shorter.
pub fn is_whole(alloc: Global, words: &str) -> Result<bool, Trouble> {
    let mut note = Draft::new(alloc);
    put_again(&mut note, words)?;
    let len = first_note(&NoteReader { alloc }, note.bytes())?;
    Ok(len == Some(note.bytes().len()))
}

/// The first field of a note of which more or fewer changes leave a note.
pub fn unlike_field(alloc: Global, words: &str) -> Result<Option<(usize, u32)>, Trouble> {
    let mut note = Draft::new(alloc);
    put_again(&mut note, words)?;
    first_unlike_field(&NoteReader { alloc }, note.bytes_mut(), HEAD)
}
