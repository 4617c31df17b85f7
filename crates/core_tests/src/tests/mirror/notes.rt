//! What a mirror is restarted over.

use crate::tests::shared::{Draft, Reader, Trouble, UnreadNotes, first_word, put_state, put_word};
use fc_base::Fault;
use mirror_core::{Mirror, MirrorNote};
use std::alloc::Global;

/// Generation 3, and two states, of two jobs.
pub const TWO: &str = "3 first first~19=1";

/// Notes, and the number of the refusal, or 0.
pub const NOTES: &str = "
    - => 0
    46434d31000000000000000000000000 => 0
    46434d31000000000000000100000000 => 0
    46434d3100000000ffffffff00000000 => 0
    46434d31000000010000000000000000 => 54
    46434d31ffffffffffffffff00000000 => 54
    46434d3100000000000000010000000000 => 54
    46434d310000000000000001000000 => 54
    46434d31 => 54
    46434d => 54
    4643 => 54
    46434d32000000000000000100000000 => 54
    464343310000000000000000000000000000000000000000 => 54
    464343320000000000000001000000000000000000000000 => 54
    46434e3100000000000000010000000000000000 => 54
    46434d31000000000000000000000001 => 54
    46434d31000000000000000000000400 => 54
    46434d31000000000000000000000401 => 54
    46434d310000000000000000ffffffff => 54
    46434d31000000000000000000000001ffffffff => 54
    3 first first~19=1 => 0
    4294967295 first~19=1 first => 0
    4294967296 first => 54
    3 listed first~19=1 => 0
    3 first listed => 54
    3 first first => 54
    3 first~19=1 first~19=1~111=3 => 54
    3 first~11=0 => 54
";

/// Puts the bytes of a note: none for `-`; those that stand there in hexadecimal; `full` of so many states; or
/// those of a generation and these states.
pub fn put_note(draft: &mut Draft, words: &str) {
    match first_word(words) {
        ("-", _) => {}
        ("full", count) => put_full(draft, count),
        (word, _) if word.starts_with("4643") => draft.put_hex(words),
        _ => put_fields(draft, words),
    }
}

fn put_fields(draft: &mut Draft, words: &str) {
    let (generation, states) = first_word(words);
    let count = states.split_whitespace().count() as u64;
    match generation.parse::<u64>() {
        Ok(generation) => put_head(draft, generation, count),
        Err(_) => draft.give_up(),
    }
    for word in states.split_whitespace() {
        let length = if word.starts_with("listed") { 108 } else { 136 };
        draft.put_number(length, 4);
        put_word(draft, word);
    }
}

fn put_head(draft: &mut Draft, generation: u64, count: u64) {
    draft.put(b"FCM1");
    draft.put_number(generation, 8);
    draft.put_number(count, 4);
}

/// Puts the note that keeps so many states, with generation 2: of server 0, those of 16 jobs for each run.
fn put_full(draft: &mut Draft, count: &str) {
    let count = count.parse::<u32>().unwrap_or(0);
    put_head(draft, 2, u64::from(count));
    for index in 0..count {
        draft.put_number(136, 4);
        put_state(draft, index);
    }
}

/// Reads notes as a mirror does.
#[derive(Clone, Copy)]
pub struct NoteReader {
    pub alloc: Global,
}

impl Reader for NoteReader {
    /// Whether bytes are a note, which has to be written as just these bytes.
    fn is_note(&self, bytes: &[u8]) -> Result<bool, Trouble> {
        match MirrorNote::decode(self.alloc, bytes)? {
            Some(noted) => is_written_so(self.alloc, &noted, bytes),
            None => Ok(false),
        }
    }
}

fn is_written_so(alloc: Global, noted: &MirrorNote, bytes: &[u8]) -> Result<bool, Trouble> {
    if noted.encode(alloc)?.as_slice() == bytes {
        Ok(true)
    } else {
        Err(Trouble::Changed)
    }
}

/// Whether notes whose load fails come back with that.
pub fn comes_back(alloc: Global) -> bool {
    match Mirror::restart(alloc, UnreadNotes::new(alloc)) {
        Err((notes, Fault::LoadFault)) => notes.failed,
        _ => false,
    }
}
