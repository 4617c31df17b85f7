//! The words of rows.

use fc_base::{JobNo, Key, RunNo, ServerNo};
use std::str::SplitWhitespace;

/// The first word, and what stands behind it.
pub fn first_word(words: &str) -> (&str, &str) {
    match words.trim().split_once(' ') {
        Some((first, rest)) => (first, rest.trim()),
        None => (words.trim(), ""),
    }
}

/// The event of a row, and its answer.
pub fn event_and_answer(row: &str) -> Option<(&str, &str)> {
    let (event, answer) = row.split_once("=>")?;
    Some((event.trim(), answer.trim()))
}

/// The next word, as a number.
pub fn next_u64(words: &mut SplitWhitespace) -> Option<u64> {
    words.next()?.parse::<u64>().ok()
}

/// The next word, as a smaller number.
pub fn next_u32(words: &mut SplitWhitespace) -> Option<u32> {
    words.next()?.parse::<u32>().ok()
}

/// The key of the next words: a run, a server and a job.
pub fn next_key(words: &mut SplitWhitespace) -> Option<Key> {
    Some(Key {
        run: RunNo(next_u64(words)?),
        server: ServerNo(next_u32(words)?),
        job: JobNo(next_u32(words)?),
    })
}
