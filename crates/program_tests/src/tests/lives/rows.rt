//! Lives as rows: what is read stands behind `>`, what is written behind `<`, each with the name or the number of its kind
//! first, and bytes that are read and are no record behind `!`.

use super::draft::Draft;
use std::alloc::{AllocError, Global};

/// The kinds of records, by name.
static KINDS: [(&str, u8); 25] = [
    ("note", 1),
    ("frame", 2),
    ("done", 3),
    ("failed", 4),
    ("blocks", 5),
    ("unread", 6),
    ("begin", 7),
    ("trigger", 8),
    ("stop", 9),
    ("verify", 10),
    ("tick", 11),
    ("look", 12),
    ("show", 13),
    ("ends", 14),
    ("save", 65),
    ("send", 66),
    ("order", 67),
    ("want", 68),
    ("cut", 69),
    ("number", 70),
    ("outcome", 71),
    ("report", 72),
    ("end", 73),
    ("place", 74),
    ("word", 75),
];

/// A life: what is read, and what is written.
#[derive(Drop)]
pub struct Life {
    pub input: Vec<u8>,
    pub output: Vec<u8>,
    /// Behind each record that is read: how many bytes were read by then, and how many are written then.
    pub marks: Vec<(usize, usize)>,
}

/// The life that rows say.
pub fn life_of(alloc: Global, rows: &str) -> Result<Life, AllocError> {
    let mut input = Draft::new(alloc);
    let mut output = Draft::new(alloc);
    let mut marks = Vec::new(alloc);
    for row in rows.lines() {
        let row = row.trim();
        if let Some(row) = row.strip_prefix(">") {
            put_row(alloc, &mut input, row);
        } else if let Some(row) = row.strip_prefix("<") {
            put_row(alloc, &mut output, row);
            if row.trim().starts_with("end") {
                marks.push((input.bytes.len(), output.bytes.len()))?;
            }
        } else if let Some(row) = row.strip_prefix("!") {
            put_words(&mut input, row);
        } else if !row.is_empty() {
            input.failed = true;
        }
    }
    Ok(Life {
        input: input.into_bytes()?,
        output: output.into_bytes()?,
        marks,
    })
}

/// Puts the record that a row says: the name of its kind, and the words of its body.
fn put_row(alloc: Global, draft: &mut Draft, row: &str) {
    let (name, rest) = first_word(row);
    let mut body = Draft::new(alloc);
    put_words(&mut body, rest);
    match kind_of(name) {
        Some(kind) if !body.failed => draft.put_record(kind, &body.bytes),
        _ => draft.failed = true,
    }
}

fn put_words(draft: &mut Draft, words: &str) {
    for word in words.split_whitespace() {
        draft.put_word(word);
    }
}

/// The first word, and what stands behind it.
fn first_word(words: &str) -> (&str, &str) {
    match words.trim().split_once(' ') {
        Some((first, rest)) => (first, rest),
        None => (words.trim(), ""),
    }
}

/// The number of a kind.
fn kind_of(name: &str) -> Option<u8> {
    for (known, kind) in KINDS.iter() {
        if *known == name {
            return Some(*kind);
        }
    }
    name.parse::<u8>().ok()
}
