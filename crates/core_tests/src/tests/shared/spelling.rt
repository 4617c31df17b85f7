//! Frames that rows say, spelled by the table of the kinds, without `messages`.

use super::draft::Draft;
use super::named::put_word;
use super::trouble::Trouble;
use super::vectors::digits;
use super::words::{first_word, next_u64};
use std::alloc::Global;
use std::str::SplitWhitespace;

/// The kinds: the number of each, and the widths of its numbers. All that follow have 4 bytes.
static KINDS: &str = "
    Jobs 1 8
    JobsOk 2 8
    Start 3 8
    Started 4 8
    Trigger 5 8 1
    State 6 4
    NoState 7 8
    StateAck 8 8
    Stop 9 8
    Stopped 10 8
    Verify 11 8 8
    WantState 12 8 8
    Saved 13 8
    NoSaved 14 8 8
    Report 15 8 8 4 4 1
    Refused 16 1 1 4 4 8 8 8
    Copy 18
    CopyOk 19 8
    Fetch 20 8
    Granted 21 8
";

/// The nodes that a frame comes from and goes to, by their numbers.
#[derive(Clone, Copy)]
pub struct Ends {
    pub from: u64,
    pub to: u64,
}

impl Ends {
    /// Those of what is answered.
    pub fn back(self) -> Ends {
        Ends {
            from: self.to,
            to: self.from,
        }
    }
}

/// A frame in the making.
#[derive(Drop)]
pub struct Spelling {
    body: Draft,
    frame: Draft,
}

impl Spelling {
    pub fn new(alloc: Global) -> Spelling {
        Spelling {
            body: Draft::new(alloc),
            frame: Draft::new(alloc),
        }
    }

    /// The frame that was spelled last.
    pub fn frame(&self) -> &[u8] {
        self.frame.bytes()
    }

    /// Spells the frame that these words say: its bytes in hexadecimal; `bytes of` one that `vectors`
    /// has, by its name; or the name of its kind, its numbers and its text or state. Where memory runs
    /// out, it is tried again.
    pub fn spell(&mut self, ends: Ends, words: &str) -> Result<(), Trouble> {
        match self.spell_once(ends, words) {
            Err(Trouble::NoMemory) => self.spell_once(ends, words),
            answer => answer,
        }
    }

    fn spell_once(&mut self, ends: Ends, words: &str) -> Result<(), Trouble> {
        self.body.clear();
        self.frame.clear();
        if words.starts_with("4643") {
            self.frame.put_hex(words);
        } else {
            match words.strip_prefix("bytes of ") {
                Some(name) => self.put_vector(name),
                None => self.put_frame(ends, words),
            }
        }
        self.body.told()?;
        self.frame.told()
    }

    fn put_vector(&mut self, name: &str) {
        match digits(name) {
            Some(digits) => self.frame.put_hex(digits),
            None => self.frame.give_up(),
        }
    }

    fn put_frame(&mut self, ends: Ends, words: &str) {
        match words.strip_prefix("piece ") {
            Some(rest) => self.put_piece(ends, rest),
            None => self.put_whole(ends, words),
        }
    }

    fn put_whole(&mut self, ends: Ends, words: &str) {
        let number = put_packet(&mut self.body, words);
        put_header(&mut self.frame, number, ends, self.body.bytes().len());
        self.frame.put(self.body.bytes());
    }

    /// Puts a piece: the six numbers of its tag and its place stand before the packet whose bytes it has.
    fn put_piece(&mut self, ends: Ends, words: &str) {
        let (tag, packet) = split_tag(words);
        put_packet(&mut self.body, packet);
        let part = part_at(self.body.bytes(), place_in(tag));
        put_header(&mut self.frame, 17, ends, part.len().saturating_add(33));
        put_body(&mut self.frame, &mut "1 8 8".split_whitespace(), tag);
        self.frame.put(part);
    }
}

/// Whether words say a frame.
pub fn is_frame(words: &str) -> bool {
    let (word, _) = first_word(words);
    matches!(word, "piece" | "to" | "bytes") || word.starts_with("4643") || layout(word).is_some()
}

/// Puts the body of a packet, and gives the number of its kind.
fn put_packet(draft: &mut Draft, words: &str) -> u64 {
    let (kind, rest) = first_word(words);
    let Some(layout) = layout(kind) else {
        draft.give_up();
        return 0;
    };
    let mut widths = layout.split_whitespace();
    let number = next_u64(&mut widths).unwrap_or(0);
    put_body(draft, &mut widths, rest);
    number
}

fn put_header(draft: &mut Draft, kind: u64, ends: Ends, length: usize) {
    draft.put(b"FC\x01");
    draft.put_number(kind, 1);
    draft.put_number(ends.from, 4);
    draft.put_number(ends.to, 4);
    draft.put_number(length as u64, 4);
}

/// Puts numbers, which have these widths, and what names say.
fn put_body(draft: &mut Draft, widths: &mut SplitWhitespace, words: &str) {
    for word in words.split_whitespace() {
        match word.parse::<u64>() {
            Ok(number) => draft.put_number(number, next_width(widths)),
            Err(_) => put_word(draft, word),
        }
    }
}

fn next_width(widths: &mut SplitWhitespace) -> usize {
    match widths.next() {
        Some("1") => 1,
        Some("8") => 8,
        _ => 4,
    }
}

/// The number of a kind, and the widths of its numbers.
fn layout(kind: &str) -> Option<&'static str> {
    for row in KINDS.lines() {
        let (name, rest) = first_word(row);
        if name == kind && !rest.is_empty() {
            return Some(rest);
        }
    }
    None
}

/// The numbers of a piece, and what stands behind them.
fn split_tag(words: &str) -> (&str, &str) {
    match words.split_once(" of ") {
        Some((tag, packet)) => (tag, packet),
        None => (words, ""),
    }
}

/// The place that a tag ends with.
fn place_in(tag: &str) -> usize {
    match tag.split_whitespace().last() {
        Some(word) => word.parse::<usize>().unwrap_or(0),
        None => 0,
    }
}

/// The bytes of a body from a place on, at most 1,024.
fn part_at(body: &[u8], at: usize) -> &[u8] {
    let (_, rest) = body.split_at(at.min(body.len()));
    let (part, _) = rest.split_at(rest.len().min(1_024));
    part
}
