//! Stories that are told to nodes.

use super::draft::Draft;
use super::life::{Life, Unlike};
use super::story_node::Node;
use super::trouble::Trouble;
use super::words::first_word;
use disk_model::{FaultNotes, MemNotes};
use std::alloc::Global;

/// The name of a story, and its rows.
pub type Story = (&'static str, &'static str);

/// A story in which a save fails.
#[derive(Clone, Copy)]
pub struct LostSave {
    pub name: &'static str,
    /// The number of the save, from 0.
    pub at: u64,
    /// Whether it leaves the new bytes.
    pub landed: bool,
    pub rows: &'static str,
}

/// A save that fails: its number, from 0, and whether it leaves the new bytes.
#[derive(Clone, Copy)]
pub struct Failing {
    pub at: u64,
    pub landed: bool,
}

/// No save fails.
pub const NONE_FAILS: Failing = Failing {
    at: u64::MAX,
    landed: false,
};

/// How a story went: how often memory ran out, and the first row that isn't answered so.
#[derive(Clone, Copy)]
struct Told {
    wants: u32,
    unlike: Option<Unlike>,
}

/// Notes that say this, of which a save fails. Where memory runs out, they are made once more.
pub fn notes_in<C: Node>(
    alloc: Global,
    words: &str,
    failing: Failing,
) -> Result<FaultNotes, Trouble> {
    match bytes_in::<C>(alloc, words) {
        Err(Trouble::NoMemory) => notes_of(bytes_in::<C>(alloc, words), failing),
        answer => notes_of(answer, failing),
    }
}

fn notes_of(bytes: Result<Vec<u8>, Trouble>, failing: Failing) -> Result<FaultNotes, Trouble> {
    match bytes {
        Ok(bytes) => Ok(failing_notes(bytes, failing)),
        Err(trouble) => Err(trouble),
    }
}

/// Notes of these bytes, of which a save fails.
pub fn failing_notes(bytes: Vec<u8>, failing: Failing) -> FaultNotes {
    FaultNotes::new(MemNotes::new(bytes), failing.at, failing.landed)
}

fn bytes_in<C: Node>(alloc: Global, words: &str) -> Result<Vec<u8>, Trouble> {
    let mut draft = Draft::new(alloc);
    C::put_note(&mut draft, words);
    draft.into_bytes()
}

fn tell<C: Node>(alloc: Global, servers: u32, notes: FaultNotes, rows: &str) -> Told {
    let mut life: Life<C> = Life::new(alloc, servers, notes);
    let unlike = life.first_unlike(rows);
    Told {
        wants: life.end(),
        unlike,
    }
}

fn tell_over<C: Node>(
    alloc: Global,
    servers: u32,
    notes: Result<FaultNotes, Trouble>,
    rows: &str,
) -> Told {
    match notes {
        Ok(notes) => tell::<C>(alloc, servers, notes, rows),
        Err(trouble) => Told {
            wants: 0,
            unlike: Some((0, Some(trouble))),
        },
    }
}

/// The first row that isn't answered so by a node among so many servers over a note, in which memory may
/// run out once.
pub fn unlike_over<C: Node>(alloc: Global, servers: u32, note: &str, rows: &str) -> Option<Unlike> {
    let notes = notes_in::<C>(alloc, note, NONE_FAILS);
    let told = tell_over::<C>(alloc, servers, notes, rows);
    if told.wants > 1 {
        return Some((0, Some(Trouble::NoMemory)));
    }
    told.unlike
}

/// The first row that isn't answered so by a node over a note, where a save fails. A save that finds no memory
/// counts as one, so that another fails: then the story is told anew.
pub fn unlike_after<C: Node>(
    alloc: Global,
    note: &str,
    failing: Failing,
    rows: &str,
) -> Option<Unlike> {
    let notes = notes_in::<C>(alloc, note, failing);
    let told = tell_over::<C>(alloc, 1, notes, rows);
    if told.wants == 1 {
        let notes = notes_in::<C>(alloc, note, failing);
        return tell_over::<C>(alloc, 1, notes, rows).unlike;
    }
    told.unlike
}

/// Whether a node is opened over a note, as the words say, and then answers the rows.
pub fn holds_once_on<C: Node>(
    alloc: Global,
    note: &str,
    opening: &str,
    failing: Failing,
    rows: &str,
) -> Result<bool, Trouble> {
    match notes_in::<C>(alloc, note, failing) {
        Ok(notes) => holds_over::<C>(alloc, notes, opening, rows),
        Err(trouble) => Err(trouble),
    }
}

fn holds_over<C: Node>(
    alloc: Global,
    notes: FaultNotes,
    opening: &str,
    rows: &str,
) -> Result<bool, Trouble> {
    let mut life: Life<C> = Life::new(alloc, 1, notes);
    let answer = answers_once_on(&mut life, opening, rows);
    life.end();
    answer
}

fn answers_once_on<C: Node>(
    life: &mut Life<C>,
    opening: &str,
    rows: &str,
) -> Result<bool, Trouble> {
    Ok(open_as(life, opening)? == 0 && life.first_unlike(rows).is_none())
}

/// Opens a node that is off, as the words say: 0, or the fault's number.
pub fn open_as<C: Node>(life: &mut Life<C>, opening: &str) -> Result<u8, Trouble> {
    match C::opening_in(opening) {
        Some(opening) => life.open(&opening),
        None => Err(Trouble::BadRow),
    }
}

/// Whether a node is restarted over the note of a row as it says: behind the note stands the number of the
/// refusal, or 0, and then may stand what the node shows. Else the note says what it said.
pub fn holds_note<C: Node>(alloc: Global, row: &str) -> Result<bool, Trouble> {
    match row.split_once("=>") {
        Some((note, answer)) => holds_note_once::<C>(alloc, note.trim(), answer.trim()),
        None => Ok(row.trim().is_empty()),
    }
}

fn holds_note_once<C: Node>(alloc: Global, note: &str, answer: &str) -> Result<bool, Trouble> {
    match notes_in::<C>(alloc, note, NONE_FAILS) {
        Ok(notes) => is_restarted::<C>(alloc, notes, note, answer),
        Err(trouble) => Err(trouble),
    }
}

fn is_restarted<C: Node>(
    alloc: Global,
    notes: FaultNotes,
    note: &str,
    answer: &str,
) -> Result<bool, Trouble> {
    let mut life: Life<C> = Life::new(alloc, 1, notes);
    let restarted = restarts_as(&mut life, note, answer);
    life.end();
    restarted
}

fn restarts_as<C: Node>(life: &mut Life<C>, note: &str, answer: &str) -> Result<bool, Trouble> {
    let (number, shown) = first_word(answer);
    if number.parse::<u8>().ok() != Some(open_as(life, "restart")?) {
        return Ok(false);
    }
    match &life.node {
        Some(node) if !shown.is_empty() => Ok(node.is_opened_as(shown)),
        _ => life.still_says(note),
    }
}
