//! A mirror that keeps as many states as it can.

use super::told::Told;
use crate::tests::shared::{AllCopies, Failing, NONE_FAILS, Trouble, holds_once_on};
use std::alloc::Global;

/// What comes of a Fetch of the generation of the note: it is granted (FC, 1, 21, from 9 to 8, 8 bytes, which
/// are those of generation 2), and then come the copies (FC, 1, 18, from 9 to 8, 136 bytes).
pub const FETCHED: AllCopies = AllCopies {
    opening: "restart",
    event: "Fetch 2",
    front: Some(b"FC\x01\x15\0\0\0\x09\0\0\0\x08\0\0\0\x08\0\0\0\0\0\0\0\x02"),
    head: b"FC\x01\x12\0\0\0\x09\0\0\0\x08\0\0\0\x88",
};

/// The first save fails, and leaves the old bytes.
const FIRST_FAILS: Failing = Failing {
    at: 0,
    landed: false,
};

/// Whether a mirror is restarted over this note, and then answers the rows.
pub fn holds(alloc: Global, note: &str, rows: &str) -> Result<bool, Trouble> {
    holds_once_on::<Told>(alloc, note, "restart", NONE_FAILS, rows)
}

/// Whether a mirror over this note, whose first save fails, answers the rows. A save that finds no memory
/// counts as one: then they are told anew.
pub fn fails(alloc: Global, note: &str, rows: &str) -> Result<bool, Trouble> {
    Ok(fails_once(alloc, note, rows)? || fails_once(alloc, note, rows)?)
}

fn fails_once(alloc: Global, note: &str, rows: &str) -> Result<bool, Trouble> {
    holds_once_on::<Told>(alloc, note, "restart", FIRST_FAILS, rows)
}
