//! What a mirror shows, and what rows say of it.

use crate::tests::shared::{Trouble, is_state, next_key};
use disk_model::FaultNotes;
use fc_base::Key;
use mirror_core::Mirror;
use std::alloc::Global;

/// Whether a row with this word asks for what the mirror shows.
pub fn is_look(word: &str) -> bool {
    matches!(word, "on" | "generation" | "kept")
}

/// Whether the mirror shows what the words say of this.
pub fn shows(
    alloc: Global,
    mirror: &Mirror<FaultNotes>,
    word: &str,
    of: &str,
    words: &str,
) -> Result<bool, Trouble> {
    match word {
        "on" => Ok(words == if mirror.on() { "1" } else { "0" }),
        "generation" => Ok(words.parse::<u64>().ok() == Some(mirror.generation())),
        "kept" => is_state(alloc, mirror.kept(key_in(of)?), words),
        _ => Err(Trouble::BadRow),
    }
}

/// The key of this run, server and job.
fn key_in(words: &str) -> Result<Key, Trouble> {
    next_key(&mut words.split_whitespace()).ok_or(Trouble::BadRow)
}
