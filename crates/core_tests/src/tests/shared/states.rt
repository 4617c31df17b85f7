//! The states that nodes show.

use super::draft::Draft;
use super::named::put_word;
use super::trouble::Trouble;
use std::alloc::Global;
use verify_state::VerifyState;

/// Whether the state's bytes are those of the word; `none` says that there is no state.
pub fn is_state(alloc: Global, state: Option<&VerifyState>, word: &str) -> Result<bool, Trouble> {
    match state {
        Some(state) => has_bytes(alloc, state, word),
        None => Ok(word == "none"),
    }
}

fn has_bytes(alloc: Global, state: &VerifyState, word: &str) -> Result<bool, Trouble> {
    let bytes = state.encode(alloc)?;
    are_named(alloc, bytes.as_slice(), word)
}

fn are_named(alloc: Global, bytes: &[u8], word: &str) -> Result<bool, Trouble> {
    let mut wanted = Draft::new(alloc);
    put_word(&mut wanted, word);
    wanted.has_just(bytes)
}
