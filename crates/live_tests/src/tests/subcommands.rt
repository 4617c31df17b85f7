//! What no clause shows of `commands`: the printed texts, the exit statuses, the bounds of
//! reading, and which command lines are read.

mod jobs;
mod live_runs;
mod words;
mod world;

use std::alloc::{AllocError, Global};

/// A job and then line feeds, of so many bytes in all.
fn text_of_length(alloc: Global, length: usize) -> Result<Vec<u8>, AllocError> {
    let mut text = Vec::from_slice(alloc, b"[a]\nsize=4k\n")?;
    text.resize(length, b'\n')?;
    Ok(text)
}
