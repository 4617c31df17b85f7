//! The inputs of a run: a job file behind its length, and notices.

use std::alloc::{AllocError, Global};

/// What is told: that a write is done or has failed, that the state is to be taken, or other bytes.
#[derive(Clone, Copy)]
pub(super) enum Tell {
    Done(u64),
    Failed(u64),
    Take,
    Bytes(&'static [u8]),
}

use Tell::*;

/// Four writes to two blocks, two of them in flight at once.
pub(super) const TWO_BLOCKS: &[u8] = b"[a]\nrw=write\nbs=512\nsize=1k\nio_size=2k\niodepth=2\n";

/// Adds a text behind its length.
pub(super) fn push_text(bytes: &mut Vec<u8>, text: &[u8]) -> Result<(), AllocError> {
    let length = text.len().min(65_536) as u32;
    bytes.extend_from_slice(&length.to_be_bytes())?;
    bytes.extend_from_slice(text)
}

/// Adds two numbers of eight bytes.
fn push_numbers(bytes: &mut Vec<u8>, first: u64, second: u64) -> Result<(), AllocError> {
    bytes.extend_from_slice(&first.to_be_bytes())?;
    bytes.extend_from_slice(&second.to_be_bytes())
}

/// Adds what is told.
fn push_told(bytes: &mut Vec<u8>, tell: &Tell) -> Result<(), AllocError> {
    match tell {
        Done(write) => push_numbers(bytes, 1, *write),
        Failed(write) => push_numbers(bytes, 2, *write),
        Take => push_numbers(bytes, 3, 0),
        Bytes(other) => bytes.extend_from_slice(other),
    }
}

/// A job file behind its length, and what is told of its writes.
pub(super) fn input_of(alloc: Global, text: &[u8], told: &[Tell]) -> Result<Vec<u8>, AllocError> {
    let mut bytes = Vec::new(alloc);
    push_text(&mut bytes, text)?;
    for tell in told {
        push_told(&mut bytes, tell)?;
    }
    Ok(bytes)
}
