//! The inputs of a tour, and what it writes: words of 24 bytes, and orders and states that say their tile.

use super::inputs::push_text;
use super::stamps::push_stamp_of;
use fake_io::{Page, Source};
use fc_base::{JobNo, RunNo, Seq};
use std::alloc::{AllocError, Global};
use std::io::BufReader;
use targets::tour_job;
use verify_state::VerifyState;

/// What is told of a tile, which comes first: that it is begun as a run, that a write of it is done or has failed, that
/// its state is to be taken; or other bytes.
#[derive(Clone, Copy)]
pub(super) enum Word {
    Begin(u64, u64),
    Done(u64, u64),
    Failed(u64, u64),
    Take(u64),
    Bytes(&'static [u8]),
}

use Word::*;

/// What is written of a tile, which comes first, and its run: an order of a write to a block, or a state with so many
/// writes issued, of which these were done.
#[derive(Clone, Copy)]
pub(super) enum Piece {
    Order(u64, u64, u64, u64),
    State(u64, u64, u64, &'static [u64]),
}

use Piece::*;

/// How many bytes an order and a state have, where a block has 512.
pub(super) const ORDER: usize = 24 + 512;

pub(super) const STATE: usize = 136 + 8;

/// Adds three numbers of eight bytes.
fn push_numbers(bytes: &mut Vec<u8>, numbers: [u64; 3]) -> Result<(), AllocError> {
    for number in &numbers {
        bytes.extend_from_slice(&number.to_be_bytes())?;
    }
    Ok(())
}

/// Adds a word.
pub(super) fn push_word(bytes: &mut Vec<u8>, word: &Word) -> Result<(), AllocError> {
    match word {
        Begin(tile, run) => push_numbers(bytes, [4, *tile, *run]),
        Done(tile, write) => push_numbers(bytes, [1, *tile, *write]),
        Failed(tile, write) => push_numbers(bytes, [2, *tile, *write]),
        Take(tile) => push_numbers(bytes, [3, *tile, 0]),
        Bytes(other) => bytes.extend_from_slice(other),
    }
}

/// A job file behind its length, and words.
pub(super) fn tour_of(alloc: Global, text: &[u8], words: &[Word]) -> Result<Vec<u8>, AllocError> {
    let mut bytes = Vec::new(alloc);
    push_text(&mut bytes, text)?;
    for word in words {
        push_word(&mut bytes, word)?;
    }
    Ok(bytes)
}

/// The bytes of an order.
fn order_of(alloc: Global, numbers: [u64; 3], run: u64) -> Result<Vec<u8>, AllocError> {
    let mut bytes = Vec::new(alloc);
    push_numbers(&mut bytes, numbers)?;
    push_stamp_of(&mut bytes, run, numbers[1], numbers[2])?;
    Ok(bytes)
}

/// Whether a state is of this run, and counts just these of the writes that it tells of.
fn is_state(bytes: &[u8], run: u64, issued: u64, done: &[u64]) -> bool {
    match VerifyState::decode(bytes) {
        Ok(state) => {
            let mut agree = state.issued() == issued && state.key().run == RunNo(run);
            for write in 0..issued {
                agree = agree && state.counts(Seq(write)) == done.contains(&write);
            }
            agree
        }
        Err(_) => false,
    }
}

/// How many bytes a text that begins with this piece has of it; `None` where it begins otherwise.
fn piece_in(alloc: Global, text: &[u8], piece: &Piece) -> Option<usize> {
    match piece {
        Order(tile, run, write, block) => {
            let wanted = order_of(alloc, [*tile, *write, *block], *run).ok()?;
            text.starts_with(&wanted).then_some(ORDER)
        }
        State(tile, run, issued, done) => {
            let state = text.get(..136)?;
            let number = text.get(136..STATE)?;
            (is_state(state, *run, *issued, done)
                && number == tile.to_be_bytes().as_slice()).then_some(STATE)
        }
    }
}

/// What stands behind these pieces, with which a text begins.
pub(super) fn behind_pieces<'a>(
    alloc: Global,
    text: &'a [u8],
    pieces: &[Piece],
) -> Option<&'a [u8]> {
    let mut rest = text;
    for piece in pieces {
        let count = piece_in(alloc, rest, piece)?;
        rest = rest.get(count..)?;
    }
    Some(rest)
}

/// Tours job `job` of an input, and answers the status, unless a write fails.
pub(super) fn tour(alloc: Global, job: u32, source: Source<'_>, page: &mut Page) -> Option<u8> {
    let mut reader = BufReader::new(alloc, source).ok()?;
    if job >= 16 {
        return None;
    }
    tour_job(alloc, JobNo(job), &mut reader, page).ok()
}
