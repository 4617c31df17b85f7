//! The frames of a packet in two pieces, cut short and changed byte by byte.

use super::pieces::frames_of_letters;
use super::*;
use messages::{decode_frame, encode_frame};
use std::alloc::AllocError;
use std::test::Fail;

/// What reading bytes as a frame comes to: 0 for a frame that is written as these very bytes, 1 for another, else the
/// number of the refusal.
pub(super) fn outcome(alloc: Global, bytes: &[u8]) -> u8 {
    match decode_frame(alloc, bytes) {
        Ok(frame) => {
            let again = encode_frame(alloc, &frame);
            drop(frame);
            outcome_of(again, bytes)
        }
        Err(fault) => fault.number(),
    }
}

/// The same of the bytes as which a frame is written.
pub(super) fn outcome_of(again: Result<Vec<u8>, AllocError>, bytes: &[u8]) -> u8 {
    match again {
        Ok(again) if again.as_slice() == bytes => 0,
        _ => 1,
    }
}

/// Whether each prefix is refused as too short.
fn are_short(alloc: Global, frame: &[u8]) -> bool {
    let mut agree = true;
    for len in 0..frame.len() {
        agree = agree && outcome(alloc, &frame[..len]) == 40;
    }
    agree
}

/// The refusal or else 0 or 1, with another byte at this place. The bytes are left as they were.
fn outcome_with(alloc: Global, bytes: &mut [u8], at: usize, byte: u8) -> u8 {
    if at >= bytes.len() {
        return 1;
    }
    let old = bytes[at];
    bytes[at] = byte;
    let found = outcome(alloc, bytes);
    bytes[at] = old;
    found
}

/// Whether the bytes, of which each in turn is another, are a frame's own bytes or are refused by its reader.
fn are_read_or_refused(alloc: Global, bytes: &mut [u8], byte: u8) -> bool {
    let mut agree = true;
    for at in 0..bytes.len() {
        let found = outcome_with(alloc, bytes, at, byte);
        agree = agree && (found == 0 || (40..=45).contains(&found));
    }
    agree
}

/// Whether the bytes are refused as a bad field where they say that they are of a whole of any of these kinds.
fn are_of_no_whole(alloc: Global, bytes: &mut [u8], kinds: &[u8]) -> bool {
    let mut agree = true;
    for kind in kinds {
        agree = agree && outcome_with(alloc, bytes, 16, *kind) == 43;
    }
    agree
}

/// The bytes of a piece of a text.
pub(super) fn piece_of_letters(alloc: Global, index: usize) -> Option<Vec<u8>> {
    let frames = frames_of_letters(alloc, 1, 2_000)?;
    Vec::from_slice(alloc, frames.get(index)?).ok()
}

/// Whether each prefix of a piece is too short.
fn is_short_in_front(alloc: Global, index: usize) -> bool {
    match piece_of_letters(alloc, index) {
        Some(bytes) => are_short(alloc, &bytes),
        None => false,
    }
}

#[test]
fn fronts_of_pieces_are_short(rt: HostRuntime) -> Result<(), Fail> {
    for index in 0..2 {
        if !is_short_in_front(rt.alloc(), index) {
            return Err(Fail::new(index));
        }
    }
    Ok(())
}

/// Whether a piece is read or refused with each byte changed to this one.
fn is_read_or_refused(alloc: Global, index: usize, byte: u8) -> bool {
    match piece_of_letters(alloc, index) {
        Some(mut bytes) => are_read_or_refused(alloc, &mut bytes, byte),
        None => false,
    }
}

/// The same of both pieces.
fn both_are_read_or_refused(alloc: Global, byte: u8) -> bool {
    is_read_or_refused(alloc, 0, byte) && is_read_or_refused(alloc, 1, byte)
}

#[test]
fn each_byte_of_a_piece_changed(rt: HostRuntime) -> Result<(), Fail> {
    for byte in &CHANGED {
        if !both_are_read_or_refused(rt.alloc(), *byte) {
            return Err(Fail::new(*byte));
        }
    }
    Ok(())
}

/// Whether a piece is of no whole of these kinds.
fn is_of_no_whole(alloc: Global, index: usize, kinds: &[u8]) -> bool {
    match piece_of_letters(alloc, index) {
        Some(mut bytes) => are_of_no_whole(alloc, &mut bytes, kinds),
        None => false,
    }
}

#[test]
fn what_a_mirror_says_goes_in_no_pieces(rt: HostRuntime) -> Result<(), Fail> {
    for index in 0..2 {
        if !is_of_no_whole(rt.alloc(), index, &[18, 19, 20, 21]) {
            return Err(Fail::new(index));
        }
    }
    Ok(())
}
