//! Frames of which each byte in turn is changed to each other one: how many of the changes come to what, as
//! another program counted them.

use super::changed_pieces::{outcome, outcome_of, piece_of_letters};
use super::run::RUN;
use super::vectors::MIRRORED;
use super::*;
use std::test::Fail;

/// How many changes are read, and written as those very bytes, and how many are refused by each number from 40
/// to 45.
pub(super) type Counts = [u32; 7];

/// What reads the bytes.
#[derive(Clone, Copy)]
pub(super) enum Reader {
    /// `decode`, of packets alone.
    Packets,
    /// `decode_frame`, of packets and of pieces.
    Frames,
}

/// How many bytes of a piece stand before its part of the body.
const FRONT: usize = 49;

/// What the changes of the fronts of two pieces come to. Whatever stands behind them is read.
const FRONTS: [Counts; 2] = [
    [2_372, 0, 765, 235, 8_103, 983, 37],
    [2_060, 6, 765, 235, 8_415, 762, 252],
];

/// What the changes of the frames to and from a mirror come to, in the order of the vectors: a Copy each way, a
/// CopyOk, a Fetch and a Granted.
const MIRROR: [(Counts, Counts); 5] = [
    (
        [13_700, 182, 765, 236, 23_039, 702, 136],
        [13_700, 122, 765, 235, 23_040, 762, 136],
    ),
    (
        [13_700, 182, 765, 236, 23_039, 702, 136],
        [13_700, 122, 765, 235, 23_040, 762, 136],
    ),
    (
        [2_082, 303, 765, 236, 4_057, 701, 16],
        [2_082, 243, 765, 235, 4_058, 761, 16],
    ),
    (
        [1_043, 311, 765, 236, 3_056, 701, 8],
        [1_043, 251, 765, 235, 3_057, 761, 8],
    ),
    (
        [1_044, 311, 765, 236, 3_055, 701, 8],
        [1_044, 251, 765, 235, 3_056, 761, 8],
    ),
];

/// What reading bytes comes to: 0 for what is written as these very bytes, 1 for another, else the number of
/// the refusal.
pub(super) fn outcome_by(alloc: Global, reader: Reader, bytes: &[u8]) -> u8 {
    match reader {
        Reader::Packets => outcome_as_packet(alloc, bytes),
        Reader::Frames => outcome(alloc, bytes),
    }
}

fn outcome_as_packet(alloc: Global, bytes: &[u8]) -> u8 {
    match decode(alloc, bytes) {
        Ok(packet) => {
            let again = encode(alloc, &packet);
            drop(packet);
            outcome_of(again, bytes)
        }
        Err(fault) => fault.number(),
    }
}

/// The place of an outcome in the counts, if it has one.
fn place_of(outcome: u8) -> Option<usize> {
    match outcome {
        0 => Some(0),
        40..=45 => Some(usize::from(outcome - 39)),
        _ => None,
    }
}

/// Counts one more at this place, if it is one.
fn count(counts: &mut Counts, place: Option<usize>) -> bool {
    match place.and_then(|place| counts.get_mut(place)) {
        Some(count) => {
            *count = count.saturating_add(1);
            true
        }
        None => false,
    }
}

/// Counts the changes of the byte at this place, and whether each had its place. The bytes are left as they were.
fn count_changes(
    alloc: Global,
    reader: Reader,
    bytes: &mut [u8],
    at: usize,
    counts: &mut Counts,
) -> bool {
    if at >= bytes.len() {
        return false;
    }
    let old = bytes[at];
    let mut agree = true;
    for bits in 1..=u8::MAX {
        bytes[at] = old ^ bits;
        agree = count(counts, place_of(outcome_by(alloc, reader, bytes))) && agree;
    }
    bytes[at] = old;
    agree
}

/// What the changes of the first bytes of a frame come to. `None` where one has no place in the counts.
fn swept(alloc: Global, reader: Reader, frame: &[u8], length: usize) -> Option<Counts> {
    let mut bytes = Vec::from_slice(alloc, frame).ok()?;
    let mut counts = [0; 7];
    let mut agree = true;
    for at in 0..length {
        agree = count_changes(alloc, reader, &mut bytes, at, &mut counts) && agree;
    }
    agree.then_some(counts)
}

/// Whether each front of a frame is too short.
fn are_short(alloc: Global, reader: Reader, frame: &[u8]) -> bool {
    let mut agree = true;
    for length in 0..frame.len() {
        agree = outcome_by(alloc, reader, &frame[..length]) == 40 && agree;
    }
    agree
}

/// Whether each front of a frame is too short, and its changes come to this, by both readers.
fn is_swept(alloc: Global, frame: &[u8], packets: &Counts, frames: &Counts) -> bool {
    let mut agree = true;
    for (reader, wanted) in [(Reader::Packets, packets), (Reader::Frames, frames)] {
        agree = are_short(alloc, reader, frame) && agree;
        agree = swept(alloc, reader, frame, frame.len()) == Some(*wanted) && agree;
    }
    agree
}

#[test]
fn changes_of_the_frames_of_a_run(rt: HostRuntime) -> Result<(), Fail> {
    for (index, (frame, packets, frames)) in RUN.iter().enumerate() {
        if !is_swept(rt.alloc(), frame, packets, frames) {
            return Err(Fail::new(index));
        }
    }
    Ok(())
}

#[test]
fn changes_of_the_frames_of_a_mirror(rt: HostRuntime) -> Result<(), Fail> {
    for ((name, frame), (packets, frames)) in MIRRORED.iter().zip(&MIRROR) {
        if !is_swept(rt.alloc(), frame, packets, frames) {
            return Err(Fail::new(*name));
        }
    }
    Ok(())
}

/// What the changes of the front of a piece come to.
fn front_swept(alloc: Global, index: usize) -> Option<Counts> {
    let bytes = piece_of_letters(alloc, index)?;
    swept(alloc, Reader::Frames, &bytes, FRONT)
}

#[test]
fn changes_of_the_fronts_of_pieces(rt: HostRuntime) -> Result<(), Fail> {
    for (index, wanted) in FRONTS.iter().enumerate() {
        if front_swept(rt.alloc(), index) != Some(*wanted) {
            return Err(Fail::new(index));
        }
    }
    Ok(())
}
