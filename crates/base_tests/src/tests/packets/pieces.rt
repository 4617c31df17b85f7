//! Packets that are too long for one frame.

use super::*;
use messages::{Assembly, Frame, Frames, Piece, decode_frame, frames_of};
use std::test::Fail;

/// How many bytes of a body a piece has at most.
const PART: usize = 1_024;

/// The frames of a text of so many letters, in a run.
pub(super) fn frames_of_letters(alloc: Global, run: u64, count: usize) -> Option<Frames> {
    let packet = packet_of_letters(alloc, run, count)?;
    frames_of(alloc, &packet).ok()
}

/// Whether frames have these lengths.
fn have_lengths(frames: &Frames, lens: &[usize]) -> bool {
    let mut agree = frames.len() == lens.len();
    for (index, len) in lens.iter().enumerate() {
        agree = agree && has_length(frames.get(index), *len);
    }
    agree
}

fn has_length(frame: Option<&[u8]>, len: usize) -> bool {
    match frame {
        Some(frame) => frame.len() == len,
        None => false,
    }
}

/// Whether the frames of a text of so many letters have these lengths.
fn goes_out_in(alloc: Global, count: usize, lens: &[usize]) -> bool {
    match frames_of_letters(alloc, 1, count) {
        Some(frames) => have_lengths(&frames, lens),
        None => false,
    }
}

/// How many letters a text has, and how long its frames are.
static LENGTHS: [(usize, &[usize]); 3] = [
    (2_000, &[1_073, 1_033]),
    (1_016, &[1_040]),
    (1_017, &[1_073, 50]),
];

#[test]
fn long_texts_go_out_in_pieces(rt: HostRuntime) -> Result<(), Fail> {
    for (count, lens) in &LENGTHS {
        if !goes_out_in(rt.alloc(), *count, lens) {
            return Err(Fail::new(*count));
        }
    }
    Ok(())
}

/// The piece that these bytes are.
pub(super) fn piece_in(alloc: Global, bytes: &[u8]) -> Option<Piece> {
    match decode_frame(alloc, bytes) {
        Ok(Frame::Piece(piece)) => Some(piece),
        Ok(Frame::Whole(packet)) => {
            drop(packet);
            None
        }
        Err(_) => None,
    }
}

/// The number of jobs, and a verify state in layout 1 up to the list of its 116 completions.
const OLD_STATE: &[u8] = b"\0\0\0\x01FCV1\0\0\0\0\0\0\0\x01\0\0\0\0\0\0\0\0\0\0\0\0\
    \0\0\x02\0\0\0\0\x02\0\0\0\0\0\0\0\xc8\0\0\0\0\0\0\0\x01\
    \0\0\0\x3a\0\0\0\x3a\0\0\0\0\0\0\0\x74\
    \xcf\xc5\xd0\x7f\x6f\x03\xc2\x9b\xbf\x42\x41\x32\x96\x3f\xe0\x8d\
    \x19\xa3\x7d\x57\x57\xaa\xf5\x20\xbf\x08\x11\x9f\x05\xcd\x56\xd6\
    \0\0\0\x74";

/// A verify state in layout 1 with the writes 0 to 115 done, behind the number of jobs.
pub(super) fn old_state(alloc: Global) -> Option<Vec<u8>> {
    let mut bytes = Vec::from_slice(alloc, OLD_STATE).ok()?;
    for seq in 0..116u64 {
        bytes.extend_from_slice(&seq.to_be_bytes()).ok()?;
    }
    Some(bytes)
}

/// The same with another last byte.
fn other_state(alloc: Global) -> Option<Vec<u8>> {
    let mut bytes = old_state(alloc)?;
    *bytes.last_mut()? = 0;
    Some(bytes)
}

/// The bodies that steps name by their numbers: a state, another, and zeros.
fn body(alloc: Global, number: u8) -> Option<Vec<u8>> {
    match number {
        0 => old_state(alloc),
        1 => other_state(alloc),
        _ => vec![in alloc; 0u8; 1_032].ok(),
    }
}

/// The frame of a piece of a State of run 1, server 0 and job 0, with this part of a body of 1,032 bytes.
fn state_frame(alloc: Global, at: u32, part: &[u8]) -> Option<Vec<u8>> {
    let ends: &[u8] = b"FC\x01\x11\0\0\0\0\0\0\0\x08\0\0";
    let length: &[u8] = if at == 0 { b"\x04\x21" } else { b"\0\x29" };
    let tag: &[u8] = b"\x06\0\0\0\0\0\0\0\x01\0\0\0\0\0\0\0\0\0\0\0\0\0\0\0\0\0\0\x04\x08";
    joined(alloc, &[ends, length, tag, &at.to_be_bytes(), part])
}

/// The piece of such a body at a place.
fn state_piece(alloc: Global, body: &[u8], at: u32) -> Option<Piece> {
    let (first, last) = body.split_at(PART.min(body.len()));
    let part = if at == 0 { first } else { last };
    let frame = state_frame(alloc, at, part)?;
    piece_in(alloc, &frame)
}

/// The number of a body, the place of its piece that is looked at and then taken, and the answer: 0 for
/// nothing yet, 1 for a packet, else the fault's number.
type Step = (u8, u32, u8);

fn piece_of(alloc: Global, step: Step) -> Option<Piece> {
    let (number, at, _) = step;
    let body = body(alloc, number)?;
    state_piece(alloc, &body, at)
}

/// What looking at a piece answers, where a packet has this frame; 2 for another packet.
fn answer_to(alloc: Global, kept: &Assembly, piece: &Piece, frame: &[u8]) -> u8 {
    match kept.look(piece) {
        Ok(None) => 0,
        Ok(Some(packet)) => {
            let same = has_frame(alloc, &packet, frame);
            drop(packet);
            if same { 1 } else { 2 }
        }
        Err(fault) => fault.number(),
    }
}

fn is_answered(alloc: Global, kept: &mut Assembly, step: Step, frame: &[u8]) -> bool {
    let (_, _, answer) = step;
    let Some(piece) = piece_of(alloc, step) else {
        return false;
    };
    let agree = answer_to(alloc, kept, &piece, frame) == answer && kept.take(&piece).is_ok();
    drop(piece);
    agree
}

/// Whether the steps are answered so, one after the other.
fn are_answered(alloc: Global, kept: &mut Assembly, steps: &[Step], frame: &[u8]) -> bool {
    let mut agree = true;
    for step in steps {
        agree = agree && is_answered(alloc, kept, *step, frame);
    }
    agree
}

/// The frame of a State with a body of 1,032 bytes.
fn long_frame(alloc: Global, body: &[u8]) -> Option<Vec<u8>> {
    let header: &[u8] = b"FC\x01\x06\0\0\0\0\0\0\0\x08\0\0\x04\x08";
    joined(alloc, &[header, body])
}

/// The frame in layout 2 of the state that the whole body says.
fn whole_frame(alloc: Global) -> Option<Vec<u8>> {
    let body = old_state(alloc)?;
    let frame = long_frame(alloc, &body)?;
    written_again(alloc, &frame)
}

/// Whether the steps are answered so, where a packet is the state.
fn come_together(alloc: Global, steps: &[Step]) -> bool {
    let Some(frame) = whole_frame(alloc) else {
        return false;
    };
    let mut kept = Assembly::new(alloc);
    let agree = are_answered(alloc, &mut kept, steps, &frame);
    drop(kept);
    agree
}

static STEPS: [&[Step]; 4] = [
    &[(0, 1_024, 0), (0, 1_024, 0), (0, 0, 1), (0, 0, 0)],
    &[(0, 0, 0), (1, 0, 0), (0, 1_024, 1), (0, 1_024, 0)],
    &[(0, 1_024, 0), (1, 1_024, 0), (0, 0, 1)],
    &[(2, 0, 0), (2, 1_024, 43), (0, 1_024, 0), (0, 0, 1)],
];

#[test]
fn states_come_together(rt: HostRuntime) -> Result<(), Fail> {
    for (row, steps) in STEPS.iter().enumerate() {
        if !come_together(rt.alloc(), steps) {
            return Err(Fail::new(row));
        }
    }
    Ok(())
}

/// The first or the last of the two pieces of a text, in a run.
fn piece_of_letters(alloc: Global, run: u64, index: usize) -> Option<Piece> {
    let frames = frames_of_letters(alloc, run, PART)?;
    piece_in(alloc, frames.get(index)?)
}

fn takes_first(alloc: Global, kept: &mut Assembly, run: u64) -> bool {
    match piece_of_letters(alloc, run, 0) {
        Some(piece) => kept.take(&piece).is_ok(),
        None => false,
    }
}

/// Takes the first of two pieces in each of so many runs.
fn takes_firsts(alloc: Global, kept: &mut Assembly, runs: u64) -> bool {
    let mut taken = true;
    for run in 1..=runs {
        taken = taken && takes_first(alloc, kept, run);
    }
    taken
}

/// Whether the last of two pieces completes a run.
fn is_completed(alloc: Global, kept: &Assembly, run: u64) -> Option<bool> {
    let piece = piece_of_letters(alloc, run, 1)?;
    gives_packet(kept, &piece)
}

fn gives_packet(kept: &Assembly, piece: &Piece) -> Option<bool> {
    match kept.look(piece) {
        Ok(given) => Some(given.is_some()),
        Err(_) => None,
    }
}

/// Whether the runs 1 and 2 are completed, behind the first pieces of so many runs.
fn completed_after(alloc: Global, runs: u64) -> (Option<bool>, Option<bool>) {
    let mut kept = Assembly::new(alloc);
    let completed = completed_in(alloc, &mut kept, runs);
    drop(kept);
    completed
}

fn completed_in(alloc: Global, kept: &mut Assembly, runs: u64) -> (Option<bool>, Option<bool>) {
    if takes_firsts(alloc, kept, runs) {
        (is_completed(alloc, kept, 1), is_completed(alloc, kept, 2))
    } else {
        (None, None)
    }
}

#[test]
fn the_oldest_tag_is_dropped(rt: HostRuntime) {
    let completed = completed_after(rt.alloc(), 129);
    assert!(rt; completed == (Some(false), Some(true)));
}
