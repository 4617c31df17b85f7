//! Frames that rows say as changes of those of a mirror.

use super::mirror_changes::{MIRROR_CHANGES, PIECES};
use super::sweeps::{Reader, outcome_by};
use super::vectors::MIRRORED;
use super::*;
use std::test::Fail;

/// The frame of the words of a row: the first of that kind in `MIRRORED`, with these changes.
fn frame_in(alloc: Global, words: &str) -> Option<Vec<u8>> {
    let mut words = words.split_whitespace();
    let mut bytes = Vec::from_slice(alloc, frame_of(words.next()?)?).ok()?;
    for word in words {
        change(alloc, &mut bytes, word)?;
    }
    Some(bytes)
}

fn frame_of(kind: &str) -> Option<&'static [u8]> {
    for (name, frame) in &MIRRORED {
        if *name == kind {
            return Some(*frame);
        }
    }
    None
}

/// Makes the change that a word says.
fn change(alloc: Global, bytes: &mut Vec<u8>, word: &str) -> Option<()> {
    if let Some((place, digits)) = word.split_once('=') {
        let mut new = Vec::new(alloc);
        put_hex(&mut new, digits)?;
        return put_at(bytes, place.parse::<usize>().ok()?, &new);
    }
    match word.strip_prefix("+") {
        Some(digits) => put_hex(bytes, digits),
        None => cut(bytes, word.strip_prefix("-")?),
    }
}

fn put_at(bytes: &mut [u8], place: usize, new: &[u8]) -> Option<()> {
    for (at, byte) in new.iter().enumerate() {
        let slot = bytes.get_mut(place.checked_add(at)?)?;
        *slot = *byte;
    }
    Some(())
}

fn cut(bytes: &mut Vec<u8>, count: &str) -> Option<()> {
    let kept = bytes.len().checked_sub(count.parse::<usize>().ok()?)?;
    bytes.truncate(kept);
    Some(())
}

/// Puts the bytes that hexadecimal digits say.
fn put_hex(bytes: &mut Vec<u8>, digits: &str) -> Option<()> {
    for part in digits.split('_') {
        let (part, times) = match part.split_once('*') {
            Some((part, times)) => (part, times.parse::<u32>().ok()?),
            None => (part, 1),
        };
        for _ in 0..times {
            put_digits(bytes, part)?;
        }
    }
    Some(())
}

fn put_digits(bytes: &mut Vec<u8>, digits: &str) -> Option<()> {
    let mut high = None;
    for digit in digits.chars() {
        let digit = digit.to_digit(16)?;
        high = match high {
            None => Some(digit),
            Some(high) => {
                let byte = u8::try_from(high.wrapping_mul(16).wrapping_add(digit)).ok()?;
                bytes.push(byte).ok()?;
                None
            }
        };
    }
    Some(())
}

/// What becomes of a frame where it is read as a packet, and as a frame of a network.
fn outcomes(alloc: Global, words: &str) -> Option<(u8, u8)> {
    let frame = frame_in(alloc, words)?;
    let packet = outcome_by(alloc, Reader::Packets, &frame);
    Some((packet, outcome_by(alloc, Reader::Frames, &frame)))
}

/// Whether this becomes of the frame of a row. One that can't be read is none.
fn is_as_said(alloc: Global, row: &str) -> bool {
    let Some((words, numbers)) = row.split_once("=>") else {
        return row.is_empty();
    };
    let Some(wanted) = numbers_in(numbers) else {
        return false;
    };
    outcomes(alloc, words) == Some(wanted)
}

fn numbers_in(words: &str) -> Option<(u8, u8)> {
    let (packet, frame) = words.trim().split_once(' ')?;
    Some((packet.parse::<u8>().ok()?, frame.parse::<u8>().ok()?))
}

/// The first row of a table of which something else becomes.
fn first_unlike(alloc: Global, rows: &'static str) -> Option<&'static str> {
    rows.lines().find(|row| !is_as_said(alloc, row))
}

#[test]
fn changed_frames_of_a_mirror(rt: HostRuntime) -> Result<(), Fail> {
    match first_unlike(rt.alloc(), MIRROR_CHANGES) {
        Some(row) => Err(Fail::new(row)),
        None => Ok(()),
    }
}

#[test]
fn pieces_to_the_byte(rt: HostRuntime) -> Result<(), Fail> {
    match first_unlike(rt.alloc(), PIECES) {
        Some(row) => Err(Fail::new(row)),
        None => Ok(()),
    }
}
