//! Tours that can't read or write, that find no memory, and what they show before they wait.

use super::inputs::TWO_BLOCKS;
use super::tour_inputs::Word::*;
use super::tour_inputs::{ORDER, STATE, Word, tour, tour_of};
use fake_io::{failing, failing_at, held_output, in_steps, page_with, source_of};
use fc_base::JobNo;
use std::alloc::Global;
use std::io::BufReader;
use std::test::Fail;
use targets::tour_job;

/// Two tiles, both taken: they have five orders.
const TWO_TILES: [Word; 5] = [Begin(0, 7), Begin(1, 9), Done(1, 0), Take(0), Take(1)];

/// How many bytes these orders and states have.
const OUTPUT: usize = 5 * ORDER + 2 * STATE;

/// How a tour ends where the read of this number fails: with a line behind some of the orders and states.
fn fails_at_read(alloc: Global, number: u32) -> Option<bool> {
    let input = tour_of(alloc, TWO_BLOCKS, &TWO_TILES).ok()?;
    let mut page = page_with(alloc, usize::MAX);
    let status = tour(alloc, 0, failing_at(&input, 24, number), &mut page)?;
    let text = page.text.as_slice();
    Some(status == 2 && text.ends_with(b"refused 91 ReadError\n") && text.len() < OUTPUT + 21)
}

#[test]
fn failed_reads_of_a_tour(rt: HostRuntime) -> Result<(), Fail> {
    for number in 0..7 {
        if fails_at_read(rt.alloc(), number) != Some(true) {
            return Err(Fail::new(number));
        }
    }
    Ok(())
}

/// How a whole tour ends whose input fails where it would end.
fn fails_at_its_end(alloc: Global) -> Option<bool> {
    let input = tour_of(alloc, TWO_BLOCKS, &TWO_TILES).ok()?;
    let mut page = page_with(alloc, usize::MAX);
    let status = tour(alloc, 0, failing(&input, usize::MAX), &mut page)?;
    let text = page.text.as_slice();
    Some(status == 2 && text.ends_with(b"refused 91 ReadError\n") && text.len() == OUTPUT + 21)
}

#[test]
fn a_failed_read_in_place_of_the_end_of_a_tour(rt: HostRuntime) -> Result<(), Fail> {
    match fails_at_its_end(rt.alloc()) {
        Some(true) => Ok(()),
        _ => Err(Fail::new("a failed read")),
    }
}

#[test]
fn failed_writes_of_a_tour(rt: HostRuntime) -> Result<(), Fail> {
    let input = tour_of(rt.alloc(), TWO_BLOCKS, &TWO_TILES)?;
    for room in (0..OUTPUT).step_by(17) {
        let mut page = page_with(rt.alloc(), room);
        let status = tour(rt.alloc(), 0, source_of(&input), &mut page);
        if status.is_some() || page.late_writes != 0 {
            return Err(Fail::new(room));
        }
    }
    Ok(())
}

/// What is told, how often the output is flushed where each byte comes by itself, and how many bytes are shown then:
/// once before each word is waited for and before the end of the input, and once behind that or the line of a refusal.
static FLUSHES: [(&str, &[Word], u32, usize); 4] = [
    ("nothing", &[], 2, 0),
    ("two tiles", &TWO_TILES, 7, OUTPUT),
    ("an open tile", &[Begin(0, 7)], 3, 2 * ORDER + 22),
    (
        "a second end",
        &[Begin(0, 7), Take(0), Take(0)],
        4,
        2 * ORDER + STATE + 23,
    ),
];

/// Whether so much is shown, after so many flushes, and nothing is kept back.
fn shows(alloc: Global, words: &[Word], flushes: u32, bytes: usize) -> Option<bool> {
    let mut output = held_output(alloc);
    let input = tour_of(alloc, TWO_BLOCKS, words).ok()?;
    let mut reader = BufReader::new(alloc, in_steps(&input, 1)).ok()?;
    let status = tour_job(alloc, JobNo(0), &mut reader, &mut output).ok();
    Some(
        status.is_some()
            && output.held.is_empty()
            && output.flushes == flushes
            && output.shown.len() == bytes,
    )
}

#[test]
fn tours_are_flushed(rt: HostRuntime) -> Result<(), Fail> {
    for (name, words, flushes, bytes) in &FLUSHES {
        if shows(rt.alloc(), words, *flushes, *bytes) != Some(true) {
            return Err(Fail::new(*name));
        }
    }
    Ok(())
}

/// Whether a tour fails where the flush of its output does.
fn fails_to_flush(alloc: Global, words: &[Word]) -> Option<bool> {
    let mut output = held_output(alloc);
    output.fails = true;
    let input = tour_of(alloc, TWO_BLOCKS, words).ok()?;
    let mut reader = BufReader::new(alloc, source_of(&input)).ok()?;
    let status = tour_job(alloc, JobNo(0), &mut reader, &mut output);
    Some(status.is_err() && output.flushes == 1)
}

#[test]
fn failed_flushes_of_tours(rt: HostRuntime) -> Result<(), Fail> {
    let whole = fails_to_flush(rt.alloc(), &TWO_TILES);
    let refused = fails_to_flush(rt.alloc(), &[Begin(1, 7)]);
    if (whole, refused) == (Some(true), Some(true)) {
        Ok(())
    } else {
        Err(Fail::new("a flush"))
    }
}

/// Whether a text ends in a line that tells of want of memory, and the rest is whole orders and states, at most so many
/// of each.
fn wants_memory(text: &[u8]) -> bool {
    let Some(rest) = text
        .strip_suffix(b"refused 35 NoMemory\n".as_slice())
        .or(text.strip_suffix(b"refused 12 NoMemory\n".as_slice()))
    else {
        return false;
    };
    let mut is_whole = false;
    for states in 0..3 {
        for orders in 0..6 {
            is_whole = is_whole || rest.len() == orders * ORDER + states * STATE;
        }
    }
    is_whole
}

/// Whether a tour is answered whole, or else refused for want of memory behind whole orders and states; or the output
/// itself has none. What the test asks for may be missing, too.
fn stands_want(alloc: Global) -> bool {
    let Ok(input) = tour_of(alloc, TWO_BLOCKS, &TWO_TILES) else {
        return true;
    };
    let Ok(mut reader) = BufReader::new(alloc, source_of(&input)) else {
        return true;
    };
    let mut page = page_with(alloc, usize::MAX);
    let answer = tour_job(alloc, JobNo(0), &mut reader, &mut page);
    let text = page.text.as_slice();
    match answer {
        Ok(0) => text.len() == OUTPUT,
        Ok(2) => wants_memory(text),
        Ok(_) => false,
        Err(_) => text.len() < OUTPUT,
    }
}

#[test]
fn want_of_memory_of_a_tour(rt: HostRuntime) -> Result<(), Fail> {
    if stands_want(rt.alloc()) {
        Ok(())
    } else {
        Err(Fail::new("want of memory"))
    }
}
