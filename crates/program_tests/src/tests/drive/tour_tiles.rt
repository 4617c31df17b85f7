//! Tours of as many tiles as may be open, and of tiles that each are a run of their own.

use super::inputs::{TWO_BLOCKS, Tell, input_of};
use super::tour_inputs::Word::*;
use super::tour_inputs::{ORDER, STATE, Word, push_word, tour, tour_of};
use fake_io::{Page, page_with, source_of};
use fc_base::{JobNo, RunNo};
use std::alloc::{AllocError, Global};
use std::io::BufReader;
use std::test::Fail;
use targets::write_job;

const BAD_NOTICE: &str = "refused 94 BadNotice\n";

const END_OF_INPUT: &str = "refused 95 EndOfInput\n";

/// A job of one write.
const ONE_WRITE: &[u8] = b"[a]\nrw=write\nbs=512\nsize=512\n";

/// Begins so many tiles, each as run 1, and then says these words.
fn many(alloc: Global, tiles: u64, words: &[Word]) -> Result<Vec<u8>, AllocError> {
    let mut input = tour_of(alloc, ONE_WRITE, &[])?;
    for tile in 0..tiles {
        push_word(&mut input, &Begin(tile, 1))?;
    }
    for word in words {
        push_word(&mut input, word)?;
    }
    Ok(input)
}

/// Whether so many bytes come of that, and this line behind them.
fn counts(alloc: Global, words: &[Word], bytes: usize, line: &str) -> Option<bool> {
    let input = many(alloc, 64, words).ok()?;
    let mut page = page_with(alloc, usize::MAX);
    let status = tour(alloc, 0, source_of(&input), &mut page)?;
    let text = page.text.as_slice();
    let rest = text.strip_suffix(line.as_bytes())?;
    Some(status == 2 && rest.len() == bytes)
}

/// How many bytes 64 orders have, and those of one more tile, where one is taken.
const ALL: usize = 64 * ORDER;

const ONE_MORE: usize = 65 * ORDER + STATE;

#[test]
fn at_most_64_tiles_are_open(rt: HostRuntime) -> Result<(), Fail> {
    let late = counts(rt.alloc(), &[Begin(64, 1)], ALL, "refused 61 Busy\n");
    let other = counts(rt.alloc(), &[Begin(65, 1)], ALL, BAD_NOTICE);
    let next = counts(rt.alloc(), &[Take(3), Begin(64, 1)], ONE_MORE, END_OF_INPUT);
    if (late, other, next) == (Some(true), Some(true), Some(true)) {
        Ok(())
    } else {
        Err(Fail::new("65 tiles"))
    }
}

/// What is told of two tiles, whose notices interleave, and of each by itself.
const WOVEN: [Word; 12] = [
    Begin(0, 7),
    Begin(1, 9),
    Done(1, 1),
    Done(0, 0),
    Done(1, 0),
    Done(1, 2),
    Done(0, 2),
    Failed(1, 3),
    Done(0, 1),
    Take(1),
    Done(0, 3),
    Take(0),
];

const OF_EACH: [(u64, &[Tell]); 2] = [
    (
        7,
        &[
            Tell::Done(0),
            Tell::Done(2),
            Tell::Done(1),
            Tell::Done(3),
            Tell::Take,
        ],
    ),
    (
        9,
        &[
            Tell::Done(1),
            Tell::Done(0),
            Tell::Done(2),
            Tell::Failed(3),
            Tell::Take,
        ],
    ),
];

/// What a run writes by itself.
fn run_alone(alloc: Global, run: u64, told: &[Tell]) -> Option<Page> {
    let input = input_of(alloc, TWO_BLOCKS, told).ok()?;
    let mut reader = BufReader::new(alloc, source_of(&input)).ok()?;
    let mut page = page_with(alloc, usize::MAX);
    if run == 0 {
        return None;
    }
    let status = write_job(alloc, RunNo(run), JobNo(0), &mut reader, &mut page).ok()?;
    (status == 0).then_some(page)
}

/// What a tour writes of a tile, without the tile's number: its orders and its state.
fn part_of(alloc: Global, text: &[u8], tile: u64) -> Option<Vec<u8>> {
    let mut part = Vec::new(alloc);
    let mut rest = text;
    for _ in 0..text.len() {
        if rest.is_empty() {
            break;
        }
        let (bytes, number, behind) = if rest.starts_with(b"FCV2") {
            (rest.get(..136)?, rest.get(136..144)?, rest.get(144..)?)
        } else {
            (rest.get(8..ORDER)?, rest.get(..8)?, rest.get(ORDER..)?)
        };
        if number == tile.to_be_bytes().as_slice() {
            part.extend_from_slice(bytes).ok()?;
        }
        rest = behind;
    }
    Some(part)
}

/// Whether a tour writes of each tile what a run of its own notices writes.
fn are_runs(alloc: Global) -> Option<bool> {
    let input = tour_of(alloc, TWO_BLOCKS, &WOVEN).ok()?;
    let mut page = page_with(alloc, usize::MAX);
    let status = tour(alloc, 0, source_of(&input), &mut page)?;
    let mut agree = status == 0;
    for (tile, (run, told)) in OF_EACH.iter().enumerate() {
        let alone = run_alone(alloc, *run, told)?;
        let part = part_of(alloc, page.text.as_slice(), tile as u64)?;
        agree = agree && part.as_slice() == alone.text.as_slice();
    }
    Some(agree)
}

#[test]
fn each_tile_is_a_run(rt: HostRuntime) -> Result<(), Fail> {
    if are_runs(rt.alloc()) == Some(true) {
        Ok(())
    } else {
        Err(Fail::new("a tile and its run"))
    }
}
