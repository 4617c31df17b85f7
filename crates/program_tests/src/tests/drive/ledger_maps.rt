//! A check by a ledger that asks for nothing tells of one run what a map tells: here are the rows of the maps.

use super::ledger_inputs::{answer, ledger_behind};
use super::map_differences::{DIFFERENCES, OTHERS, PATTERNS};
use super::map_inputs::{Row, key_of, map_input};
use super::map_kinds::KINDS;
use super::maps::{ENDS, FAILED};
use super::stamps::RUN;
use fake_io::source_of;
use std::alloc::Global;
use std::test::Fail;
use targets::Since;

/// The input of a map with an empty ledger behind its state, which has 136 bytes or none.
fn input_of_row(alloc: Global, row: &Row) -> Option<Vec<u8>> {
    let (text, told, target, _, _) = row;
    let input = map_input(alloc, text, told, target)?;
    let state = if told.is_empty() { 0 } else { 136 };
    let place = text.len().wrapping_add(8).wrapping_add(state);
    let mut with_ledger = Vec::new(alloc);
    with_ledger.extend_from_slice(input.get(..place)?).ok()?;
    with_ledger.extend_from_slice(&[0; 4]).ok()?;
    with_ledger.extend_from_slice(input.get(place..)?).ok()?;
    Some(with_ledger)
}

/// Whether a row is answered as a map, and a ledger stands behind where the whole region has come.
fn agrees(alloc: Global, row: &Row) -> Option<bool> {
    let (_, _, _, status, lines) = row;
    let input = input_of_row(alloc, row)?;
    let (answered, written) = answer(alloc, key_of(RUN, 0), Since::Run, source_of(&input))?;
    let is_told = if lines.contains(" end whole ") {
        ledger_behind(alloc, &written, lines).is_some()
    } else {
        written.as_slice() == lines.as_bytes()
    };
    Some(is_told && answered == *status)
}

fn all_agree(alloc: Global, rows: &[Row]) -> Result<(), Fail> {
    for (number, row) in rows.iter().enumerate() {
        if agrees(alloc, row) != Some(true) {
            return Err(Fail::new(number));
        }
    }
    Ok(())
}

#[test]
fn an_empty_ledger_tells_each_kind_of_a_map(rt: HostRuntime) -> Result<(), Fail> {
    all_agree(rt.alloc(), &KINDS)
}

#[test]
fn an_empty_ledger_ends_as_a_map(rt: HostRuntime) -> Result<(), Fail> {
    all_agree(rt.alloc(), &ENDS)?;
    all_agree(rt.alloc(), &FAILED)
}

#[test]
fn an_empty_ledger_tells_differences_as_a_map(rt: HostRuntime) -> Result<(), Fail> {
    all_agree(rt.alloc(), &DIFFERENCES)?;
    all_agree(rt.alloc(), &OTHERS)?;
    all_agree(rt.alloc(), &PATTERNS)
}
