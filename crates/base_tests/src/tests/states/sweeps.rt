//! The bytes of a state, of which each byte in turn is changed to each other one: how many of the changes come
//! to what, as another program counted them.

use super::vectors::{OUT_OF_ORDER, ROWS};
use super::{refusal, says_or_refuses};
use fc_base::Fault;
use std::alloc::Global;
use std::test::Fail;

/// How many changes say a state, and how many are refused by each number from 30 to 34.
pub(super) type Counts = [u32; 6];

/// Those of completions out of order, in layout 2 and in layout 1.
const MARKED: Counts = [13_428, 0, 1_019, 9_258, 10_974, 1];

const LISTED: Counts = [13_676, 1, 1_019, 10_272, 10_726, 6];

/// The place of what bytes come to in the counts, if it has one.
fn place(alloc: Global, bytes: &[u8]) -> Option<usize> {
    match refusal(bytes) {
        None => says_or_refuses(alloc, bytes).then_some(0),
        Some(fault) => place_of(fault),
    }
}

fn place_of(fault: Fault) -> Option<usize> {
    match fault.number() {
        30..=34 => Some(usize::from(fault.number() - 29)),
        _ => None,
    }
}

/// Counts one more at this place, if it is one.
fn count(counts: &mut Counts, place: Option<usize>) -> bool {
    match place.and_then(|place| counts.get_mut(place)) {
        Some(count) => {
            *count = count.saturating_add(1);
            true
        }
        None => false,
    }
}

/// Counts the changes of the byte at this place, and whether each had its place. The bytes are left as they were.
fn count_changes(alloc: Global, bytes: &mut [u8], at: usize, counts: &mut Counts) -> bool {
    if at >= bytes.len() {
        return false;
    }
    let old = bytes[at];
    let mut agree = true;
    for bits in 1..=u8::MAX {
        bytes[at] = old ^ bits;
        agree = count(counts, place(alloc, bytes)) && agree;
    }
    bytes[at] = old;
    agree
}

/// What all changes come to. `None` where one says a state that is written otherwise.
pub(super) fn swept(alloc: Global, state: &[u8]) -> Option<Counts> {
    let mut bytes = Vec::from_slice(alloc, state).ok()?;
    let mut counts = [0; 6];
    let mut agree = true;
    for at in 0..state.len() {
        agree = count_changes(alloc, &mut bytes, at, &mut counts) && agree;
    }
    agree.then_some(counts)
}

#[test]
fn changes_as_counted_elsewhere(rt: HostRuntime) -> Result<(), Fail> {
    let row = &ROWS[OUT_OF_ORDER];
    for (bytes, wanted) in [(row.bytes, MARKED), (row.listed, LISTED)] {
        let counts = swept(rt.alloc(), bytes);
        if counts != Some(wanted) {
            return Err(Fail::new(bytes.len()));
        }
    }
    Ok(())
}

/// Where the number of completions stands in layout 1.
const COUNT: usize = 96;

/// A number of completions that is past every list.
fn past_every_list(alloc: Global) -> Option<Vec<u8>> {
    let mut bytes = Vec::from_slice(alloc, ROWS[OUT_OF_ORDER].listed).ok()?;
    for at in COUNT..COUNT + 4 {
        *bytes.get_mut(at)? = 0xff;
    }
    Some(bytes)
}

#[test]
fn a_count_past_every_list(rt: HostRuntime) -> Result<(), Fail> {
    match past_every_list(rt.alloc()) {
        Some(bytes) if refusal(&bytes) == Some(Fault::StateBadField) => Ok(()),
        _ => Err(Fail::new("read")),
    }
}
