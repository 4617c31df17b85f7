//! Which completions a state may have.

use super::vectors::{OUT_OF_ORDER, ROWS};
use super::{Fail, Global, JobRecord, Row, VerifyState, is_change_refused, key_of, list, says};
use fc_base::Fault;
use write_order::place_of;

/// Why these can't be the completions after as many writes of the row's job, or nothing. The same list is
/// given back.
fn fault_of(alloc: Global, row: &Row, issued: u64, numbers: &[u64]) -> Option<Option<Fault>> {
    let job = JobRecord::make(row.job)?;
    let list = list(alloc, numbers)?;
    match VerifyState::make(key_of(row), &job, issued, place_of(&job, issued), list) {
        Ok(_) => Some(None),
        Err((fault, list)) if list.len() == numbers.len() => Some(Some(fault)),
        Err(_) => None,
    }
}

/// How many writes are issued, which completions there are, and why these can't be, or nothing.
static LISTS: [(u64, &[u64], Option<Fault>); 7] = [
    (5, &[2, 1, 0, 3, 4], None),
    (5, &[2, 1, 0, 3, 3], Some(Fault::Impossible)),
    (5, &[3, 4], Some(Fault::Impossible)),
    (5, &[2, 1, 0, 3], None),
    (5, &[2, 1, 0, 3, 5], Some(Fault::Impossible)),
    (9, &[], Some(Fault::Impossible)),
    (5, &[0, 1, 2, 3, 4, 5, 6], Some(Fault::StateBadField)),
];

#[test]
fn possible_lists(rt: HostRuntime) -> Result<(), Fail> {
    let row = &ROWS[OUT_OF_ORDER];
    for (at, (issued, numbers, fault)) in LISTS.iter().enumerate() {
        if fault_of(rt.alloc(), row, *issued, numbers) != Some(*fault) {
            return Err(Fail::new(at));
        }
    }
    Ok(())
}

/// Other bytes over as many.
fn put(bytes: &mut Vec<u8>, at: usize, number: &[u8]) -> Option<()> {
    for (i, byte) in number.iter().enumerate() {
        *bytes.get_mut(at.saturating_add(i))? = *byte;
    }
    Some(())
}

/// Puts in numbers of a job with two of the widest windows of writes, all of which have completed.
fn put_numbers(bytes: &mut Vec<u8>) -> Option<()> {
    put(bytes, 32, &512_u64.to_be_bytes())?;
    put(bytes, 48, &64_u32.to_be_bytes())?;
    put(bytes, 52, &256_u32.to_be_bytes())?;
    put(bytes, 56, &512_u64.to_be_bytes())?;
    put(bytes, 96, &512_u32.to_be_bytes())
}

fn push_numbers(bytes: &mut Vec<u8>) -> Option<()> {
    for number in 0..512_u64 {
        bytes.extend_from_slice(&number.to_be_bytes()).ok()?;
    }
    Some(())
}

/// The longest state of layout 1: two of the widest windows of completions, one after the other.
fn longest(alloc: Global, row: &Row) -> Option<Vec<u8>> {
    let mut bytes = Vec::from_slice(alloc, row.listed).ok()?;
    bytes.truncate(100);
    put_numbers(&mut bytes)?;
    push_numbers(&mut bytes)?;
    Some(bytes)
}

/// Whether the state counts 512 writes, the last 256 of them by its marks.
fn is_longest(state: &VerifyState) -> bool {
    state.completed() == 512 && state.floor() == 256 && state.marks() == [u64::MAX; 4]
}

/// Whether the state is written in 136 bytes, and read from them again.
fn is_short(alloc: Global, state: &VerifyState) -> bool {
    match state.encode(alloc) {
        Ok(written) => written.len() == 136 && says(&written, state),
        Err(_) => false,
    }
}

/// Whether bytes say the longest state, which is written in fewer, and are refused with one more of its list.
fn say_the_longest(alloc: Global, bytes: &[u8]) -> bool {
    match VerifyState::decode(bytes) {
        Ok(state) => {
            bytes.len() == 4_196
                && is_longest(&state)
                && is_short(alloc, &state)
                && is_change_refused(alloc, bytes, 99, 1, Fault::StateBadField)
        }
        Err(_) => false,
    }
}

#[test]
fn longest_list(rt: HostRuntime) {
    let is_read = match longest(rt.alloc(), &ROWS[OUT_OF_ORDER]) {
        Some(bytes) => say_the_longest(rt.alloc(), &bytes),
        None => false,
    };
    assert!(rt; is_read);
}
