//! What no clause shows: that the layout gives the bytes that others computed, and that each call
//! answers with ample memory.

mod fits;
mod lists;
mod sweeps;
mod vectors;

use fc_base::{Fault, JobNo, JobParts, JobRecord, Key, RunNo, Seq, ServerNo};
use std::alloc::Global;
use std::test::Fail;
use sweeps::swept;
use vectors::{BEFORE_ANY_ISSUE, IN_FLIGHT, OPEN_WRITE, OUT_OF_ORDER, ROWS, Row};
use verify_state::VerifyState;

fn list(alloc: Global, numbers: &[u64]) -> Option<Vec<Seq>> {
    let mut list = Vec::new(alloc);
    for number in numbers {
        list.push(Seq(*number)).ok()?;
    }
    Some(list)
}

fn key_of(row: &Row) -> Key {
    let (run, server, job) = row.key;
    Key {
        run: RunNo(run),
        server: ServerNo(server),
        job: JobNo(job),
    }
}

fn state_of(alloc: Global, row: &Row) -> Option<VerifyState> {
    let job = JobRecord::make(row.job)?;
    let completions = list(alloc, row.completions)?;
    VerifyState::make(key_of(row), &job, row.issued, row.place, completions).ok()
}

/// Whether a state says of itself what its row does.
fn has_fields(state: &VerifyState, row: &Row) -> bool {
    state.key() == key_of(row)
        && state.rec().parts() == row.job
        && state.issued() == row.issued
        && state.place() == row.place
        && state.completed() == row.completed
}

fn has_bytes(alloc: Global, state: &VerifyState, bytes: &[u8]) -> bool {
    match state.encode(alloc) {
        Ok(written) => written.as_slice() == bytes,
        Err(_) => false,
    }
}

/// Whether these bytes are read as this state.
fn says(bytes: &[u8], state: &VerifyState) -> bool {
    match VerifyState::decode(bytes) {
        Ok(read) => read.same(state),
        Err(_) => false,
    }
}

/// Whether a state is made again of its marks, and is its own copy.
fn is_made_again(state: &VerifyState) -> bool {
    let again = VerifyState::make_marked(
        state.key(),
        &state.rec(),
        state.issued(),
        state.place(),
        state.marks(),
    );
    match again {
        Ok(again) => again.same(state) && state.copy().same(state),
        Err(_) => false,
    }
}

/// Whether the state of a row has its fields, is written in layout 2, and is read from either.
fn agrees(alloc: Global, row: &Row) -> bool {
    match state_of(alloc, row) {
        Some(state) => {
            has_fields(&state, row)
                && has_bytes(alloc, &state, row.bytes)
                && says(row.bytes, &state)
                && says(row.listed, &state)
                && is_made_again(&state)
        }
        None => false,
    }
}

/// Why these bytes are refused, or nothing.
fn refusal(bytes: &[u8]) -> Option<Fault> {
    VerifyState::decode(bytes).err()
}

/// The bytes with another one at this offset.
fn changed(alloc: Global, bytes: &[u8], at: usize, byte: u8) -> Option<Vec<u8>> {
    let mut changed = Vec::from_slice(alloc, bytes).ok()?;
    *changed.get_mut(at)? = byte;
    Some(changed)
}

/// Whether the bytes are refused so with another one at this offset.
fn is_change_refused(alloc: Global, bytes: &[u8], at: usize, byte: u8, fault: Fault) -> bool {
    match changed(alloc, bytes, at, byte) {
        Some(changed) => refusal(&changed) == Some(fault),
        None => false,
    }
}

/// Whether every prefix of the bytes is refused as too short.
fn are_short(bytes: &[u8]) -> bool {
    for end in 0..bytes.len() {
        if refusal(&bytes[..end]) != Some(Fault::StateShort) {
            return false;
        }
    }
    true
}

/// Whether the bytes and one more are refused as too long.
fn is_long(alloc: Global, bytes: &[u8]) -> Option<bool> {
    let mut longer = Vec::from_slice(alloc, bytes).ok()?;
    longer.push(0).ok()?;
    Some(refusal(&longer) == Some(Fault::StateTrailing))
}

fn ends_where_it_ends(alloc: Global, bytes: &[u8]) -> bool {
    are_short(bytes) && is_long(alloc, bytes) == Some(true)
}

/// Whose bytes are changed: those of completions out of order, in layout 1 and in layout 2, or of a write
/// in flight.
#[derive(Clone, Copy)]
enum Of {
    Listed,
    Marked,
    InFlight,
}

fn bytes_of(of: Of) -> &'static [u8] {
    match of {
        Of::Listed => ROWS[OUT_OF_ORDER].listed,
        Of::Marked => ROWS[OUT_OF_ORDER].bytes,
        Of::InFlight => ROWS[IN_FLIGHT].bytes,
    }
}

/// Why bytes are refused with another one at this offset.
static CHANGES: [(Of, usize, u8, Fault); 9] = [
    (Of::Listed, 0, 0x47, Fault::StateBadMagic),
    (Of::Marked, 3, 0x33, Fault::StateBadMagic),
    (Of::Listed, 20, 3, Fault::StateBadField),
    (Of::Marked, 20, 3, Fault::StateBadField),
    (Of::Listed, 99, 7, Fault::StateBadField),
    (Of::Listed, 139, 3, Fault::Impossible),
    (Of::InFlight, 103, 1, Fault::Impossible),
    (Of::InFlight, 111, 8, Fault::Impossible),
    (Of::InFlight, 119, 1, Fault::Impossible),
];

#[test]
fn other_bytes(rt: HostRuntime) -> Result<(), Fail> {
    for (of, at, byte, fault) in &CHANGES {
        if !is_change_refused(rt.alloc(), bytes_of(*of), *at, *byte, *fault) {
            return Err(Fail::new(*at));
        }
    }
    Ok(())
}

/// Whether changed bytes are refused, or else say a state that is written as those very bytes, or, where
/// they are of layout 1, is read again from what is written.
fn says_or_refuses(alloc: Global, bytes: &[u8]) -> bool {
    let Ok(state) = VerifyState::decode(bytes) else {
        return true;
    };
    let Ok(written) = state.encode(alloc) else {
        return false;
    };
    if bytes.starts_with(b"FCV1") {
        says(&written, &state)
    } else {
        written.as_slice() == bytes
    }
}

/// What holds of each row.
#[derive(Clone, Copy)]
enum Claim {
    Agrees,
    EndsWhereItEnds,
    SaysOrRefuses,
}

fn holds(alloc: Global, row: &Row, claim: Claim) -> bool {
    match claim {
        Claim::Agrees => agrees(alloc, row),
        Claim::EndsWhereItEnds => {
            ends_where_it_ends(alloc, row.bytes) && ends_where_it_ends(alloc, row.listed)
        }
        Claim::SaysOrRefuses => {
            swept(alloc, row.bytes).is_some() && swept(alloc, row.listed).is_some()
        }
    }
}

/// Fails by the name of the first row of which this doesn't hold.
fn holds_of_each_row(alloc: Global, claim: Claim) -> Result<(), Fail> {
    for row in &ROWS {
        if !holds(alloc, row, claim) {
            return Err(Fail::new(row.name));
        }
    }
    Ok(())
}

#[test]
fn states_and_their_bytes(rt: HostRuntime) -> Result<(), Fail> {
    holds_of_each_row(rt.alloc(), Claim::Agrees)
}

#[test]
fn other_lengths(rt: HostRuntime) -> Result<(), Fail> {
    holds_of_each_row(rt.alloc(), Claim::EndsWhereItEnds)
}

#[test]
fn each_byte_changed(rt: HostRuntime) -> Result<(), Fail> {
    holds_of_each_row(rt.alloc(), Claim::SaysOrRefuses)
}

/// The place of a row, and whether its state counts a write of this number.
static COUNTED: [(usize, u64, bool); 3] = [
    (BEFORE_ANY_ISSUE, 0, false),
    (OPEN_WRITE, 0, true),
    (OPEN_WRITE, 1, false),
];

/// Whether the state of a row counts this write.
fn counts(alloc: Global, place: usize, number: u64) -> Option<bool> {
    let state = state_of(alloc, ROWS.get(place)?)?;
    Some(state.counts(Seq(number)))
}

#[test]
fn counted_writes(rt: HostRuntime) -> Result<(), Fail> {
    for (at, (place, number, counted)) in COUNTED.iter().enumerate() {
        if counts(rt.alloc(), *place, *number) != Some(*counted) {
            return Err(Fail::new(at));
        }
    }
    Ok(())
}

/// Whether the file of the state of a row, of a client with this name, has this one.
fn has_label(alloc: Global, place: usize, client: &str, label: &str) -> Option<bool> {
    let state = state_of(alloc, ROWS.get(place)?)?;
    Some(state.label(alloc, client).ok()?.as_str() == label)
}

#[test]
fn name_of_the_file(rt: HostRuntime) {
    let named = has_label(rt.alloc(), BEFORE_ANY_ISSUE, "a", "s0-a-0-verify.state");
    assert!(rt; named == Some(true));
}
