//! A State of which each byte in turn is changed to each other one, at a client that keeps the state: how many
//! of the changes come to what, as another program counted them.

use super::opening::{Opening, opened};
use super::written::put_note;
use crate::tests::shared::{Draft, Trouble, put_word};
use client_core::Client;
use disk_model::MemNotes;
use fc_base::Fault;
use messages::{Frame, decode_frame};
use std::alloc::Global;

/// How many changes are no frame; are misdirected; are acknowledged, as the kept state; are kept, as one of
/// another key; and are in conflict with the kept state.
pub type Outcomes = [u32; 5];

pub const OUTCOMES: Outcomes = [26_080, 27, 15, 2_039, 11_619];

/// What stands before the state: the header, and that the run has one job.
const FRONT: &str = "4643010600000000000000080000008c00000001";

/// Puts the State. Where memory runs out, it is tried again.
fn put_state_again(draft: &mut Draft) -> Result<(), Trouble> {
    put_state_frame(draft);
    if draft.told() == Err(Trouble::NoMemory) {
        draft.clear();
        put_state_frame(draft);
    }
    draft.told()
}

fn put_state_frame(draft: &mut Draft) {
    draft.put_hex(FRONT);
    put_word(draft, "first");
}

/// Puts the note of a client that keeps the state. Where memory runs out, it is tried again.
fn put_note_again(draft: &mut Draft) -> Result<(), Trouble> {
    put_note(draft, "1 1 first");
    if draft.told() == Err(Trouble::NoMemory) {
        draft.clear();
        put_note(draft, "1 1 first");
    }
    draft.told()
}

/// The place of what a frame comes to in the outcomes, if it has one.
fn place_at(client: &mut Client<MemNotes>, frame: Frame) -> Result<Option<usize>, Trouble> {
    let saves = client.would_save(&frame)?;
    match client.deliver(frame) {
        Ok(frames) if frames.len() == 1 => Ok(Some(if saves { 3 } else { 2 })),
        Err(Fault::Misdirected) if !saves => Ok(Some(1)),
        Err(Fault::Conflict) if !saves => Ok(Some(4)),
        Err(Fault::NoMemory) => Err(Trouble::NoMemory),
        _ => Ok(None),
    }
}

/// The same at a client over this note.
fn place_over(alloc: Global, note: &[u8], frame: Frame) -> Result<Option<usize>, Trouble> {
    let notes = MemNotes::new(Vec::from_slice(alloc, note)?);
    match opened(alloc, 1, notes, &Opening::Restarted) {
        Ok(mut client) => {
            let place = place_at(&mut client, frame);
            client.off();
            place
        }
        Err((_, Fault::NoMemory)) => Err(Trouble::NoMemory),
        Err(_) => Err(Trouble::BadRow),
    }
}

/// The same of the bytes of a frame.
fn place_once(alloc: Global, note: &[u8], bytes: &[u8]) -> Result<Option<usize>, Trouble> {
    match decode_frame(alloc, bytes) {
        Ok(frame) => place_over(alloc, note, frame),
        Err(Fault::FrameNoMemory) => Err(Trouble::NoMemory),
        Err(_) => Ok(Some(0)),
    }
}

/// The same, tried once more where memory runs out.
fn place(alloc: Global, note: &[u8], bytes: &[u8]) -> Result<Option<usize>, Trouble> {
    match place_once(alloc, note, bytes) {
        Err(Trouble::NoMemory) => place_once(alloc, note, bytes),
        answer => answer,
    }
}

/// Counts one more at this place.
fn count(outcomes: &mut Outcomes, place: Option<usize>) -> Result<(), Trouble> {
    match place.and_then(|place| outcomes.get_mut(place)) {
        Some(count) => {
            *count = count.saturating_add(1);
            Ok(())
        }
        None => Err(Trouble::Changed),
    }
}

/// Counts what the changes of the byte at this place come to. The bytes are left as they were.
fn count_changes(
    alloc: Global,
    note: &[u8],
    bytes: &mut [u8],
    at: usize,
    outcomes: &mut Outcomes,
) -> Result<(), Trouble> {
    if at >= bytes.len() {
        return Err(Trouble::BadRow);
    }
    let old = bytes[at];
    for bits in 1..=u8::MAX {
        bytes[at] = old ^ bits;
        count(outcomes, place(alloc, note, bytes)?)?;
    }
    bytes[at] = old;
    Ok(())
}

/// What all changes of the State come to.
pub fn outcomes(alloc: Global) -> Result<Outcomes, Trouble> {
    let (mut note, mut frame) = (Draft::new(alloc), Draft::new(alloc));
    put_note_again(&mut note)?;
    put_state_again(&mut frame)?;
    let mut outcomes = [0; 5];
    for at in 0..frame.bytes().len() {
        count_changes(alloc, note.bytes(), frame.bytes_mut(), at, &mut outcomes)?;
    }
    Ok(outcomes)
}
