//! A node that sends a copy of each state that it keeps.

use super::draft::Draft;
use super::life::Life;
use super::named::put_state;
use super::story_node::Node;
use super::telling::{NONE_FAILS, notes_in, open_as};
use super::trouble::Trouble;
use disk_model::FaultNotes;
use messages::Frames;
use std::alloc::Global;

/// How a node is opened, what it is asked, and what it sends then: a frame or none, and behind it a copy of
/// each state of its note, in order.
#[derive(Clone, Copy)]
pub struct AllCopies {
    pub opening: &'static str,
    pub event: &'static str,
    /// The frame before the copies, where there is one.
    pub front: Option<&'static [u8]>,
    /// What each copy has before its state.
    pub head: &'static [u8],
}

/// Whether a node over the note `full` of so many states sends them all. Where memory runs out, it is tried
/// again.
pub fn sends_all<C: Node>(
    alloc: Global,
    note: &str,
    count: u32,
    all: &AllCopies,
) -> Result<bool, Trouble> {
    match sends_all_once::<C>(alloc, note, count, all) {
        Err(Trouble::NoMemory) => sends_all_once::<C>(alloc, note, count, all),
        answer => answer,
    }
}

fn sends_all_once<C: Node>(
    alloc: Global,
    note: &str,
    count: u32,
    all: &AllCopies,
) -> Result<bool, Trouble> {
    match notes_in::<C>(alloc, note, NONE_FAILS) {
        Ok(notes) => sends_all_over::<C>(alloc, notes, count, all),
        Err(trouble) => Err(trouble),
    }
}

fn sends_all_over<C: Node>(
    alloc: Global,
    notes: FaultNotes,
    count: u32,
    all: &AllCopies,
) -> Result<bool, Trouble> {
    let mut life: Life<C> = Life::new(alloc, 1, notes);
    let sent = answers_all(&mut life, alloc, count, all);
    life.end();
    sent
}

fn answers_all<C: Node>(
    life: &mut Life<C>,
    alloc: Global,
    count: u32,
    all: &AllCopies,
) -> Result<bool, Trouble> {
    if open_as(life, all.opening)? != 0 || life.take(all.event)?.is_some() {
        return Ok(false);
    }
    match &life.node {
        Some(node) => are_sent(alloc, node.sent(), count, all),
        None => Ok(false),
    }
}

/// Whether the frames are the one before the copies, if there is one, and the copies.
fn are_sent(
    alloc: Global,
    sent: Option<&Frames>,
    count: u32,
    all: &AllCopies,
) -> Result<bool, Trouble> {
    let Some(frames) = sent else {
        return Ok(false);
    };
    let head = all.head;
    match all.front {
        Some(front) => are_behind(alloc, frames, front, count, head),
        None => are_copies(alloc, frames, 0, count, head),
    }
}

/// Whether the frames are this one, and behind it the copies of so many states.
fn are_behind(
    alloc: Global,
    frames: &Frames,
    front: &[u8],
    count: u32,
    head: &[u8],
) -> Result<bool, Trouble> {
    if frames.get(0) != Some(front) {
        return Ok(false);
    }
    are_copies(alloc, frames, 1, count, head)
}

/// Whether the frames from a place on are the copies of so many states.
fn are_copies(
    alloc: Global,
    frames: &Frames,
    from: usize,
    count: u32,
    head: &[u8],
) -> Result<bool, Trouble> {
    let mut wanted = Draft::new(alloc);
    for index in 0..count {
        put_copy(&mut wanted, head, index)?;
        let place = from.saturating_add(index as usize);
        if frames.get(place) != Some(wanted.bytes()) {
            return Ok(false);
        }
    }
    Ok(frames.len() == from.saturating_add(count as usize))
}

fn put_copy(draft: &mut Draft, head: &[u8], index: u32) -> Result<(), Trouble> {
    draft.clear();
    draft.put(head);
    put_state(draft, index);
    draft.told()
}
