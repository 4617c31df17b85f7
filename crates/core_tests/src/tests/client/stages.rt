//! Every kind of packet in every stage of a request.

use super::looks::outcome_of;
use super::stories::stages::{PACKETS, Stage};
use super::told::Told;
use crate::tests::shared::{Life, NONE_FAILS, Trouble, failing_notes};
use std::alloc::Global;

/// Where a stage isn't as it says, or a packet isn't answered as its row says.
#[derive(Clone, Copy, Debug)]
pub struct Unlike {
    pub stage: &'static str,
    pub row: &'static str,
    pub trouble: Option<Trouble>,
}

/// A packet that changes how a request stands, and how it stands then.
#[derive(Clone, Copy)]
struct Change {
    row: &'static str,
    outcome: &'static str,
}

fn at_row(stage: Stage, row: &'static str, trouble: Option<Trouble>) -> Unlike {
    Unlike {
        stage: stage.name,
        row,
        trouble,
    }
}

/// The event of a row, and its answer.
fn parts(row: &'static str) -> (&'static str, &'static str) {
    match row.split_once("=>") {
        Some((event, answer)) => (event.trim(), answer.trim()),
        None => (row.trim(), ""),
    }
}

/// Whether the stage has a row of its own for a packet.
fn changes(stage: Stage, event: &str) -> bool {
    stage.changes.lines().any(|row| parts(row).0 == event)
}

/// Takes a row, behind which the request has to stand so.
fn check(life: &mut Life<Told>, stage: Stage, row: &'static str, outcome: &str) -> Option<Unlike> {
    match life.holds(row) {
        Ok(true) => {}
        Ok(false) => return Some(at_row(stage, row, None)),
        Err(trouble) => return Some(at_row(stage, row, Some(trouble))),
    }
    match &life.node {
        Some(told) if outcome_of(&told.client, stage.request) == Ok(outcome) => None,
        _ => Some(at_row(stage, row, None)),
    }
}

/// The first packet that isn't answered as the rows say, in any stage.
pub fn unlike_in(alloc: Global, stages: &[Stage]) -> Option<Unlike> {
    for stage in stages {
        let unlike = unlike_at(alloc, *stage);
        if unlike.is_some() {
            return unlike;
        }
    }
    None
}

fn unlike_at(alloc: Global, stage: Stage) -> Option<Unlike> {
    match unlike_after(alloc, stage, None) {
        None => first_unlike_change(alloc, stage),
        unlike => unlike,
    }
}

/// The first packet that isn't answered as the rows say, of those that change something in a stage: each
/// comes to a client of its own.
fn first_unlike_change(alloc: Global, stage: Stage) -> Option<Unlike> {
    for line in stage.changes.lines() {
        if let Some((row, outcome)) = line.split_once(" / ") {
            let change = Change {
                row,
                outcome: outcome.trim(),
            };
            let found = unlike_after(alloc, stage, Some(change));
            if found.is_some() {
                return found;
            }
        }
    }
    None
}

/// What isn't so of a client that is taken to a stage, and then is told of a change, or else of each packet
/// that changes nothing, one after the other.
fn unlike_after(alloc: Global, stage: Stage, change: Option<Change>) -> Option<Unlike> {
    let mut life = Life::new(alloc, 1, failing_notes(Vec::new(alloc), NONE_FAILS));
    let unlike = unlike_of(&mut life, stage, change);
    life.end();
    unlike
}

fn unlike_of(life: &mut Life<Told>, stage: Stage, change: Option<Change>) -> Option<Unlike> {
    if let Some((_, trouble)) = life.first_unlike(stage.before) {
        return Some(at_row(stage, stage.before, trouble));
    }
    match change {
        Some(change) => check(life, stage, change.row, change.outcome),
        None => first_quiet(life, stage),
    }
}

/// The first packet that changes something, and isn't in the rows of the stage.
fn first_quiet(life: &mut Life<Told>, stage: Stage) -> Option<Unlike> {
    for row in PACKETS.lines() {
        let (event, _) = parts(row);
        if !event.is_empty() && !changes(stage, event) {
            let found = check(life, stage, row, stage.outcome);
            if found.is_some() {
                return found;
            }
        }
    }
    None
}
