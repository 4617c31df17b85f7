//! Stories that are played at once, and with a cut put in.

use super::rows::{Row, config_in, event_in, row_in};
use super::same::{are_same, are_same_states, key};
use super::trouble::Trouble;
use messages::{Node, look_at};
use net_world::{Config, World, WorldEvent, with_cut, with_stop};
use seen::watch;
use std::alloc::Global;

/// What is put into a story before the command with this number: a node loses its power, or does so within
/// the save of this command, and is started again.
#[derive(Clone, Copy)]
pub enum Change {
    Cut { at: usize, node: Node },
    Stop { at: usize, landed: bool, node: Node },
}

/// What a change leaves of a story. No report but that of the whole story is ever sent.
#[derive(Clone, Copy, Debug, PartialEq, Eq)]
pub enum Leaves {
    /// The world as it is without the change.
    Same,
    /// Another world, in which the client keeps the same state of the first job, and its check is reported.
    Checked,
    /// The client keeps this state, and no check is reported.
    Kept,
    /// The client keeps no state of it, and no check is reported.
    Nothing,
}

/// The Report of each story behind its run and its attempt: of job 0, one block checked and no fault.
const REPORT: [u8; 25] = [
    0, 0, 0, 0, 0, 0, 0, 1, 0, 0, 0, 0, 0, 0, 0, 0, 1, 0, 0, 0, 0, 0, 0, 0, 0,
];

/// Whether a story that is played at once gives the world that it has given event by event.
pub fn plays_as(alloc: Global, rows: &str, told: &World) -> Result<bool, Trouble> {
    match played(alloc, rows, &None) {
        Ok(world) => Ok(are_same(&world, told)),
        Err(trouble) => Err(trouble),
    }
}

/// What a change leaves of the world of a story, whose run this is. `None` is answered where the client keeps
/// another state, or a check is reported otherwise.
pub fn left(
    alloc: Global,
    rows: &str,
    run: u64,
    change: Change,
) -> Result<Option<Leaves>, Trouble> {
    match played(alloc, rows, &None) {
        Ok(world) => left_of(alloc, rows, run, change, &world),
        Err(trouble) => Err(trouble),
    }
}

fn left_of(
    alloc: Global,
    rows: &str,
    run: u64,
    change: Change,
    whole: &World,
) -> Result<Option<Leaves>, Trouble> {
    match played(alloc, rows, &Some(change)) {
        Ok(world) => Ok(compare(&world, whole, run)),
        Err(trouble) => Err(trouble),
    }
}

fn compare(world: &World, whole: &World, run: u64) -> Option<Leaves> {
    let (kept, wanted) = (world.saved(key(run, 0, 0)), whole.saved(key(run, 0, 0)));
    if are_same(world, whole) && are_same_states(kept, wanted) {
        return Some(Leaves::Same);
    }
    match (kept.is_some(), is_reported(world)?) {
        (false, false) => Some(Leaves::Nothing),
        (true, _) if !are_same_states(kept, wanted) => None,
        (true, true) => Some(Leaves::Checked),
        (true, false) => Some(Leaves::Kept),
        (false, true) => None,
    }
}

/// Whether a check is reported, as in the whole story. `None` is answered where one is reported otherwise.
fn is_reported(world: &World) -> Option<bool> {
    let mut reported = false;
    for index in 0..world.frames().len() {
        let frame = world.frames().get(index)?;
        if is_report(frame) {
            reported = true;
            if frame.get(32..)? != REPORT.as_slice() {
                return None;
            }
        }
    }
    Some(reported)
}

/// Whether a frame is a Report.
fn is_report(frame: &[u8]) -> bool {
    match look_at(frame) {
        Some(look) => look.kind.name() == "Report",
        None => false,
    }
}

/// The world of a story's commands. Where memory runs out, it is played once more.
fn played(alloc: Global, rows: &str, change: &Option<Change>) -> Result<World, Trouble> {
    match played_once(alloc, rows, change) {
        Err(Trouble::NoMemory) => played_once(alloc, rows, change),
        answer => answer,
    }
}

fn played_once(alloc: Global, rows: &str, change: &Option<Change>) -> Result<World, Trouble> {
    match events_of(alloc, rows) {
        Ok(events) => played_with(alloc, config_in(rows), &events, change),
        Err(trouble) => Err(trouble),
    }
}

fn played_with(
    alloc: Global,
    config: Option<Config>,
    events: &[WorldEvent],
    change: &Option<Change>,
) -> Result<World, Trouble> {
    let Some(change) = change else {
        return played_by(alloc, config, events);
    };
    match changed(alloc, events, change) {
        Ok(events) => played_by(alloc, config, &events),
        Err(trouble) => Err(trouble),
    }
}

/// The events with a change put in.
fn changed(
    alloc: Global,
    events: &[WorldEvent],
    change: &Change,
) -> Result<Vec<WorldEvent>, Trouble> {
    match change {
        Change::Cut { at, node } if *at <= events.len() => {
            Ok(with_cut(alloc, events, *at, *node)?)
        }
        Change::Stop { at, landed, node } if *at < events.len() => {
            with_stop(alloc, events, *at, *landed, *node)?.ok_or(Trouble::BadRow)
        }
        _ => Err(Trouble::BadRow),
    }
}

/// How many events there are once a stop of this command is put in before it, if one can be.
pub fn length_stopped(
    alloc: Global,
    command: &str,
    landed: bool,
) -> Result<Option<usize>, Trouble> {
    match length_stopped_once(alloc, command, landed) {
        Err(Trouble::NoMemory) => length_stopped_once(alloc, command, landed),
        answer => answer,
    }
}

fn length_stopped_once(
    alloc: Global,
    command: &str,
    landed: bool,
) -> Result<Option<usize>, Trouble> {
    let mut events = Vec::new(alloc);
    put(&mut events, event_in(alloc, command))?;
    match with_stop(alloc, &events, 0, landed, Node::Client)? {
        Some(stopped) => Ok(Some(stopped.len())),
        None => Ok(None),
    }
}

fn played_by(
    alloc: Global,
    config: Option<Config>,
    events: &[WorldEvent],
) -> Result<World, Trouble> {
    let Some(config) = config else {
        return Err(Trouble::BadRow);
    };
    if config.servers < 1 || config.servers > 8 {
        return Err(Trouble::BadRow);
    }
    match watch(alloc, config, events) {
        Ok(world) => Ok(world),
        Err(_) => Err(Trouble::NoMemory),
    }
}

/// The events of a story's commands.
fn events_of(alloc: Global, rows: &str) -> Result<Vec<WorldEvent>, Trouble> {
    let mut events = Vec::new(alloc);
    for row in rows.lines() {
        if let Row::Happens { command, .. } = row_in(row) {
            put(&mut events, event_in(alloc, command))?;
        }
    }
    Ok(events)
}

fn put(events: &mut Vec<WorldEvent>, event: Result<WorldEvent, Trouble>) -> Result<(), Trouble> {
    match event {
        Ok(event) => pushed(events.push(event)),
        Err(trouble) => Err(trouble),
    }
}

fn pushed<E: Drop>(outcome: Result<(), E>) -> Result<(), Trouble> {
    match outcome {
        Ok(()) => Ok(()),
        Err(_) => Err(Trouble::NoMemory),
    }
}
