//! A world that is taken through a story, event by event: so it shows what no script prints, and a call that is
//! refused for want of memory is made again in the same world.

use super::looks::shows;
use super::rows::{Row, config_in, event_in, row_in};
use super::same::shown_by;
use super::trouble::Trouble;
use fc_base::Fault;
use net_world::{Config, World, WorldEvent};
use std::alloc::Global;

/// The world that the first row of a story asks for. Where memory runs out, it is made once more.
pub fn world_of(alloc: Global, rows: &str) -> Result<World, Trouble> {
    match config_in(rows) {
        Some(config) => new_world(alloc, config),
        None => Err(Trouble::BadRow),
    }
}

fn new_world(alloc: Global, config: Config) -> Result<World, Trouble> {
    if config.servers < 1 || config.servers > 8 {
        return Err(Trouble::BadRow);
    }
    match World::new(alloc, config) {
        Ok(world) => Ok(world),
        Err(_) => match World::new(alloc, config) {
            Ok(world) => Ok(world),
            Err(_) => Err(Trouble::NoMemory),
        },
    }
}

/// Goes through the rows of a story, up to the first that isn't answered so: which line that is, and what
/// trouble there was, if any.
pub fn first_unlike(
    alloc: Global,
    world: &mut World,
    rows: &str,
) -> Option<(usize, Option<Trouble>)> {
    for (line, row) in rows.lines().enumerate() {
        match holds(alloc, world, row) {
            Ok(true) => {}
            Ok(false) => return Some((line, None)),
            Err(trouble) => return Some((line, Some(trouble))),
        }
    }
    None
}

fn holds(alloc: Global, world: &mut World, row: &str) -> Result<bool, Trouble> {
    match row_in(row) {
        Row::Happens { command, answer } => comes_to(alloc, world, command, answer),
        Row::Shows { look, wanted } => shows(world, look, wanted),
        Row::Rests => Ok(true),
    }
}

/// Takes a command, and tells whether it is answered or refused so. Where memory runs out, it is taken once
/// more.
fn comes_to(
    alloc: Global,
    world: &mut World,
    command: &str,
    answer: &str,
) -> Result<bool, Trouble> {
    match take(alloc, world, command, answer) {
        Err(Trouble::NoMemory) => take(alloc, world, command, answer),
        outcome => outcome,
    }
}

fn take(alloc: Global, world: &mut World, command: &str, answer: &str) -> Result<bool, Trouble> {
    match event_in(alloc, command) {
        Ok(event) => apply(world, &event, answer),
        Err(trouble) => Err(trouble),
    }
}

/// The world has to show what it showed before, where it refuses.
fn apply(world: &mut World, event: &WorldEvent, answer: &str) -> Result<bool, Trouble> {
    let before = shown_by(world);
    match world.apply(event) {
        Ok(told) => Ok(answer.starts_with("ok") && told.sent == sent_by(answer)),
        Err(fault) => {
            if shown_by(world) != before {
                return Err(Trouble::Changed);
            }
            is_refused(fault, answer)
        }
    }
}

fn is_refused(fault: Fault, answer: &str) -> Result<bool, Trouble> {
    if fault == Fault::NoMemory {
        return Err(Trouble::NoMemory);
    }
    let mut words = answer.split_whitespace();
    let refused = words.next() == Some("refused");
    let number = words.next().unwrap_or("").parse::<u8>().ok();
    Ok(refused && number == Some(fault.number()))
}

/// How many frames an answer tells of.
fn sent_by(answer: &str) -> u64 {
    let mut sent = 0u64;
    for line in answer.split('+') {
        if line.trim().starts_with("sent ") {
            sent = sent.saturating_add(1);
        }
    }
    sent
}
