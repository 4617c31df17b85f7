//! What a world shows, and what rows say of it.

use super::frames::named;
use super::same::key;
use super::spelling::are_spelled;
use super::trouble::Trouble;
use fc_base::{Seq, ServerNo};
use net_world::World;
use server_core::{Stage, Status};
use std::str::SplitWhitespace;
use verify_state::VerifyState;

/// Whether the world shows what the words say.
pub fn shows(world: &World, look: &str, wanted: &str) -> Result<bool, Trouble> {
    let mut words = look.split_whitespace();
    match words.next() {
        Some("frame") => Ok(match frame_at(world, number(&mut words)?) {
            Some(bytes) => are_spelled(bytes, named(wanted).unwrap_or(wanted)),
            None => false,
        }),
        Some("frames") => Ok(wanted.parse::<usize>().ok() == Some(world.frames().len())),
        Some("status") => {
            let server = ServerNo(short_number(&mut words)?);
            Ok(is_status(world.status(server), wanted))
        }
        Some("saved") => {
            let run = number(&mut words)?;
            let server = short_number(&mut words)?;
            let job = short_number(&mut words)?;
            Ok(is_state(world.saved(key(run, server, job)), wanted))
        }
        _ => Err(Trouble::BadRow),
    }
}

/// The bytes of a frame.
fn frame_at(world: &World, index: u64) -> Option<&[u8]> {
    match usize::try_from(index) {
        Ok(index) => world.frames().get(index),
        Err(_) => None,
    }
}

/// The next word, as a number.
fn number(words: &mut SplitWhitespace) -> Result<u64, Trouble> {
    let word = words.next().ok_or(Trouble::BadRow)?;
    word.parse::<u64>().ok().ok_or(Trouble::BadRow)
}

/// The next word, as a smaller number.
fn short_number(words: &mut SplitWhitespace) -> Result<u32, Trouble> {
    let word = words.next().ok_or(Trouble::BadRow)?;
    word.parse::<u32>().ok().ok_or(Trouble::BadRow)
}

/// The words are `off`, or a name and its number for each that is looked at.
fn is_status(status: Option<Status>, wanted: &str) -> bool {
    let Some(status) = status else {
        return wanted == "off";
    };
    wanted.split_whitespace().all(|word| match word.split_once('=') {
        Some(("stage", name)) => name == stage_name(status.stage),
        Some((name, number)) => number.parse::<u64>().ok() == number_named(&status, name),
        None => false,
    })
}

/// The number of a status with this name. Where there is none, it is one that no row has.
fn number_named(status: &Status, name: &str) -> Option<u64> {
    match name {
        "boot" => Some(status.boot),
        "last_run" => Some(status.last_run.0),
        "staged" => Some(status.staged.0),
        "run" => Some(status.run.0),
        "attempt" => Some(status.attempt.0),
        _ => Some(u64::MAX),
    }
}

fn stage_name(stage: Stage) -> &'static str {
    match stage {
        Stage::Idle => "Idle",
        Stage::Writing => "Writing",
        Stage::Taken => "Taken",
        Stage::Stopped => "Stopped",
    }
}

/// The words are `none`, or `issued` and how many, `counted` and which of them, or `-`.
fn is_state(state: Option<&VerifyState>, wanted: &str) -> bool {
    let Some(state) = state else {
        return wanted == "none";
    };
    let Some((issued, counted)) = wanted.split_once(" counted ") else {
        return false;
    };
    let Some(issued) = issued.strip_prefix("issued ") else {
        return false;
    };
    issued.parse::<u64>().ok() == Some(state.issued())
        && (0..state.issued()).all(|seq| state.counts(Seq(seq)) == names(counted, seq))
}

/// Whether a list has this number.
fn names(list: &str, number: u64) -> bool {
    list.split_whitespace()
        .any(|word| word.parse::<u64>().ok() == Some(number))
}
