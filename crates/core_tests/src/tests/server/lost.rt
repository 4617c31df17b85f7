//! A story up to a save that fails, and what that leaves.

use super::looks::is_look;
use super::notes::{NoteNumbers, put_noted};
use super::told::Told;
use crate::tests::shared::{Draft, Life, Trouble, first_word};
use fc_base::{Attempt, Fault, RunNo};
use server_core::{Stage, Status};
use std::alloc::Global;

/// Goes through the events of a story up to the first save that fails: whether the server then is down,
/// and comes back over the old note, or the new one where that `landed`. `None` where no save fails.
pub fn first_lost(
    life: &mut Life<Told>,
    alloc: Global,
    story: &str,
    landed: bool,
) -> Result<Option<bool>, Trouble> {
    for row in story.lines() {
        let lost = lost_at(life, alloc, row, landed)?;
        if lost.is_some() {
            return Ok(lost);
        }
    }
    Ok(None)
}

fn lost_at(
    life: &mut Life<Told>,
    alloc: Global,
    row: &str,
    landed: bool,
) -> Result<Option<bool>, Trouble> {
    let Some((event, _)) = row.split_once("=>") else {
        return Ok(None);
    };
    let (word, rest) = first_word(event);
    let old = note_of(life);
    match word {
        "restart" => lost_restart(life, alloc, if landed { restarted(old) } else { old }),
        _ if is_look(word) || word == "would_save" => Ok(None),
        _ => lost_step(
            life,
            alloc,
            event.trim(),
            if landed { started(old, rest) } else { old },
        ),
    }
}

/// Restarts the server. Where that fails, the notes say this.
fn lost_restart(
    life: &mut Life<Told>,
    alloc: Global,
    noted: NoteNumbers,
) -> Result<Option<bool>, Trouble> {
    life.take_off();
    if life.open(&())? != Fault::SaveFault.number() {
        return Ok(None);
    }
    Ok(Some(comes_back(life, alloc, noted)?))
}

/// Takes a step. Where its save fails, the server is down, and the notes say this.
fn lost_step(
    life: &mut Life<Told>,
    alloc: Global,
    event: &str,
    noted: NoteNumbers,
) -> Result<Option<bool>, Trouble> {
    if life.take(event)? != Some(Fault::SaveFault) {
        return Ok(None);
    }
    let down = life.take(event)? == Some(Fault::Down);
    Ok(Some(comes_back(life, alloc, noted)? && down))
}

/// Whether the notes say this, and the server is restarted over them.
fn comes_back(life: &mut Life<Told>, alloc: Global, noted: NoteNumbers) -> Result<bool, Trouble> {
    let said = still_says(life, alloc, noted)?;
    let fault = life.open(&())?;
    Ok(said && fault == 0 && shown(life) == Some(idle(restarted(noted))))
}

/// Whether the notes say this. Where memory ran out, they are asked once more.
fn still_says(life: &mut Life<Told>, alloc: Global, noted: NoteNumbers) -> Result<bool, Trouble> {
    match still_says_once(life, alloc, noted) {
        Err(Trouble::NoMemory) => still_says_once(life, alloc, noted),
        answer => answer,
    }
}

/// At boot 0 the notes are blank.
fn still_says_once(
    life: &mut Life<Told>,
    alloc: Global,
    noted: NoteNumbers,
) -> Result<bool, Trouble> {
    let mut wanted = Draft::new(alloc);
    if noted.boot > 0 {
        put_noted(&mut wanted, noted);
    }
    wanted.told()?;
    life.still_has(wanted.bytes())
}

/// What a server shows that is on.
fn shown(life: &Life<Told>) -> Option<Status> {
    match &life.node {
        Some(told) => Some(told.server.status()),
        None => None,
    }
}

/// What the note of a server says that is on.
fn note_of(life: &Life<Told>) -> NoteNumbers {
    match shown(life) {
        Some(status) => NoteNumbers {
            boot: status.boot,
            last_run: status.last_run.0,
        },
        None => NoteNumbers {
            boot: 0,
            last_run: 0,
        },
    }
}

/// What it says once the server is restarted.
fn restarted(noted: NoteNumbers) -> NoteNumbers {
    NoteNumbers {
        boot: noted.boot.saturating_add(1),
        last_run: noted.last_run,
    }
}

/// What it says once the run is started whose number stands first.
fn started(noted: NoteNumbers, words: &str) -> NoteNumbers {
    let (run, _) = first_word(words);
    NoteNumbers {
        boot: noted.boot,
        last_run: run.parse::<u64>().unwrap_or(0),
    }
}

/// What a server shows that was just restarted.
fn idle(noted: NoteNumbers) -> Status {
    Status {
        boot: noted.boot,
        last_run: RunNo(noted.last_run),
        staged: RunNo(0),
        run: RunNo(0),
        stage: Stage::Idle,
        attempt: Attempt(0),
    }
}
