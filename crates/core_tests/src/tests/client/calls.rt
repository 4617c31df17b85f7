//! The calls of a client that take what comes to it.

use super::words::act_in;
use crate::tests::shared::{Draft, Trouble, first_word, is_frame, put_word};
use client_core::{Client, Input};
use disk_model::FaultNotes;
use fc_base::{Fault, RunNo};
use messages::{Frame, Frames};
use std::alloc::AllocError;

/// What a client gives: a number, where it gives one, and frames.
#[derive(Drop)]
pub struct Given {
    pub number: Option<u64>,
    pub frames: Frames,
}

/// What a row asks. The text of a job file stands elsewhere.
pub fn asked_in<'t>(word: &str, words: &str, text: &'t [u8]) -> Option<Input<'t>> {
    let (run, rest) = first_word(words);
    match word {
        "begin" => Some(Input::Begin(text)),
        "verify" => Some(Input::Verify(RunNo(run.parse::<u64>().unwrap_or(0)), text)),
        "trigger" => Some(Input::Trigger(run_in(run)?, act_in(rest)?)),
        "stop" => Some(Input::Stop(run_in(run)?)),
        _ => Some(Input::Tick),
    }
}

fn run_in(word: &str) -> Option<RunNo> {
    Some(RunNo(word.parse::<u64>().ok()?))
}

/// Puts the text that a row hands over, if it does. Where memory runs out, it is put again.
pub fn put_text_of(draft: &mut Draft, words: &str) -> Result<(), Trouble> {
    match put_text_once(draft, words) {
        Err(Trouble::NoMemory) => put_text_once(draft, words),
        answer => answer,
    }
}

fn put_text_once(draft: &mut Draft, words: &str) -> Result<(), Trouble> {
    draft.clear();
    let (word, rest) = first_word(words);
    match word {
        "begin" => put_text(draft, rest),
        "verify" => put_text(draft, first_word(rest).1),
        _ => {}
    }
    draft.told()
}

/// Puts a text that a word says.
pub fn put_text(draft: &mut Draft, word: &str) {
    if !word.is_empty() {
        put_word(draft, word);
    }
}

/// What a client shows without memory: its runs, its attempts, how many reports came, and whether its
/// note is blank.
pub fn shown(client: &Client<FaultNotes>) -> (u64, u64, usize, bool) {
    (
        client.runs_used(),
        client.attempts_used(),
        client.reports().len(),
        client.is_blank(),
    )
}

/// Asks a client by the call for it, or delivers a frame.
pub fn ask(client: &mut Client<FaultNotes>, asked: Input<'_>) -> Result<Given, Fault> {
    match asked {
        Input::Begin(text) => begin(client, text),
        Input::Verify(run, text) => verify(client, run, text),
        Input::Trigger(run, act) => plain(client.trigger(run, act)),
        Input::Stop(run) => plain(client.stop(run)),
        Input::Tick => plain(client.tick()),
        Input::Deliver(frame) => plain(client.deliver(frame)),
    }
}

fn begin(client: &mut Client<FaultNotes>, text: &[u8]) -> Result<Given, Fault> {
    let (run, frames) = client.begin(text)?;
    let number = Some(run.0);
    Ok(Given { number, frames })
}

fn verify(client: &mut Client<FaultNotes>, run: RunNo, text: &[u8]) -> Result<Given, Fault> {
    let (attempt, frames) = client.verify(run, text)?;
    let number = Some(attempt.0);
    Ok(Given { number, frames })
}

/// Frames without a number.
fn plain(answer: Result<Frames, Fault>) -> Result<Given, Fault> {
    let frames = answer?;
    let number = None;
    Ok(Given { number, frames })
}

/// Whether the delivery of a frame would make a save; where memory runs out, asked once more.
pub fn would_save(client: &Client<FaultNotes>, frame: &Frame) -> Result<bool, AllocError> {
    match client.would_save(frame) {
        Err(_) => client.would_save(frame),
        answer => answer,
    }
}

/// The number that an answer gives, if it gives one: the only part of it that says no frame.
pub fn number_in(words: &str) -> Result<Option<u64>, Trouble> {
    let mut number = None;
    for part in words.split('+') {
        let (word, rest) = first_word(part);
        if word == "run" || word == "attempt" {
            number = rest.parse::<u64>().ok();
        } else if !word.is_empty() && !is_frame(part) {
            return Err(Trouble::BadRow);
        }
    }
    Ok(number)
}
