//! What a client shows, and what rows say of it.

use super::calls::put_text;
use super::words::kind_in;
use crate::tests::shared::{Draft, Trouble, first_word, is_state, next_key, next_u32, next_u64};
use client_core::{Client, Outcome, Received};
use disk_model::FaultNotes;
use fc_base::{Key, RunNo, ServerNo};
use messages::Reason;
use std::alloc::Global;

/// Whether a row with this word asks for what the client shows.
pub fn is_look(word: &str) -> bool {
    matches!(
        word,
        "on" | "used"
            | "blank"
            | "saved"
            | "reports"
            | "outcome"
            | "settled"
            | "would_begin"
            | "would_verify"
    )
}

/// Whether the client shows what the words say of this.
pub fn shows(
    alloc: Global,
    client: &Client<FaultNotes>,
    word: &str,
    of: &str,
    words: &str,
) -> Result<bool, Trouble> {
    match word {
        "on" => Ok(is_told(client.on(), words)),
        "used" => Ok(are_numbers(&[client.runs_used(), client.attempts_used()], words)),
        "blank" => Ok(is_told(client.is_blank(), words)),
        "saved" => is_saved(alloc, client, of, words),
        "reports" => Ok(are_reports(client.reports(), words)),
        "outcome" => is_outcome(client, of, words),
        "settled" => Ok(is_told(client.settled(run_in(of)), words)),
        "would_begin" => would_begin(alloc, client, of, words),
        "would_verify" => would_verify(alloc, client, of, words),
        _ => Err(Trouble::BadRow),
    }
}

fn is_saved(
    alloc: Global,
    client: &Client<FaultNotes>,
    of: &str,
    words: &str,
) -> Result<bool, Trouble> {
    let key = key_in(of)?;
    is_state(alloc, client.saved(key), words)
}

fn is_outcome(client: &Client<FaultNotes>, of: &str, words: &str) -> Result<bool, Trouble> {
    Ok(outcome_of(client, of)? == words)
}

fn run_in(word: &str) -> RunNo {
    RunNo(word.parse::<u64>().unwrap_or(0))
}

fn would_begin(
    alloc: Global,
    client: &Client<FaultNotes>,
    word: &str,
    answer: &str,
) -> Result<bool, Trouble> {
    let mut text = Draft::new(alloc);
    put_text(&mut text, word);
    text.told()?;
    Ok(is_told(client.begin_would_save(text.bytes()), answer))
}

fn would_verify(
    alloc: Global,
    client: &Client<FaultNotes>,
    words: &str,
    answer: &str,
) -> Result<bool, Trouble> {
    let (run, word) = first_word(words);
    let run = run_in(run);
    let mut text = Draft::new(alloc);
    put_text(&mut text, word);
    text.told()?;
    Ok(is_told(client.verify_would_save(run, text.bytes()), answer))
}

fn is_told(yes: bool, word: &str) -> bool {
    word == if yes { "1" } else { "0" }
}

/// The words are just these numbers.
fn are_numbers(numbers: &[u64], words: &str) -> bool {
    let mut words = words.split_whitespace();
    for number in numbers {
        if next_u64(&mut words) != Some(*number) {
            return false;
        }
    }
    words.next().is_none()
}

/// The key of this run, server and job.
fn key_in(words: &str) -> Result<Key, Trouble> {
    next_key(&mut words.split_whitespace()).ok_or(Trouble::BadRow)
}

/// The reports are of these runs, attempts, servers and jobs, with so many blocks checked; they are joined
/// by `+`.
fn are_reports(reports: &[Received], words: &str) -> bool {
    let mut rest = words;
    for received in reports {
        let (part, behind) = first_part(rest);
        if !is_report(received, part) {
            return false;
        }
        rest = behind;
    }
    rest.trim().is_empty()
}

/// What stands in front of the first `+`, and what stands behind it.
fn first_part(words: &str) -> (&str, &str) {
    match words.split_once('+') {
        Some(parts) => parts,
        None => (words, ""),
    }
}

fn is_report(received: &Received, words: &str) -> bool {
    let numbers = [
        received.run.0,
        received.attempt.0,
        u64::from(received.server.0),
        u64::from(received.job.0),
        u64::from(received.report.checked()),
    ];
    are_numbers(&numbers, words)
}

/// How the request of this kind, number and server stands: `none`, `open`, `good`, or the number of its
/// refusal.
pub fn outcome_of(client: &Client<FaultNotes>, words: &str) -> Result<&'static str, Trouble> {
    let (kind, rest) = first_word(words);
    let mut words = rest.split_whitespace();
    let kind = kind_in(kind);
    let number = next_u64(&mut words);
    let server = next_u32(&mut words);
    match (kind, number, server) {
        (Some(kind), Some(number), Some(server)) => Ok(outcome_name(client.outcome(
            kind,
            number,
            ServerNo(server),
        ))),
        _ => Err(Trouble::BadRow),
    }
}

fn outcome_name(outcome: Outcome) -> &'static str {
    match outcome {
        Outcome::None => "none",
        Outcome::Open => "open",
        Outcome::Good => "good",
        Outcome::Refused(reason) => reason_number(reason),
    }
}

fn reason_number(reason: Reason) -> &'static str {
    match reason {
        Reason::Old => "60",
        Reason::Busy => "61",
        Reason::NoJobs => "62",
        Reason::Gone => "63",
        Reason::Overwritten => "64",
        Reason::Unknown => "65",
        Reason::BadJobs => "66",
        Reason::Misfit => "67",
    }
}
