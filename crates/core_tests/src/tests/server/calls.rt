//! What comes to a server beside frames, and what it answers beside them.

use super::words::{issue_in, report_in, ticket_in};
use crate::tests::shared::{Trouble, is_frame, next_u32, next_u64};
use engine::Issue;
use fc_base::{Attempt, JobNo};
use messages::{Act, Frame};
use server_core::{Input, Outs, WriteEnd};

/// What a worker asks, or tells.
pub fn asked_in(word: &str, words: &str) -> Option<Input<Frame>> {
    match word {
        "issue" => Some(Input::Issue(JobNo(words.parse::<u32>().ok()?))),
        "done" => end_in(words, WriteEnd::Done),
        "fail" => end_in(words, WriteEnd::Failed),
        _ => check_in(words),
    }
}

fn end_in(words: &str, end: WriteEnd) -> Option<Input<Frame>> {
    let ticket = ticket_in(&mut words.split_whitespace())?;
    Some(Input::WriteDone(ticket, end))
}

fn check_in(words: &str) -> Option<Input<Frame>> {
    let mut words = words.split_whitespace();
    Some(Input::CheckDone {
        boot: next_u64(&mut words)?,
        attempt: Attempt(next_u64(&mut words)?),
        job: JobNo(next_u32(&mut words)?),
        report: report_in(&mut words)?,
    })
}

/// Whether the parts of an answer that say no frames say what was told.
pub fn is_told(outs: &Outs, words: &str) -> Result<bool, Trouble> {
    let mut issue = None;
    let mut act = Act::None;
    for part in words.split('+') {
        let part = part.trim();
        if part == "cut" {
            act = Act::Cut;
        } else if !part.is_empty() && !is_frame(part) {
            issue = Some(issue_of(part)?);
        }
    }
    Ok(outs.issue == issue && outs.act == act)
}

fn issue_of(words: &str) -> Result<Issue, Trouble> {
    issue_in(words).ok_or(Trouble::BadRow)
}
