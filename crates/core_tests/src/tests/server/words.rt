//! Tickets, answers and reports that rows say.

use crate::tests::shared::{next_key, next_u32, next_u64};
use engine::{Issue, Ticket};
use fc_base::{Blocks, CheckReport, MAX_LISTED, ReportEnd, ReportParts, Seq};
use std::str::SplitWhitespace;

/// The ticket of this boot, run, server, job, write and block.
pub fn ticket_in(words: &mut SplitWhitespace) -> Option<Ticket> {
    Some(Ticket {
        boot: next_u64(words)?,
        key: next_key(words)?,
        seq: Seq(next_u64(words)?),
        block: next_u32(words)?,
    })
}

/// The answer to a request for a write, if the words say one.
pub fn issue_in(words: &str) -> Option<Issue> {
    match words {
        "full" => Some(Issue::Full),
        "held" => Some(Issue::Held),
        "overlap" => Some(Issue::Overlap),
        "finished" => Some(Issue::Finished),
        "stopped" => Some(Issue::Stopped),
        _ => {
            let rest = words.strip_prefix("write ")?;
            Some(Issue::Write(ticket_in(&mut rest.split_whitespace())?))
        }
    }
}

/// The report of this end and block, so many blocks checked and faulty, and these faulty blocks: the
/// numbers of a Report's frame, with the count of the listed blocks.
pub fn report_in(words: &mut SplitWhitespace) -> Option<CheckReport> {
    let end = end_in(next_u32(words)?, next_u32(words)?)?;
    let checked = next_u32(words)?;
    let faults = next_u32(words)?;
    let _count = next_u32(words)?;
    let first = blocks_in(words)?;
    CheckReport::make(ReportParts {
        checked,
        faults,
        first,
        end,
    })
    .ok()
}

fn end_in(end: u32, at: u32) -> Option<ReportEnd> {
    match end {
        0 => Some(ReportEnd::Whole),
        1 => Some(ReportEnd::AtFault),
        2 => Some(ReportEnd::ReadFault(at)),
        _ => None,
    }
}

fn blocks_in(words: &mut SplitWhitespace) -> Option<Blocks> {
    let mut blocks = Blocks::new();
    for word in words {
        if blocks.len() >= MAX_LISTED {
            return None;
        }
        blocks.push(word.parse::<u32>().ok()?);
    }
    Some(blocks)
}
