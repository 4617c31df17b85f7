//! How runs of scripts end.

use super::rows::wanted_by;
use super::stories::Story;
use fake_io::{Source, failing_at, page_with};
use net_script::{ScriptFault, run_script};
use std::alloc::{AllocError, AllocGlobal, Global};
use std::process::Abort;

/// A script as it is read: in steps, with reads that are interrupted first, or fail from this number on.
#[derive(Clone, Copy)]
pub struct Reading<'a> {
    pub text: &'a [u8],
    pub step: usize,
    pub interruptions: u32,
    pub failing_read: u32,
}

/// A script that is read at once.
pub fn whole(text: &[u8]) -> Reading<'_> {
    Reading {
        text,
        step: usize::MAX,
        interruptions: 0,
        failing_read: u32::MAX,
    }
}

fn source(reading: Reading<'_>) -> Source<'_> {
    Source {
        interruptions: reading.interruptions,
        ..failing_at(reading.text, reading.step, reading.failing_read)
    }
}

/// How a run of a script ends.
#[derive(Clone, Copy, Debug, PartialEq, Eq)]
pub enum End {
    /// As is wanted.
    Wanted,
    /// Memory ran out: it says so, behind the first of the lines that are wanted.
    Lacking,
    /// Otherwise.
    Other(Result<u8, ScriptFault>),
}

/// How a script ends that has to print these lines, with this outcome. Where memory runs out, it is run once
/// more.
fn end_of(
    alloc: Global,
    reading: Reading<'_>,
    lines: &[u8],
    wanted: Result<u8, ScriptFault>,
) -> End {
    match end_of_one(alloc, reading, lines, wanted) {
        End::Lacking => end_of_one(alloc, reading, lines, wanted),
        end => end,
    }
}

fn end_of_one(
    alloc: Global,
    reading: Reading<'_>,
    lines: &[u8],
    wanted: Result<u8, ScriptFault>,
) -> End {
    let mut page = page_with(alloc, usize::MAX);
    let ended = run_script(alloc, &mut source(reading), &mut page);
    let printed = page.text.as_slice();
    if ended == wanted && printed == lines {
        End::Wanted
    } else if lacks(ended, printed, lines) {
        End::Lacking
    } else {
        End::Other(ended)
    }
}

/// Whether a run has ended for want of memory: of the script, of the page, or of the world.
fn lacks(ended: Result<u8, ScriptFault>, printed: &[u8], lines: &[u8]) -> bool {
    match ended {
        Err(ScriptFault::NoMemory) => printed.is_empty(),
        Err(ScriptFault::WriteError) => lines.starts_with(printed),
        Err(ScriptFault::ReadError) => false,
        Ok(status) => status == 2 && is_front(printed, lines),
    }
}

/// Whether these are the first of the lines, and behind them a refusal for want of memory.
fn is_front(printed: &[u8], lines: &[u8]) -> bool {
    match printed.strip_suffix(b"refused 35 NoMemory\n") {
        Some(front) => lines.starts_with(front),
        None => false,
    }
}

/// How the script of a story ends.
pub fn end_of_story(alloc: Global, story: &Story) -> Result<End, AllocError> {
    let wanted = wanted_by(alloc, story)?;
    let script = whole(wanted.script.as_bytes());
    let lines = wanted.printed.as_bytes();
    Ok(end_of(alloc, script, lines, Ok(story.status)))
}

/// Checks what a script prints, and how it ends.
pub fn expect<R: Abort + AllocGlobal>(
    rt: &R,
    reading: Reading<'_>,
    lines: &[u8],
    wanted: Result<u8, ScriptFault>,
) {
    let end = end_of(rt.alloc(), reading, lines, wanted);
    assert!(rt; end == End::Wanted, "{end:?}, where {wanted:?} is wanted");
}
