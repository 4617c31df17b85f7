//! The inputs of a question which blocks a check by a ledger has to read, and what is answered.

use super::ledger_inputs::{Step, ledger_input};
use super::map_inputs::key_of;
use fake_io::{Source, failing_at, in_steps, page_with, source_of};
use fc_base::Key;
use std::alloc::Global;
use targets::{Since, wanted_job};

/// What is answered to a source: the status and what is written.
pub(super) fn answer_wanted(
    alloc: Global,
    key: Key,
    since: Since,
    mut source: Source<'_>,
) -> Option<(u8, Vec<u8>)> {
    let mut page = page_with(alloc, usize::MAX);
    let status = wanted_job(alloc, key, since, &mut source, &mut page).ok()?;
    Some((status, Vec::from_slice(alloc, &page.text).ok()?))
}

/// Whether the blocks that a step's check has to read are told by these bytes.
fn is_told(alloc: Global, step: &Step, source: Source<'_>, bytes: &[u8]) -> Option<bool> {
    let (status, written) = answer_wanted(alloc, key_of(step.run, 0), step.since, source)?;
    Some(status == 0 && written.as_slice() == bytes)
}

/// How often an input is read up to its blocks: for each of its texts the length and, if that isn't 0, the bytes.
fn reads_of(step: &Step, ledger: &[u8]) -> u32 {
    let state = match step.since {
        Since::Run if step.told.is_empty() => 1,
        Since::Run => 2,
        Since::LostRun => 0,
        Since::Rest => 0,
    };
    let last = if ledger.is_empty() { 1 } else { 2 };
    state + last + 2
}

/// Whether these bytes tell which blocks a step has to read by this ledger: where the input comes whole, in steps, where
/// it ends before the blocks, and where a read behind the ledger would fail.
pub(super) fn tells(alloc: Global, step: &Step, ledger: &[u8], bytes: &[u8]) -> Option<bool> {
    let front = ledger_input(
        alloc,
        &Step {
            target: &[],
            ..*step
        },
        ledger,
    )?;
    let input = ledger_input(alloc, step, ledger)?;
    let whole = is_told(alloc, step, source_of(&input), bytes)?;
    let in_parts = is_told(alloc, step, in_steps(&input, 100), bytes)?;
    let ended = is_told(alloc, step, source_of(&front), bytes)?;
    let last = reads_of(step, ledger);
    let unread = is_told(alloc, step, failing_at(&input, usize::MAX, last), bytes)?;
    Some(whole && in_parts && ended && unread)
}

/// Whether a source is answered by this line and the status 2.
pub(super) fn refuses_wanted(
    alloc: Global,
    key: Key,
    since: Since,
    source: Source<'_>,
    line: &str,
) -> Option<bool> {
    let (status, written) = answer_wanted(alloc, key, since, source)?;
    Some(status == 2 && written.as_slice() == line.as_bytes())
}
