//! The inputs of checks by a ledger, and stories of such checks, each by the ledger that the one before it wrote. A
//! block has two sectors.

use super::inputs::{Tell, push_text};
use super::map_inputs::Sector::{Filled, Stamp};
use super::map_inputs::{Sector, key_of, push_sector, state_of};
use Block::{Byte, Flag, Sectors, Unread, Write as Whole};
use fake_io::{Source, in_steps, page_with, source_of};
use fc_base::Key;
use std::alloc::{AllocError, Global};
use std::io::Write;
use std::test::Fail;
use targets::{Since, ledger_job};

/// Eight blocks, each written once, all at once; and as many, of which only the first two or the first are written.
pub(super) const EIGHT: &[u8] = b"[a]\nrw=write\nbs=1k\nsize=8k\niodepth=8\n";

pub(super) const TWO_OF_EIGHT: &[u8] = b"[a]\nrw=write\nbs=1k\nsize=8k\nio_size=2k\niodepth=2\n";

/// Two blocks, each written once, both at once.
pub(super) const TWO: &[u8] = b"[a]\nrw=write\nbs=1k\nsize=2k\niodepth=2\n";

/// What comes of a block.
#[derive(Clone, Copy)]
pub(super) enum Block {
    /// That it could not be read.
    Unread,
    /// This byte over and over.
    Byte(u8),
    /// The whole of a write: its run, its number, and the block that it says.
    Write(u64, u64, u64),
    /// These sectors.
    Sectors(&'static [Sector]),
    /// The byte before a block, and no bytes.
    Flag(u8),
}

/// What has happened since the last check, the job of it and what was told of its writes, a full pass where nothing
/// was; what comes of the target then; and the status and the lines.
#[derive(Clone, Copy)]
pub(super) struct Step {
    pub(super) run: u64,
    pub(super) since: Since,
    pub(super) job: &'static [u8],
    pub(super) told: &'static [Tell],
    pub(super) target: &'static [Block],
    pub(super) status: u8,
    pub(super) lines: &'static str,
}

fn push_sectors(bytes: &mut Vec<u8>, sectors: &[Sector]) -> Result<(), AllocError> {
    bytes.push(1)?;
    for sector in sectors {
        push_sector(bytes, *sector)?;
    }
    Ok(())
}

/// Adds what comes of a block.
fn push_block(bytes: &mut Vec<u8>, block: &Block) -> Result<(), AllocError> {
    match block {
        Unread => push_flag(bytes, 0),
        Flag(flag) => push_flag(bytes, *flag),
        Byte(byte) => push_sectors(bytes, &[Filled(*byte), Filled(*byte)]),
        Whole(run, write, block) => push_sectors(
            bytes,
            &[
                Stamp(*run, 0, *write, *block, 0),
                Stamp(*run, 0, *write, *block, 1),
            ],
        ),
        Sectors(sectors) => push_sectors(bytes, sectors),
    }
}

fn push_flag(bytes: &mut Vec<u8>, flag: u8) -> Result<(), AllocError> {
    bytes.push(flag)?;
    Ok(())
}

/// Adds the state of a step's run, where it was kept.
fn push_state(alloc: Global, bytes: &mut Vec<u8>, step: &Step) -> Option<()> {
    if step.since != Since::Run {
        return Some(());
    }
    if step.told.is_empty() {
        return push_text(bytes, b"").ok();
    }
    let state = state_of(alloc, step.run, step.job, step.told)?;
    push_text(bytes, &state).ok()
}

/// The input of a step, by this ledger.
pub(super) fn ledger_input(alloc: Global, step: &Step, ledger: &[u8]) -> Option<Vec<u8>> {
    let mut input = Vec::new(alloc);
    push_text(&mut input, step.job).ok()?;
    push_state(alloc, &mut input, step)?;
    push_text(&mut input, ledger).ok()?;
    for block in step.target {
        push_block(&mut input, block).ok()?;
    }
    Some(input)
}

/// What is answered to a source: the status and what is written.
pub(super) fn answer(
    alloc: Global,
    key: Key,
    since: Since,
    mut source: Source<'_>,
) -> Option<(u8, Vec<u8>)> {
    let mut page = page_with(alloc, usize::MAX);
    let status = ledger_job(alloc, key, since, &mut source, &mut page).ok()?;
    Some((status, Vec::from_slice(alloc, &page.text).ok()?))
}

/// The ledger that stands behind these lines with its length, to the end of what was written.
pub(super) fn ledger_behind(alloc: Global, written: &[u8], lines: &str) -> Option<Vec<u8>> {
    let rest = written.strip_prefix(lines.as_bytes())?;
    let end = rest.iter().position(|byte| *byte == b'\n')?;
    let ledger = rest.get(end.wrapping_add(1)..)?;
    let mut line = page_with(alloc, usize::MAX);
    writeln!(line, "ledger {}", ledger.len()).ok()?;
    if rest.starts_with(&line.text) && line.text.len() == end.wrapping_add(1) {
        Vec::from_slice(alloc, ledger).ok()
    } else {
        None
    }
}

/// The ledger that a step writes behind its lines, by this source.
fn ledger_by(alloc: Global, step: &Step, source: Source<'_>) -> Option<Vec<u8>> {
    let (status, written) = answer(alloc, key_of(step.run, 0), step.since, source)?;
    if status == step.status {
        ledger_behind(alloc, &written, step.lines)
    } else {
        None
    }
}

/// The ledger that a step writes behind its lines, the same whole and in steps.
pub(super) fn ledger_after(alloc: Global, step: &Step, ledger: &[u8]) -> Option<Vec<u8>> {
    let input = ledger_input(alloc, step, ledger)?;
    let whole = ledger_by(alloc, step, source_of(&input))?;
    let in_parts = ledger_by(alloc, step, in_steps(&input, 100))?;
    if whole == in_parts { Some(whole) } else { None }
}

/// The ledger behind all steps, or the number of the first that isn't answered as it says. The first ledger is none.
pub(super) fn ledger_behind_all(alloc: Global, steps: &[Step]) -> Result<Vec<u8>, Fail> {
    let mut ledger = Vec::new(alloc);
    for (number, step) in steps.iter().enumerate() {
        match ledger_after(alloc, step, &ledger) {
            Some(next) => ledger = next,
            None => return Err(Fail::new(number)),
        }
    }
    Ok(ledger)
}

/// Whether each step is answered as it says.
pub(super) fn tell_all(alloc: Global, steps: &[Step]) -> Result<(), Fail> {
    ledger_behind_all(alloc, steps)?;
    Ok(())
}

/// Whether a step writes its lines by this source, and nothing behind them.
pub(super) fn writes_no_ledger(alloc: Global, step: &Step, source: Source<'_>) -> Option<bool> {
    let (status, written) = answer(alloc, key_of(step.run, 0), step.since, source)?;
    Some(status == step.status && written.as_slice() == step.lines.as_bytes())
}
