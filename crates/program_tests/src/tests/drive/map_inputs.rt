//! The inputs of maps: job files, states, and blocks behind their bytes, by the layout that the
//! manual gives stamps.

use super::inputs::{Tell, input_of, push_text};
use super::stamps::RUN;
use fake_io::{Source, in_steps, page_with, source_of};
use fc_base::{JobNo, Key, RunNo, ServerNo};
use std::alloc::{AllocError, Global};
use std::io::BufReader;
use std::test::Fail;
use targets::{map_job, write_job};

/// Two writes of a pattern to one block of two sectors.
pub(super) const PATTERN: &[u8] =
    b"[a]\nrw=write\nbs=1k\nsize=1k\nio_size=2k\niodepth=2\nverify=pattern\nverify_pattern=0x55\n";

/// Four writes to two blocks, where the first fault is fatal.
pub(super) const FATAL: &[u8] =
    b"[a]\nrw=write\nbs=512\nsize=1k\nio_size=2k\niodepth=2\nverify_fatal=1\n";

/// Two writes to one block of two sectors.
pub(super) const ONE_BLOCK: &[u8] = b"[a]\nrw=write\nbs=1k\nsize=1k\nio_size=2k\niodepth=2\n";

/// Three hundred writes to one block of a sector, and to one of two.
pub(super) const MANY: &[u8] = b"[a]\nrw=write\nbs=512\nsize=512\nio_size=153600\n";

pub(super) const MANY_WIDE: &[u8] = b"[a]\nrw=write\nbs=1k\nsize=1k\nio_size=300k\n";

/// Two writes to one block of four sectors.
pub(super) const FOUR_SECTORS: &[u8] = b"[a]\nrw=write\nbs=2k\nsize=2k\nio_size=4k\niodepth=2\n";

/// Six blocks, of which each is written once, all at once.
pub(super) const SIX_BLOCKS: &[u8] = b"[a]\nrw=write\nbs=512\nsize=3k\niodepth=6\n";

/// Writes 0 and 1 done, and 2 and 3 in flight.
pub(super) const TWO_DONE: &[Tell] = &[Tell::Done(0), Tell::Done(1), Tell::Take];

/// What a sector is made of.
#[derive(Clone, Copy)]
pub(super) enum Sector {
    /// The stamp of this run, job, write, block and place.
    Stamp(u64, u32, u64, u64, u32),
    /// The stamp of this write, block and place, of whose bytes at these places these bits are
    /// turned over.
    Changed(u64, u64, u32, &'static [(usize, u8)]),
    /// This byte over and over, likewise.
    Spoilt(u8, &'static [(usize, u8)]),
    /// This byte over and over.
    Filled(u8),
}

use Sector::{Changed, Filled, Spoilt, Stamp};

/// What comes of a target: a byte, or a sector.
#[derive(Clone, Copy)]
pub(super) enum Comes {
    Byte(u8),
    Sector(Sector),
}

use Comes::{Byte, Sector as Bytes};

/// Adds the stamp of a run, a job of server 0, a write, a block and a place, by the layout that the
/// manual gives it.
fn push_stamp(
    bytes: &mut Vec<u8>,
    run: u64,
    job: u32,
    write: u64,
    block: u64,
    place: u32,
) -> Result<(), AllocError> {
    bytes.extend_from_slice(&run.to_be_bytes())?;
    bytes.extend_from_slice(&[0; 4])?;
    bytes.extend_from_slice(&job.to_be_bytes())?;
    bytes.extend_from_slice(&write.to_be_bytes())?;
    bytes.extend_from_slice(&block.to_be_bytes())?;
    bytes.extend_from_slice(&place.to_be_bytes())?;
    for count in 0..476u64 {
        bytes.push((write.wrapping_add(count) % 256) as u8)?;
    }
    Ok(())
}

/// Turns bits over in the last 512 bytes.
fn turn_over(bytes: &mut Vec<u8>, places: &[(usize, u8)]) {
    let start = bytes.len().saturating_sub(512);
    for (place, bits) in places {
        if let Some(byte) = bytes.get_mut(start.wrapping_add(*place)) {
            *byte ^= *bits;
        }
    }
}

/// Adds a sector.
pub(super) fn push_sector(bytes: &mut Vec<u8>, sector: Sector) -> Result<(), AllocError> {
    match sector {
        Stamp(run, job, write, block, place) => push_stamp(bytes, run, job, write, block, place),
        Filled(byte) => bytes.extend_from_slice(&[byte; 512]),
        Changed(write, block, place, places) => {
            push_stamp(bytes, RUN, 0, write, block, place)?;
            turn_over(bytes, places);
            Ok(())
        }
        Spoilt(byte, places) => {
            bytes.extend_from_slice(&[byte; 512])?;
            turn_over(bytes, places);
            Ok(())
        }
    }
}

/// The bytes that come.
fn target_of(alloc: Global, target: &[Comes]) -> Result<Vec<u8>, AllocError> {
    let mut bytes = Vec::new(alloc);
    for comes in target {
        match comes {
            Byte(byte) => bytes.push(*byte)?,
            Bytes(sector) => push_sector(&mut bytes, *sector)?,
        }
    }
    Ok(bytes)
}

/// The state that this run of a job ends with by what is told: the last 136 bytes.
pub(super) fn state_of(alloc: Global, run: u64, text: &[u8], told: &[Tell]) -> Option<Vec<u8>> {
    let input = input_of(alloc, text, told).ok()?;
    let mut page = page_with(alloc, usize::MAX);
    let mut reader = BufReader::new(alloc, source_of(&input)).ok()?;
    let status = write_job(alloc, RunNo(run), JobNo(0), &mut reader, &mut page).ok()?;
    let text = page.text.as_slice();
    if status != 0 || text.len() < 136 {
        return None;
    }
    let (_, state) = text.split_at(text.len() - 136);
    Vec::from_slice(alloc, state).ok()
}

/// The input of a map: a full pass where nothing is told.
pub(super) fn map_input(
    alloc: Global,
    text: &[u8],
    told: &[Tell],
    target: &[Comes],
) -> Option<Vec<u8>> {
    let mut input = Vec::new(alloc);
    push_text(&mut input, text).ok()?;
    if told.is_empty() {
        push_text(&mut input, b"").ok()?;
    } else {
        let state = state_of(alloc, RUN, text, told)?;
        push_text(&mut input, &state).ok()?;
    }
    input
        .extend_from_slice(&target_of(alloc, target).ok()?)
        .ok()?;
    Some(input)
}

/// Job 0 of this server in this run.
pub(super) fn key_of(run: u64, server: u32) -> Key {
    Key {
        run: RunNo(run),
        server: ServerNo(server),
        job: JobNo(0),
    }
}

/// Whether a source is answered by this status and these lines, by a unit or without one.
pub(super) fn answers(
    alloc: Global,
    key: Key,
    unit: Option<u32>,
    mut source: Source<'_>,
    status: u8,
    lines: &str,
) -> bool {
    let mut page = page_with(alloc, usize::MAX);
    let answer = map_job(alloc, key, unit, &mut source, &mut page).ok();
    answer == Some(status) && page.text.as_slice() == lines.as_bytes()
}

/// The job file, what was told of its writes by the state, what comes of the target, the status and
/// the lines.
pub(super) type Row = (
    &'static [u8],
    &'static [Tell],
    &'static [Comes],
    u8,
    &'static str,
);

/// Whether a row is answered as it says, whole and in steps.
pub(super) fn agrees(alloc: Global, unit: Option<u32>, row: &Row) -> Option<bool> {
    let (text, told, target, status, lines) = row;
    let input = map_input(alloc, text, told, target)?;
    let key = key_of(RUN, 0);
    Some(
        answers(alloc, key, unit, source_of(&input), *status, lines)
            && answers(alloc, key, unit, in_steps(&input, 100), *status, lines),
    )
}

/// Whether each row is answered as it says, or the number of the first that isn't.
pub(super) fn all_agree(alloc: Global, rows: &[Row]) -> Result<(), Fail> {
    for (number, row) in rows.iter().enumerate() {
        if agrees(alloc, None, row) != Some(true) {
            return Err(Fail::new(number));
        }
    }
    Ok(())
}
