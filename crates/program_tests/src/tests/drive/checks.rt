//! Checks of a target's bytes: the line of the report, and the status.

use super::inputs::Tell::*;
use super::inputs::{TWO_BLOCKS, Tell, input_of, push_text};
use super::stamps::{RUN, target_of};
use fake_io::{Page, Source, failing_at, in_steps, page_with, source_of};
use fc_base::{JobNo, RunNo};
use std::alloc::Global;
use std::io::BufReader;
use std::test::Fail;
use targets::{check_job, write_job};

/// The same, where the first fault is fatal.
const FATAL: &[u8] = b"[a]\nrw=write\nbs=512\nsize=1k\nio_size=2k\niodepth=2\nverify_fatal=1\n";

/// The same region in one block.
const ONE_BLOCK: &[u8] = b"[a]\nrw=write\nbs=1k\nsize=1k\nio_size=2k\niodepth=2\n";

/// What the blocks hold: a write and its block's number, or zeros.
type Blocks = &'static [Option<(u64, u64)>];

/// Writes 0 and 1 done, and 2 and 3 in flight.
const TWO_DONE: &[Tell] = &[Done(0), Done(1), Take];

/// The job file, what was told of its writes by the state, the blocks, the status and the line.
type Row = (&'static [u8], &'static [Tell], Blocks, u8, &'static str);

static ROWS: [Row; 12] = [
    (
        TWO_BLOCKS,
        TWO_DONE,
        &[Some((0, 0)), Some((1, 1))],
        0,
        "report checked 2 faults 0 end whole first -\n",
    ),
    (
        TWO_BLOCKS,
        TWO_DONE,
        &[Some((2, 0)), Some((1, 1))],
        0,
        "report checked 2 faults 0 end whole first -\n",
    ),
    (
        TWO_BLOCKS,
        TWO_DONE,
        &[Some((2, 0)), Some((3, 1))],
        0,
        "report checked 2 faults 0 end whole first -\n",
    ),
    (
        TWO_BLOCKS,
        TWO_DONE,
        &[None, Some((1, 1))],
        1,
        "report checked 2 faults 1 end whole first 0\n",
    ),
    (
        TWO_BLOCKS,
        TWO_DONE,
        &[Some((1, 1)), Some((0, 0))],
        1,
        "report checked 2 faults 2 end whole first 0 1\n",
    ),
    (
        TWO_BLOCKS,
        TWO_DONE,
        &[Some((0, 1)), Some((1, 1))],
        1,
        "report checked 2 faults 1 end whole first 0\n",
    ),
    (
        TWO_BLOCKS,
        &[Done(0), Done(1), Done(2), Take],
        &[Some((0, 0)), Some((1, 1))],
        1,
        "report checked 2 faults 1 end whole first 0\n",
    ),
    (
        TWO_BLOCKS,
        &[Take],
        &[None, None],
        0,
        "report checked 0 faults 0 end whole first -\n",
    ),
    (
        TWO_BLOCKS,
        &[Done(1), Take],
        &[None, Some((1, 1))],
        0,
        "report checked 1 faults 0 end whole first -\n",
    ),
    (
        FATAL,
        TWO_DONE,
        &[None, None],
        1,
        "report checked 1 faults 1 end fault first 0\n",
    ),
    (
        FATAL,
        TWO_DONE,
        &[None],
        1,
        "report checked 1 faults 1 end fault first 0\n",
    ),
    (
        TWO_BLOCKS,
        TWO_DONE,
        &[Some((0, 0))],
        2,
        "report checked 1 faults 0 end read 1 first -\n",
    ),
];

/// The state that a run ends with by what is told, behind so many orders of one sector.
fn state_of(alloc: Global, told: &[Tell]) -> Option<Vec<u8>> {
    let input = input_of(alloc, TWO_BLOCKS, told).ok()?;
    let mut page = page_with(alloc, usize::MAX);
    let mut reader = BufReader::new(alloc, source_of(&input)).ok()?;
    let status = write_job(alloc, RunNo(RUN), JobNo(0), &mut reader, &mut page).ok()?;
    let text = page.text.as_slice();
    if status != 0 || text.len() < 136 {
        return None;
    }
    let (_, state) = text.split_at(text.len() - 136);
    Vec::from_slice(alloc, state).ok()
}

/// The input of a check.
fn check_input(alloc: Global, text: &[u8], state: &[u8], target: &[u8]) -> Option<Vec<u8>> {
    let mut input = Vec::new(alloc);
    push_text(&mut input, text).ok()?;
    push_text(&mut input, state).ok()?;
    input.extend_from_slice(target).ok()?;
    Some(input)
}

/// Checks a source, and answers the status, unless a write fails.
fn check(alloc: Global, run: u64, job: u32, mut source: Source<'_>, page: &mut Page) -> Option<u8> {
    check_job(alloc, RunNo(run), JobNo(job), &mut source, page).ok()
}

/// Whether a source is answered by this status and this line.
fn answers(alloc: Global, run: u64, source: Source<'_>, status: u8, line: &str) -> bool {
    let mut page = page_with(alloc, usize::MAX);
    let answer = check(alloc, run, 0, source, &mut page);
    answer == Some(status) && page.text.as_slice() == line.as_bytes()
}

/// Whether an input is answered so, whole and in steps.
fn is_answered(alloc: Global, run: u64, input: &[u8], status: u8, line: &str) -> bool {
    answers(alloc, run, source_of(input), status, line)
        && answers(alloc, run, in_steps(input, 100), status, line)
}

/// Whether a row is answered as it says.
fn agrees(alloc: Global, row: &Row) -> Option<bool> {
    let (text, told, blocks, status, line) = row;
    let state = state_of(alloc, told)?;
    let target = target_of(alloc, blocks).ok()?;
    let input = check_input(alloc, text, &state, &target)?;
    Some(is_answered(alloc, RUN, &input, *status, line))
}

#[test]
fn checks_of_a_target(rt: HostRuntime) -> Result<(), Fail> {
    for (number, row) in ROWS.iter().enumerate() {
        if agrees(rt.alloc(), row) != Some(true) {
            return Err(Fail::new(number));
        }
    }
    Ok(())
}

/// The target of writes 0 and 1, of which a byte is another.
fn damaged(alloc: Global, at: usize) -> Option<Vec<u8>> {
    let mut target = target_of(alloc, &[Some((0, 0)), Some((1, 1))]).ok()?;
    let byte = target.get_mut(at)?;
    *byte ^= 1;
    Some(target)
}

/// Whether a changed byte is a fault of its block.
fn is_found(alloc: Global, state: &[u8], at: usize) -> Option<bool> {
    let target = damaged(alloc, at)?;
    let input = check_input(alloc, TWO_BLOCKS, state, &target)?;
    let line = if at < 512 {
        "report checked 2 faults 1 end whole first 0\n"
    } else {
        "report checked 2 faults 1 end whole first 1\n"
    };
    Some(answers(alloc, RUN, source_of(&input), 1, line))
}

/// Whether each changed byte is found.
fn all_are_found(alloc: Global) -> Option<bool> {
    let state = state_of(alloc, TWO_DONE)?;
    let mut agree = true;
    for at in 0..1_024 {
        agree = agree && is_found(alloc, &state, at)?;
    }
    Some(agree)
}

#[test]
fn each_byte_of_a_target_changed(rt: HostRuntime) -> Result<(), Fail> {
    match all_are_found(rt.alloc()) {
        Some(true) => Ok(()),
        _ => Err(Fail::new("a byte")),
    }
}

/// Whether each front of a target that isn't whole is told as one.
fn fronts_are_told(alloc: Global) -> Option<bool> {
    let state = state_of(alloc, TWO_DONE)?;
    let target = target_of(alloc, &[Some((0, 0)), Some((1, 1))]).ok()?;
    let mut agree = true;
    for length in 0..target.len() {
        let input = check_input(alloc, TWO_BLOCKS, &state, &target[..length])?;
        let line = if length < 512 {
            "report checked 0 faults 0 end read 0 first -\n"
        } else {
            "report checked 1 faults 0 end read 1 first -\n"
        };
        agree = agree && answers(alloc, RUN, source_of(&input), 2, line);
    }
    Some(agree)
}

#[test]
fn targets_that_are_too_short(rt: HostRuntime) -> Result<(), Fail> {
    match fronts_are_told(rt.alloc()) {
        Some(true) => Ok(()),
        _ => Err(Fail::new("a front")),
    }
}

/// The job file, a change of the state, the run and the line that refuses it.
static REFUSED: [(&[u8], State, u64, &str); 8] = [
    (TWO_BLOCKS, State::Whole, 8, "refused 36 OtherKey\n"),
    (ONE_BLOCK, State::Whole, RUN, "refused 37 OtherJob\n"),
    (TWO_BLOCKS, State::Short, RUN, "refused 30 Short\n"),
    (TWO_BLOCKS, State::Changed(0), RUN, "refused 31 BadMagic\n"),
    (TWO_BLOCKS, State::Changed(23), RUN, "refused 32 BadField\n"),
    (
        TWO_BLOCKS,
        State::Changed(71),
        RUN,
        "refused 38 OtherPlace\n",
    ),
    (TWO_BLOCKS, State::Long(1), RUN, "refused 34 Trailing\n"),
    (TWO_BLOCKS, State::Long(9_000), RUN, "refused 34 Trailing\n"),
];

/// A state, whole or changed.
#[derive(Clone, Copy)]
enum State {
    Whole,
    /// Its last byte is not there.
    Short,
    /// The byte at this place is another.
    Changed(usize),
    /// So many bytes stand behind it.
    Long(usize),
}

/// The state with this change.
fn changed(alloc: Global, change: State) -> Option<Vec<u8>> {
    let mut state = state_of(alloc, TWO_DONE)?;
    match change {
        State::Whole => {}
        State::Short => {
            state.pop()?;
        }
        State::Changed(at) => *state.get_mut(at)? ^= 1,
        State::Long(count) => push_zeros(&mut state, count)?,
    }
    Some(state)
}

fn push_zeros(bytes: &mut Vec<u8>, count: usize) -> Option<()> {
    for _ in 0..count {
        bytes.push(0).ok()?;
    }
    Some(())
}

/// Whether a check is refused by this line.
fn is_refused(alloc: Global, text: &[u8], change: State, run: u64, line: &str) -> Option<bool> {
    let state = changed(alloc, change)?;
    let target = target_of(alloc, &[Some((0, 0)), Some((1, 1))]).ok()?;
    let input = check_input(alloc, text, &state, &target)?;
    Some(answers(alloc, run, source_of(&input), 2, line))
}

/// The state in its older layout: its front but for the four letters, how many writes it counts, and their numbers.
fn in_layout_1(alloc: Global) -> Option<Vec<u8>> {
    let state = state_of(alloc, TWO_DONE)?;
    let mut older = Vec::from_slice(alloc, b"FCV1").ok()?;
    older.extend_from_slice(state.get(4..96)?).ok()?;
    older.extend_from_slice(&2u32.to_be_bytes()).ok()?;
    for write in 0..2u64 {
        older.extend_from_slice(&write.to_be_bytes()).ok()?;
    }
    Some(older)
}

/// Whether a target is checked by the state in its older layout.
fn checks_by_layout_1(alloc: Global, line: &str) -> Option<bool> {
    let state = in_layout_1(alloc)?;
    let target = target_of(alloc, &[Some((2, 0)), Some((1, 1))]).ok()?;
    let input = check_input(alloc, TWO_BLOCKS, &state, &target)?;
    Some(is_answered(alloc, RUN, &input, 0, line))
}

#[test]
fn a_state_in_the_older_layout(rt: HostRuntime) -> Result<(), Fail> {
    match checks_by_layout_1(rt.alloc(), "report checked 2 faults 0 end whole first -\n") {
        Some(true) => Ok(()),
        _ => Err(Fail::new("layout 1")),
    }
}

#[test]
fn states_that_are_refused(rt: HostRuntime) -> Result<(), Fail> {
    for (text, change, run, line) in &REFUSED {
        if is_refused(rt.alloc(), text, *change, *run, line) != Some(true) {
            return Err(Fail::new(*line));
        }
    }
    Ok(())
}

/// Whether a full pass, without a state, wants the last writes.
fn passes(alloc: Global, blocks: &[Option<(u64, u64)>], status: u8, line: &str) -> Option<bool> {
    let target = target_of(alloc, blocks).ok()?;
    let input = check_input(alloc, TWO_BLOCKS, b"", &target)?;
    Some(is_answered(alloc, RUN, &input, status, line))
}

#[test]
fn full_passes(rt: HostRuntime) -> Result<(), Fail> {
    let sound = "report checked 2 faults 0 end whole first -\n";
    let faulty = "report checked 2 faults 2 end whole first 0 1\n";
    let found = passes(rt.alloc(), &[Some((2, 0)), Some((3, 1))], 0, sound);
    let lost = passes(rt.alloc(), &[Some((0, 0)), Some((1, 1))], 1, faulty);
    if (found, lost) == (Some(true), Some(true)) {
        Ok(())
    } else {
        Err(Fail::new("a full pass"))
    }
}

/// Whether a check is refused where this read fails.
fn fails_at_read(alloc: Global, number: u32) -> Option<bool> {
    let state = state_of(alloc, TWO_DONE)?;
    let target = target_of(alloc, &[Some((0, 0)), Some((1, 1))]).ok()?;
    let input = check_input(alloc, TWO_BLOCKS, &state, &target)?;
    let source = failing_at(&input, usize::MAX, number);
    Some(answers(alloc, RUN, source, 2, "refused 91 ReadError\n"))
}

#[test]
fn failed_reads(rt: HostRuntime) -> Result<(), Fail> {
    for number in 0..6 {
        if fails_at_read(rt.alloc(), number) != Some(true) {
            return Err(Fail::new(number));
        }
    }
    Ok(())
}

/// Whether an output with room for so many bytes fails, and is not written to any more.
fn fails_at_byte(alloc: Global, input: &[u8], room: usize) -> bool {
    let mut page = page_with(alloc, room);
    let status = check(alloc, RUN, 0, source_of(input), &mut page);
    status.is_none() && page.late_writes == 0
}

/// Whether each room that is too small fails.
fn rooms_fail(alloc: Global) -> Option<bool> {
    let target = target_of(alloc, &[Some((2, 0)), Some((3, 1))]).ok()?;
    let input = check_input(alloc, TWO_BLOCKS, b"", &target)?;
    let mut agree = true;
    for room in 0.."report checked 2 faults 0 end whole first -\n".len() {
        agree = agree && fails_at_byte(alloc, &input, room);
    }
    Some(agree)
}

#[test]
fn failed_writes(rt: HostRuntime) -> Result<(), Fail> {
    match rooms_fail(rt.alloc()) {
        Some(true) => Ok(()),
        _ => Err(Fail::new("a room")),
    }
}
