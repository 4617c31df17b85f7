//! That nothing is kept back: what is shown of an output that has to be flushed, and how often it was.

use super::inputs::Tell::*;
use super::inputs::{TWO_BLOCKS, Tell, input_of, push_text};
use super::ledger_bytes::TWO_PASS;
use super::ledger_inputs::Block::{Flag, Unread};
use super::ledger_inputs::{Step, ledger_behind, ledger_input};
use super::map_inputs::Comes::{Byte, Sector as Bytes};
use super::map_inputs::Sector::*;
use super::map_inputs::{Comes, key_of, map_input};
use super::stamps::{RUN, target_of};
use fake_io::{Held, held_output, in_steps, source_of};
use fc_base::{JobNo, RunNo};
use std::alloc::Global;
use std::io::BufReader;
use std::test::Fail;
use targets::{check_job, ledger_job, map_job, write_job};

/// What is told, how often the output is flushed where each byte comes by itself, and how many bytes are shown
/// then: once before each notice is waited for, and once behind the state or the line of a refusal.
static ROWS: [(&str, &[Tell], u32, usize); 4] = [
    ("a take at once", &[Take], 2, 2 * 528 + 136),
    (
        "a whole job",
        &[Done(1), Done(0), Done(3), Done(2), Take],
        6,
        4 * 528 + 136,
    ),
    ("no take", &[Done(0)], 3, 3 * 528 + 22),
    ("a second end", &[Done(0), Done(0)], 3, 3 * 528 + 23),
];

/// Writes to an output that has to be flushed, by an input whose bytes come one by one.
fn write(alloc: Global, told: &[Tell], output: &mut Held) -> Option<u8> {
    let input = input_of(alloc, TWO_BLOCKS, told).ok()?;
    let mut reader = BufReader::new(alloc, in_steps(&input, 1)).ok()?;
    write_job(alloc, RunNo(RUN), JobNo(0), &mut reader, output).ok()
}

/// Whether so much is shown, after so many flushes, and nothing is kept back.
fn shows(alloc: Global, told: &[Tell], flushes: u32, bytes: usize) -> bool {
    let mut output = held_output(alloc);
    let status = write(alloc, told, &mut output);
    status.is_some()
        && output.held.is_empty()
        && output.flushes == flushes
        && output.shown.len() == bytes
}

#[test]
fn orders_states_and_refusals_are_flushed(rt: HostRuntime) -> Result<(), Fail> {
    for (name, told, flushes, bytes) in &ROWS {
        if !shows(rt.alloc(), told, *flushes, *bytes) {
            return Err(Fail::new(*name));
        }
    }
    Ok(())
}

/// A full pass over both blocks, to this output.
fn check(alloc: Global, output: &mut Held) -> Option<u8> {
    let target = target_of(alloc, &[Some((2, 0)), Some((3, 1))]).ok()?;
    let mut input = Vec::new(alloc);
    push_text(&mut input, TWO_BLOCKS).ok()?;
    push_text(&mut input, b"").ok()?;
    input.extend_from_slice(&target).ok()?;
    check_job(alloc, RunNo(RUN), JobNo(0), &mut source_of(&input), output).ok()
}

#[test]
fn reports_are_flushed(rt: HostRuntime) -> Result<(), Fail> {
    let mut output = held_output(rt.alloc());
    let status = check(rt.alloc(), &mut output);
    let line = b"report checked 2 faults 0 end whole first -\n";
    if status == Some(0) && output.held.is_empty() && output.shown.as_slice() == line.as_slice() {
        Ok(())
    } else {
        Err(Fail::new("a report"))
    }
}

/// What comes of a target in a full pass over both blocks, the status, and all that is shown once the
/// map has ended.
static MAPS: [(&[Comes], u8, &str); 4] = [
    (
        &[
            Byte(1),
            Bytes(Stamp(RUN, 0, 2, 0, 0)),
            Byte(1),
            Bytes(Stamp(RUN, 0, 3, 1, 0)),
        ],
        0,
        "unchecked\nreport checked 2 faults 0 end whole first -\n",
    ),
    (
        &[Byte(1), Bytes(Filled(0)), Byte(1), Bytes(Filled(0))],
        1,
        "block 0 unwritten: wants write 2\nblock 1 unwritten: wants write 3\n\
         unchecked\nreport checked 2 faults 2 end whole first 0 1 unwritten 2\n",
    ),
    (
        &[Byte(0)],
        2,
        "block 0 unread: wants write 2\n\
         unchecked\nreport checked 0 faults 0 end read 1 first - unread 1\n",
    ),
    (
        &[Byte(0), Byte(2)],
        2,
        "block 0 unread: wants write 2\nrefused 94 BadNotice\n",
    ),
];

/// A map of a target, to this output.
fn map(alloc: Global, target: &[Comes], output: &mut Held) -> Option<u8> {
    let input = map_input(alloc, TWO_BLOCKS, &[], target)?;
    map_job(alloc, key_of(RUN, 0), None, &mut source_of(&input), output).ok()
}

/// Whether a map ends with this status, just these lines are shown then, and nothing is kept back.
fn shows_map(alloc: Global, target: &[Comes], status: u8, lines: &str) -> bool {
    let mut output = held_output(alloc);
    map(alloc, target, &mut output) == Some(status)
        && output.held.is_empty()
        && output.shown.as_slice() == lines.as_bytes()
}

#[test]
fn maps_are_flushed(rt: HostRuntime) -> Result<(), Fail> {
    for (target, status, lines) in &MAPS {
        if !shows_map(rt.alloc(), target, *status, lines) {
            return Err(Fail::new(*lines));
        }
    }
    Ok(())
}

/// What comes of two blocks in a check by a ledger that asks for nothing, its status, and the lines that are shown
/// once it has ended, behind which a ledger stands or none does.
static LEDGERS: [(Step, bool); 4] = [
    (TWO_PASS, true),
    (
        Step {
            target: &[Unread],
            status: 2,
            lines: "block 0 unread: wants write 0\n\
                unchecked\nreport checked 0 faults 0 end read 1 first - unread 1\n",
            ..TWO_PASS
        },
        false,
    ),
    (
        Step {
            target: &[Unread, Flag(2)],
            status: 2,
            lines: "block 0 unread: wants write 0\nrefused 94 BadNotice\n",
            ..TWO_PASS
        },
        false,
    ),
    (
        Step {
            job: b"",
            status: 2,
            lines: "refused 6 NoJobs\n",
            ..TWO_PASS
        },
        false,
    ),
];

/// A check by this ledger, to this output.
fn check_ledger(alloc: Global, step: &Step, ledger: &[u8], output: &mut Held) -> Option<u8> {
    let input = ledger_input(alloc, step, ledger)?;
    ledger_job(
        alloc,
        key_of(RUN, 0),
        step.since,
        &mut source_of(&input),
        output,
    )
    .ok()
}

/// Whether a check by a ledger ends with its status, just its lines and a ledger are shown then, and nothing is kept
/// back.
fn shows_ledger(alloc: Global, step: &Step, has_ledger: bool) -> bool {
    let mut output = held_output(alloc);
    let status = check_ledger(alloc, step, b"", &mut output);
    let is_shown = if has_ledger {
        ledger_behind(alloc, &output.shown, step.lines).is_some()
    } else {
        output.shown.as_slice() == step.lines.as_bytes()
    };
    status == Some(step.status) && output.held.is_empty() && is_shown
}

#[test]
fn ledgers_are_flushed(rt: HostRuntime) -> Result<(), Fail> {
    for (number, (step, has_ledger)) in LEDGERS.iter().enumerate() {
        if !shows_ledger(rt.alloc(), step, *has_ledger) {
            return Err(Fail::new(number));
        }
    }
    Ok(())
}

/// Whether a check by a ledger fails where the flush of its output does: that of a report, and that of a refusal of the
/// ledger's bytes.
fn fails_to_flush_ledgers(alloc: Global) -> bool {
    let mut output = held_output(alloc);
    output.fails = true;
    check_ledger(alloc, &TWO_PASS, b"", &mut output).is_none()
        && check_ledger(alloc, &TWO_PASS, b"no ledger", &mut output).is_none()
        && output.flushes == 2
}

#[test]
fn failed_flushes_of_ledgers(rt: HostRuntime) {
    assert!(rt; fails_to_flush_ledgers(rt.alloc()));
}

#[test]
fn failed_flushes(rt: HostRuntime) -> Result<(), Fail> {
    let mut output = held_output(rt.alloc());
    output.fails = true;
    let written = write(rt.alloc(), &[Take], &mut output);
    let checked = check(rt.alloc(), &mut output);
    let mapped = map(rt.alloc(), &[Byte(0), Byte(0)], &mut output);
    if (written, checked, mapped) == (None, None, None) {
        Ok(())
    } else {
        Err(Fail::new("a flush"))
    }
}
