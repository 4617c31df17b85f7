//! Checks by a ledger whose input ends before its blocks, whose reads fail, whose lines find no room, and want of
//! memory.

use super::inputs::Tell::*;
use super::ledger_bytes::{PASS_NUMBERS, TWO_PASS, spelled};
use super::ledger_inputs::Block::*;
use super::ledger_inputs::{Step, answer, ledger_behind, ledger_input, writes_no_ledger};
use super::map_inputs::key_of;
use fake_io::{failing_at, page_with, source_of};
use std::alloc::Global;
use std::test::Fail;
use targets::{Since, ledger_job};

/// A block that the run wrote and one at rest, both lost.
const LOST: Step = Step {
    run: 8,
    told: &[Done(0), Take],
    target: &[Byte(0), Byte(9)],
    status: 1,
    lines: "block 0 unwritten: wants write 0\n\
        block 1 at-rest: wants write 1 of run 7 or write 1 of run 8, holds byte 9\n\
        unchecked\nreport checked 2 faults 2 end whole first 0 1 unwritten 1 at-rest 1\n",
    ..TWO_PASS
};

/// Behind a run whose state was lost: nothing is asked.
const LOST_RUN: Step = Step {
    since: Since::LostRun,
    status: 0,
    lines: "unchecked 0-1\nreport checked 0 faults 0 end whole first -\n",
    ..LOST
};

/// The input of a step by the ledger behind a full pass.
fn input_of(alloc: Global, step: &Step) -> Option<Vec<u8>> {
    ledger_input(alloc, step, &spelled(alloc, &PASS_NUMBERS, None)?)
}

/// Whether a step whose input ends anywhere before its blocks is refused. A block has 1,025 bytes.
fn refuses_each_front(alloc: Global, step: &Step) -> Option<bool> {
    let input = input_of(alloc, step)?;
    let refused = Step {
        status: 2,
        lines: "refused 95 EndOfInput\n",
        ..*step
    };
    let mut agree = true;
    for end in 0..input.len().saturating_sub(2 * 1025) {
        agree = agree && writes_no_ledger(alloc, &refused, source_of(input.get(..end)?))?;
    }
    Some(agree)
}

#[test]
fn inputs_that_end_before_the_blocks(rt: HostRuntime) {
    assert!(rt; refuses_each_front(rt.alloc(), &LOST) == Some(true));
    assert!(rt; refuses_each_front(rt.alloc(), &LOST_RUN) == Some(true));
}

/// Whether a check is refused behind these lines where the read of this number fails, and each behind it.
fn fails_at_read(alloc: Global, number: u32, lines: &'static str) -> Option<bool> {
    let input = input_of(alloc, &LOST)?;
    let refused = Step {
        status: 2,
        lines,
        ..LOST
    };
    writes_no_ledger(alloc, &refused, failing_at(&input, usize::MAX, number))
}

/// Whether the check reads no more than so often.
fn needs_no_read(alloc: Global, number: u32) -> Option<bool> {
    let input = input_of(alloc, &LOST)?;
    let source = failing_at(&input, usize::MAX, number);
    let (status, written) = answer(alloc, key_of(8, 0), Since::Run, source)?;
    Some(status == 1 && ledger_behind(alloc, &written, LOST.lines).is_some())
}

/// The lengths and texts of the job, the state and the ledger are reads 0 to 5; the byte of block 0 and its bytes are 6
/// and 7, and those of block 1 are 8 and 9.
#[test]
fn failed_reads_of_a_ledger(rt: HostRuntime) -> Result<(), Fail> {
    for number in 0..10 {
        let lines = if number < 8 {
            "refused 91 ReadError\n"
        } else {
            "block 0 unwritten: wants write 0\nrefused 91 ReadError\n"
        };
        if fails_at_read(rt.alloc(), number, lines) != Some(true) {
            return Err(Fail::new(number));
        }
    }
    assert!(rt; needs_no_read(rt.alloc(), 10) == Some(true));
    Ok(())
}

/// Whether an output with room for so many bytes fails, and is not written to any more.
fn fails_at_byte(alloc: Global, input: &[u8], room: usize) -> bool {
    let mut page = page_with(alloc, room);
    let mut source = source_of(input);
    let answered = ledger_job(alloc, key_of(8, 0), Since::Run, &mut source, &mut page);
    answered.is_err() && page.late_writes == 0
}

/// Whether each room that is too small fails, and the whole room doesn't.
fn rooms_fail(alloc: Global) -> Option<bool> {
    let input = input_of(alloc, &LOST)?;
    let (_, written) = answer(alloc, key_of(8, 0), Since::Run, source_of(&input))?;
    let mut agree = !fails_at_byte(alloc, &input, written.len());
    for room in 0..written.len() {
        agree = agree && fails_at_byte(alloc, &input, room);
    }
    Some(agree)
}

#[test]
fn rooms_of_a_ledger(rt: HostRuntime) {
    assert!(rt; rooms_fail(rt.alloc()) == Some(true));
}

/// Whether these are the lines of blocks, and behind them nothing but want of memory.
fn wants_memory(written: &[u8]) -> bool {
    let first = "block 0 unwritten: wants write 0\n";
    let both = LOST.lines.as_bytes().get(..107).unwrap_or(b"");
    let rest = written
        .strip_prefix(both)
        .or(written.strip_prefix(first.as_bytes()))
        .unwrap_or(written);
    rest == b"refused 12 NoMemory\n".as_slice() || rest == b"refused 35 NoMemory\n".as_slice()
}

/// Whether a check is answered whole, or else refused for want of memory and nothing else, or the output itself has
/// none. What the test asks for may be missing, too.
fn stands_want(alloc: Global) -> bool {
    let Some(input) = input_of(alloc, &LOST) else {
        return true;
    };
    let mut page = page_with(alloc, usize::MAX);
    let mut source = source_of(&input);
    let answered = ledger_job(alloc, key_of(8, 0), Since::Run, &mut source, &mut page);
    match answered {
        Ok(1) => page.text.starts_with(LOST.lines.as_bytes()),
        Ok(2) => wants_memory(&page.text),
        Ok(_) => false,
        Err(_) => true,
    }
}

#[test]
fn want_of_memory_of_a_ledger(rt: HostRuntime) {
    assert!(rt; stands_want(rt.alloc()));
}
