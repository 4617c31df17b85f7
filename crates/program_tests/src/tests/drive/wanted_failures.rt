//! Questions which blocks a check has to read that are refused, whose input ends before its blocks, whose reads fail,
//! whose answer finds no room, and want of memory.

use super::inputs::Tell::*;
use super::inputs::push_text;
use super::ledger_bytes::{MAGIC, PASS_NUMBERS, TWO_PASS, spelled};
use super::ledger_inputs::{EIGHT, Step, TWO, ledger_input};
use super::map_inputs::{key_of, state_of};
use super::stamps::RUN;
use super::wanted_inputs::{answer_wanted, refuses_wanted};
use fake_io::{failing_at, held_output, page_with, source_of};
use fc_base::{JobNo, Key};
use std::alloc::Global;
use std::test::Fail;
use targets::{Since, wanted_job};

/// A run of which write 0 is done, behind a full pass over two blocks: both are asked for.
const HALF: Step = Step {
    run: 8,
    told: &[Done(0), Take],
    target: &[],
    ..TWO_PASS
};

const HALF_BYTES: &[u8] = &[3];

/// No run, and one whose state was lost.
const HALF_REST: Step = Step {
    since: Since::Rest,
    ..HALF
};

const HALF_LOST: Step = Step {
    since: Since::LostRun,
    ..HALF
};

/// The input of a step by the ledger behind a full pass.
fn input_of(alloc: Global, step: &Step) -> Option<Vec<u8>> {
    ledger_input(alloc, step, &spelled(alloc, &PASS_NUMBERS, None)?)
}

/// Whether a step whose input ends anywhere before its blocks is refused.
fn refuses_each_front(alloc: Global, step: &Step) -> Option<bool> {
    let input = input_of(alloc, step)?;
    let mut agree = true;
    for end in 0..input.len() {
        let source = source_of(input.get(..end)?);
        let line = "refused 95 EndOfInput\n";
        agree = agree && refuses_wanted(alloc, key_of(8, 0), step.since, source, line)?;
    }
    Some(agree)
}

#[test]
fn inputs_that_end_before_their_blocks(rt: HostRuntime) {
    assert!(rt; refuses_each_front(rt.alloc(), &HALF) == Some(true));
    assert!(rt; refuses_each_front(rt.alloc(), &HALF_REST) == Some(true));
    assert!(rt; refuses_each_front(rt.alloc(), &HALF_LOST) == Some(true));
}

/// Whether the question is refused where the read of this number fails, and each behind it.
fn fails_at_read(alloc: Global, number: u32) -> Option<bool> {
    let input = input_of(alloc, &HALF)?;
    let source = failing_at(&input, usize::MAX, number);
    refuses_wanted(
        alloc,
        key_of(8, 0),
        Since::Run,
        source,
        "refused 91 ReadError\n",
    )
}

/// The lengths and texts of the job, the state and the ledger are reads 0 to 5.
#[test]
fn failed_reads_of_a_question(rt: HostRuntime) -> Result<(), Fail> {
    for number in 0..6 {
        if fails_at_read(rt.alloc(), number) != Some(true) {
            return Err(Fail::new(number));
        }
    }
    assert!(rt; fails_at_read(rt.alloc(), 6) == Some(false));
    Ok(())
}

/// Whether an output with room for so many bytes fails, and is not written to any more.
fn fails_at_byte(alloc: Global, input: &[u8], room: usize) -> bool {
    let mut page = page_with(alloc, room);
    let mut source = source_of(input);
    let answered = wanted_job(alloc, key_of(8, 0), Since::Run, &mut source, &mut page);
    answered.is_err() && page.late_writes == 0
}

/// Whether each room that is too small fails, and the whole room doesn't: of an answer, and of a refusal.
fn rooms_fail(alloc: Global) -> Option<bool> {
    let input = input_of(alloc, &HALF)?;
    let mut agree = !fails_at_byte(alloc, &input, 1) && fails_at_byte(alloc, &input, 0);
    for room in 0..22 {
        agree = agree && fails_at_byte(alloc, b"", room);
    }
    Some(agree && !fails_at_byte(alloc, b"", 22))
}

#[test]
fn rooms_of_an_answer(rt: HostRuntime) {
    assert!(rt; rooms_fail(rt.alloc()) == Some(true));
}

/// Whether an answer is shown whole behind its flush, and nothing is kept back.
fn shows(alloc: Global, input: &[u8], status: u8, shown: &[u8]) -> bool {
    let mut output = held_output(alloc);
    let mut source = source_of(input);
    let answered = wanted_job(alloc, key_of(8, 0), Since::Run, &mut source, &mut output).ok();
    answered == Some(status) && output.held.is_empty() && output.shown.as_slice() == shown
}

/// Whether an answer whose flush fails is an error.
fn fails_to_flush(alloc: Global, input: &[u8]) -> bool {
    let mut output = held_output(alloc);
    output.fails = true;
    let mut source = source_of(input);
    let answered = wanted_job(alloc, key_of(8, 0), Since::Run, &mut source, &mut output);
    answered.is_err() && output.flushes == 1
}

#[test]
fn answers_are_flushed(rt: HostRuntime) -> Result<(), Fail> {
    let Some(input) = input_of(rt.alloc(), &HALF) else {
        return Err(Fail::new("an input"));
    };
    assert!(rt; shows(rt.alloc(), &input, 0, HALF_BYTES));
    assert!(rt; shows(rt.alloc(), b"", 2, b"refused 95 EndOfInput\n"));
    assert!(rt; fails_to_flush(rt.alloc(), &input));
    assert!(rt; fails_to_flush(rt.alloc(), b""));
    Ok(())
}

/// Whether a question is answered whole, or else refused for want of memory and nothing else, or the output itself has
/// none. What the test asks for may be missing, too.
fn stands_want(alloc: Global) -> bool {
    let Some(input) = input_of(alloc, &HALF) else {
        return true;
    };
    let mut page = page_with(alloc, usize::MAX);
    let mut source = source_of(&input);
    let answered = wanted_job(alloc, key_of(8, 0), Since::Run, &mut source, &mut page);
    let text = page.text.as_slice();
    match answered {
        Ok(0) => text == HALF_BYTES,
        Ok(2) => {
            text == b"refused 12 NoMemory\n".as_slice()
                || text == b"refused 35 NoMemory\n".as_slice()
        }
        Ok(_) => false,
        Err(_) => true,
    }
}

#[test]
fn want_of_memory_of_a_question(rt: HostRuntime) {
    assert!(rt; stands_want(rt.alloc()));
}

/// Another number in a place of the ledger, and the line that refuses it.
static NUMBERS: [(usize, u64, &str); 10] = [
    (0, 0, "refused 102 NoLedger\n"),
    (1, 1 << 32, "refused 104 BadBlockSize\n"),
    (1, 512, "refused 106 Impossible\n"),
    (2, 65_537, "refused 103 TooManyBlocks\n"),
    (2, 3, "refused 100 Short\n"),
    (3, 2, "refused 100 Short\n"),
    (7, 3, "refused 105 BadRun\n"),
    (16, 0, "refused 107 OtherSpelling\n"),
    (17, 1, "refused 105 BadRun\n"),
    (18, 2, "refused 106 Impossible\n"),
];

/// Whether a question by this ledger is refused by this line.
fn refuses_ledger(alloc: Global, ledger: &[u8], line: &str) -> Option<bool> {
    let input = ledger_input(alloc, &HALF_REST, ledger)?;
    refuses_wanted(alloc, key_of(8, 0), Since::Rest, source_of(&input), line)
}

fn refuses_number(alloc: Global, at: usize, number: u64, line: &str) -> Option<bool> {
    let mut numbers = PASS_NUMBERS;
    *numbers.get_mut(at)? = number;
    refuses_ledger(alloc, &spelled(alloc, &numbers, None)?, line)
}

/// Whether a ledger with a bit turned over is refused, and one of three blocks.
fn refuses_others(alloc: Global) -> Option<bool> {
    let mut damaged = spelled(alloc, &PASS_NUMBERS, None)?;
    *damaged.get_mut(20)? ^= 1;
    let is_refused = refuses_ledger(alloc, &damaged, "refused 101 Damaged\n")?;
    let other = spelled(alloc, &[MAGIC, 1024, 3, 0, 0, 0, 0], None)?;
    Some(is_refused && refuses_ledger(alloc, &other, "refused 109 OtherPlace\n")?)
}

#[test]
fn ledgers_that_are_refused(rt: HostRuntime) -> Result<(), Fail> {
    for (row, (at, number, line)) in NUMBERS.iter().enumerate() {
        if refuses_number(rt.alloc(), *at, *number, line) != Some(true) {
            return Err(Fail::new(row));
        }
    }
    assert!(rt; refuses_others(rt.alloc()) == Some(true));
    Ok(())
}

/// A job, a state and no ledger.
fn input_by(alloc: Global, job: &[u8], state: &[u8]) -> Option<Vec<u8>> {
    let mut input = Vec::new(alloc);
    push_text(&mut input, job).ok()?;
    push_text(&mut input, state).ok()?;
    push_text(&mut input, b"").ok()?;
    Some(input)
}

/// Whether a question by a state is refused by this line.
fn refuses_state(alloc: Global, key: Key, job: &[u8], state: &[u8], line: &str) -> Option<bool> {
    let input = input_by(alloc, job, state)?;
    refuses_wanted(alloc, key, Since::Run, source_of(&input), line)
}

/// Whether a state that isn't of the run, the server or the job is refused, and one that is cut; and whether it is told
/// what it asks for where it is.
fn states_agree(alloc: Global) -> Option<bool> {
    let state = state_of(alloc, RUN, TWO, &[Done(1), Take])?;
    let key = key_of(RUN, 0);
    let run = refuses_state(alloc, key_of(8, 0), TWO, &state, "refused 36 OtherKey\n")?;
    let server = refuses_state(alloc, key_of(RUN, 3), TWO, &state, "refused 36 OtherKey\n")?;
    let job = refuses_state(alloc, key, EIGHT, &state, "refused 37 OtherJob\n")?;
    let cut = refuses_state(alloc, key, TWO, state.get(..135)?, "refused 30 Short\n")?;
    let input = input_by(alloc, TWO, &state)?;
    let (status, written) = answer_wanted(alloc, key, Since::Run, source_of(&input))?;
    Some(run && server && job && cut && status == 0 && written.as_slice() == b"\x02".as_slice())
}

#[test]
fn states_that_are_refused(rt: HostRuntime) {
    assert!(rt; states_agree(rt.alloc()) == Some(true));
}

/// Job files and the line that refuses them.
static JOBS: [(&[u8], &str); 3] = [
    (b"", "refused 6 NoJobs\n"),
    (b"[a]\nfoo=1\n", "refused 4 UnknownOption 2\n"),
    (
        b"[a]\nrw=write\nbs=512\nsize=256\n",
        "refused 9 OutOfLimits 0\n",
    ),
];

/// Whether a job that isn't in its file is refused.
fn refuses_absent_job(alloc: Global) -> Option<bool> {
    let key = Key {
        job: JobNo(1),
        ..key_of(RUN, 0)
    };
    refuses_state(alloc, key, TWO, b"", "refused 96 NoJob\n")
}

#[test]
fn jobs_that_are_refused(rt: HostRuntime) -> Result<(), Fail> {
    for (job, line) in &JOBS {
        if refuses_state(rt.alloc(), key_of(RUN, 0), job, b"", line) != Some(true) {
            return Err(Fail::new(*line));
        }
    }
    assert!(rt; refuses_absent_job(rt.alloc()) == Some(true));
    Ok(())
}
