//! Which jobs, states and ledgers are refused, and by which line.

use super::inputs::Tell::*;
use super::inputs::push_text;
use super::ledger_bytes::{MAGIC, PASS_NUMBERS, TWO_PASS, spelled};
use super::ledger_inputs::{
    EIGHT, Step, TWO, answer, ledger_behind, ledger_input, writes_no_ledger,
};
use super::map_inputs::{key_of, state_of};
use super::stamps::RUN;
use fake_io::source_of;
use fc_base::{JobNo, Key};
use std::alloc::Global;
use std::test::Fail;
use targets::Since;

/// Two blocks, each written twice.
const TWO_TWICE: &[u8] = b"[a]\nrw=write\nbs=1k\nsize=2k\nio_size=4k\niodepth=2\n";

/// Both blocks at rest, each with its write.
const TWO_REST: Step = Step {
    since: Since::Rest,
    ..TWO_PASS
};

/// Whether a step by this ledger is answered by this line alone, and the status 2.
fn refuses(alloc: Global, step: &Step, ledger: &[u8], lines: &'static str) -> Option<bool> {
    let refused = Step {
        status: 2,
        lines,
        ..*step
    };
    let input = ledger_input(alloc, step, ledger)?;
    writes_no_ledger(alloc, &refused, source_of(&input))
}

/// Another number in a place of the ledger, and the line that refuses it.
static NUMBERS: [(usize, u64, &str); 11] = [
    (0, 0, "refused 102 NoLedger\n"),
    (1, 1 << 32, "refused 104 BadBlockSize\n"),
    (1, 512, "refused 106 Impossible\n"),
    (2, 65_537, "refused 103 TooManyBlocks\n"),
    (2, 3, "refused 100 Short\n"),
    (3, 2, "refused 100 Short\n"),
    (7, 3, "refused 105 BadRun\n"),
    (16, 0, "refused 107 OtherSpelling\n"),
    (16, 4, "refused 100 Short\n"),
    (17, 1, "refused 105 BadRun\n"),
    (18, 2, "refused 106 Impossible\n"),
];

/// Whether the ledger with this number is refused, with a digest of its own.
fn refuses_number(alloc: Global, at: usize, number: u64, line: &'static str) -> Option<bool> {
    let mut numbers = PASS_NUMBERS;
    *numbers.get_mut(at)? = number;
    refuses(alloc, &TWO_REST, &spelled(alloc, &numbers, None)?, line)
}

#[test]
fn ledgers_with_another_number_are_refused(rt: HostRuntime) -> Result<(), Fail> {
    for (row, (at, number, line)) in NUMBERS.iter().enumerate() {
        if refuses_number(rt.alloc(), *at, *number, line) != Some(true) {
            return Err(Fail::new(row));
        }
    }
    Ok(())
}

/// Whether the ledger is refused with a bit turned over in this byte, and cut before it.
fn refuses_damage(alloc: Global, at: usize) -> Option<bool> {
    let mut ledger = spelled(alloc, &PASS_NUMBERS, None)?;
    let cut = if at < 20 {
        "refused 100 Short\n"
    } else {
        "refused 101 Damaged\n"
    };
    let is_cut = at == 0 || refuses(alloc, &TWO_REST, ledger.get(..at)?, cut)?;
    *ledger.get_mut(at)? ^= 16;
    let is_turned = refuses(alloc, &TWO_REST, &ledger, "refused 101 Damaged\n")?;
    Some(is_cut && is_turned)
}

#[test]
fn damaged_ledgers_are_refused(rt: HostRuntime) -> Result<(), Fail> {
    for at in 0..196 {
        if refuses_damage(rt.alloc(), at) != Some(true) {
            return Err(Fail::new(at));
        }
    }
    Ok(())
}

/// The bytes of a block and how many blocks of which nothing is asked, and whether they are the job's.
static PLACES: [(u64, usize, bool); 6] = [
    (1024, 2, true),
    (512, 2, false),
    (2048, 2, false),
    (1024, 1, false),
    (1024, 3, false),
    (512, 4, false),
];

/// Whether a ledger of so many blocks that asks for nothing is taken, or refused as one of another place.
fn tells_place(alloc: Global, size: u64, blocks: usize, is_own: bool) -> Option<bool> {
    let numbers = [MAGIC, size, blocks as u64, 0, 0, 0, 0, 0];
    let ledger = spelled(alloc, numbers.get(..blocks.wrapping_add(4))?, None)?;
    if !is_own {
        return refuses(alloc, &TWO_REST, &ledger, "refused 109 OtherPlace\n");
    }
    let input = ledger_input(alloc, &TWO_REST, &ledger)?;
    let lines = "unchecked 0-1\nreport checked 0 faults 0 end whole first -\n";
    let (status, written) = answer(alloc, key_of(RUN, 0), Since::Rest, source_of(&input))?;
    let behind = ledger_behind(alloc, &written, lines)?;
    Some(status == 0 && behind.as_slice() == ledger.as_slice())
}

#[test]
fn ledgers_of_other_places_are_refused(rt: HostRuntime) -> Result<(), Fail> {
    for (row, (size, blocks, is_own)) in PLACES.iter().enumerate() {
        if tells_place(rt.alloc(), *size, *blocks, *is_own) != Some(true) {
            return Err(Fail::new(row));
        }
    }
    Ok(())
}

/// The input of a check by a job file, a state, where there is to be one, and no ledger; and both blocks.
fn input_by(alloc: Global, job: &[u8], state: Option<&[u8]>) -> Option<Vec<u8>> {
    let mut input = Vec::new(alloc);
    push_text(&mut input, job).ok()?;
    if let Some(state) = state {
        push_text(&mut input, state).ok()?;
    }
    push_text(&mut input, b"").ok()?;
    input.extend_from_slice(&[0; 2]).ok()?;
    Some(input)
}

/// Whether a check by this run's key and such an input is answered by this line.
fn refuses_state(alloc: Global, run: u64, job: &[u8], state: &[u8], line: &str) -> Option<bool> {
    let input = input_by(alloc, job, Some(state))?;
    let (status, written) = answer(alloc, key_of(run, 0), Since::Run, source_of(&input))?;
    Some(status == 2 && written.as_slice() == line.as_bytes())
}

/// The state of the first run with its first byte changed, cut, and with a byte behind it.
fn changed_states(alloc: Global) -> Option<bool> {
    let mut state = state_of(alloc, RUN, TWO, &[Done(0), Take])?;
    let short = refuses_state(alloc, RUN, TWO, state.get(..135)?, "refused 30 Short\n")?;
    state.push(0).ok()?;
    let long = refuses_state(alloc, RUN, TWO, &state, "refused 34 Trailing\n")?;
    *state.get_mut(0)? ^= 1;
    let magic = refuses_state(alloc, RUN, TWO, state.get(..136)?, "refused 31 BadMagic\n")?;
    Some(short && long && magic)
}

/// The state of the first run for another run, and for other jobs.
fn misfits(alloc: Global) -> Option<bool> {
    let state = state_of(alloc, RUN, TWO, &[Done(0), Take])?;
    let run = refuses_state(alloc, 8, TWO, &state, "refused 36 OtherKey\n")?;
    let job = refuses_state(alloc, RUN, TWO_TWICE, &state, "refused 37 OtherJob\n")?;
    let place = refuses_state(alloc, RUN, EIGHT, &state, "refused 37 OtherJob\n")?;
    Some(run && job && place)
}

#[test]
fn states_of_ledgers_are_refused(rt: HostRuntime) {
    assert!(rt; changed_states(rt.alloc()) == Some(true));
    assert!(rt; misfits(rt.alloc()) == Some(true));
}

/// Job files, and the line that refuses them.
static JOBS: [(&[u8], &str); 4] = [
    (b"", "refused 6 NoJobs\n"),
    (b"[a]\nfoo=1\n", "refused 4 UnknownOption 2\n"),
    (
        b"[a]\nrw=write\nbs=512\nsize=256\n",
        "refused 9 OutOfLimits 0\n",
    ),
    (b"[a\n", "refused 3 BadLine 1\n"),
];

/// Whether a job file is refused by this line, where a state is to come and where none is.
fn refuses_job(alloc: Global, job: &[u8], line: &str) -> Option<bool> {
    let input = input_by(alloc, job, None)?;
    let (status, written) = answer(alloc, key_of(RUN, 0), Since::LostRun, source_of(&input))?;
    let with_state = refuses_state(alloc, RUN, job, b"", line)?;
    Some(with_state && status == 2 && written.as_slice() == line.as_bytes())
}

/// Whether a job that isn't in its file is refused.
fn refuses_absent_job(alloc: Global) -> Option<bool> {
    let key = Key {
        job: JobNo(1),
        ..key_of(RUN, 0)
    };
    let input = input_by(alloc, TWO, None)?;
    let (status, written) = answer(alloc, key, Since::Rest, source_of(&input))?;
    Some(status == 2 && written.as_slice() == b"refused 96 NoJob\n".as_slice())
}

#[test]
fn jobs_of_ledgers_are_refused(rt: HostRuntime) -> Result<(), Fail> {
    for (job, line) in &JOBS {
        if refuses_job(rt.alloc(), job, line) != Some(true) {
            return Err(Fail::new(*line));
        }
    }
    assert!(rt; refuses_absent_job(rt.alloc()) == Some(true));
    Ok(())
}

/// Behind a lost run no state is read: one that stands there is taken for a ledger.
fn takes_state_as_ledger(alloc: Global, since: Since) -> Option<bool> {
    let state = state_of(alloc, RUN, TWO, &[Done(0), Take])?;
    let input = input_by(alloc, TWO, Some(&state))?;
    let (status, written) = answer(alloc, key_of(RUN, 0), since, source_of(&input))?;
    Some(status == 2 && written.as_slice() == b"refused 101 Damaged\n".as_slice())
}

#[test]
fn no_state_is_read_without_a_kept_run(rt: HostRuntime) {
    assert!(rt; takes_state_as_ledger(rt.alloc(), Since::LostRun) == Some(true));
    assert!(rt; takes_state_as_ledger(rt.alloc(), Since::Rest) == Some(true));
}

/// Whether a ledger with this length before it, and so many bytes behind that, is refused by this line.
fn refuses_length(alloc: Global, length: u32, bytes: usize, line: &str) -> Option<bool> {
    let mut input = Vec::new(alloc);
    push_text(&mut input, TWO).ok()?;
    input.extend_from_slice(&length.to_be_bytes()).ok()?;
    let ledger = vec![in alloc; 0u8; bytes].ok()?;
    input.extend_from_slice(&ledger).ok()?;
    let (status, written) = answer(alloc, key_of(RUN, 0), Since::Rest, source_of(&input))?;
    Some(status == 2 && written.as_slice() == line.as_bytes())
}

#[test]
fn ledgers_of_great_length_are_refused(rt: HostRuntime) {
    let alloc = rt.alloc();
    assert!(rt; refuses_length(alloc, u32::MAX, 67_108_865, "refused 108 TooLong\n") == Some(true));
    assert!(rt; refuses_length(alloc, u32::MAX, 100, "refused 95 EndOfInput\n") == Some(true));
}
