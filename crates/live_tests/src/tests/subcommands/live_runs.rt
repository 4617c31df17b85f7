//! Live runs: what is printed, and the exit statuses.

use super::text_of_length;
use commands::{FileTrigger, FleetSize, MAX_INPUT, run_live};
use fake_io::{Page, Source, failing, page_with, source_of};
use node_threads::Trigger;
use std::alloc::{AllocError, Global};
use std::sync::Wait;
use std::test::Fail;
use std::thread::Threads;

/// A trigger that is pulled from the start, or never.
#[derive(Drop)]
struct Pulled(bool);

impl Trigger for Pulled {
    fn pulled(&mut self) -> bool {
        self.0
    }
}

/// Runs a source by so many servers of so many workers, and answers the status, unless that is no fleet
/// or a write fails.
fn run<R: Threads + Wait + AllocGlobal + Sync>(
    rt: &R,
    (servers, workers): (u32, u32),
    mut trigger: Pulled,
    source: &mut Source<'_>,
    page: &mut Page,
) -> Option<u8> {
    if !(1..=8).contains(&servers) || !(1..=16).contains(&workers) {
        return None;
    }
    let size = FleetSize { servers, workers };
    run_live(rt, rt.alloc(), size, &mut trigger, source, page).ok()
}

/// Whether a run without a trigger is answered by this status, and these lines are printed.
fn answers<R: Threads + Wait + AllocGlobal + Sync>(
    rt: &R,
    size: (u32, u32),
    source: &mut Source<'_>,
    status: u8,
    lines: &str,
) -> bool {
    let mut page = page_with(rt.alloc(), usize::MAX);
    let answer = run(rt, size, Pulled(false), source, &mut page);
    answer == Some(status) && page.text.as_slice() == lines.as_bytes()
}

const ONE_JOB: &[u8] = b"\
[a]
rw=write
bs=512
size=1k
iodepth=2
.
[a]
rw=read
bs=512
size=1k
verify_state_load=1
";

const TWO_REPORTS: &str = "\
report 0 0 checked 2 faults 0 end whole first -
report 1 0 checked 2 faults 0 end whole first -
assembled
";

#[test]
fn a_hundred_runs(rt: HostRuntime) {
    for _ in 0..100 {
        assert!(rt; answers(&rt, (2, 2), &mut source_of(ONE_JOB), 0, TWO_REPORTS));
    }
}

const EIGHT_REPORTS: &str = "\
report 0 0 checked 2 faults 0 end whole first -
report 1 0 checked 2 faults 0 end whole first -
report 2 0 checked 2 faults 0 end whole first -
report 3 0 checked 2 faults 0 end whole first -
report 4 0 checked 2 faults 0 end whole first -
report 5 0 checked 2 faults 0 end whole first -
report 6 0 checked 2 faults 0 end whole first -
report 7 0 checked 2 faults 0 end whole first -
assembled
";

/// A full pass over four blocks, of which the last two were never written.
const UNWRITTEN: &[u8] = b"[a]\nrw=write\nbs=512\nsize=1k\n.\n[a]\nrw=read\nbs=512\nsize=2k\n";

const OTHER_JOB: &[u8] = b"\
[a]
rw=write
bs=512
size=1k
.
[a]
rw=read
bs=1k
size=1k
verify_state_load=1
";

/// How many servers of how many workers run an input, and the status and the lines that come of it: the
/// largest fleet, blocks that were never written, and a state that does not fit.
static ENDED: [((u32, u32), &[u8], u8, &str); 3] = [
    ((8, 16), ONE_JOB, 0, EIGHT_REPORTS),
    (
        (1, 2),
        UNWRITTEN,
        1,
        "report 0 0 checked 4 faults 2 end whole first 2 3\nassembled\n",
    ),
    (
        (2, 1),
        OTHER_JOB,
        2,
        "refused 0 0 67 Misfit\nrefused 1 0 67 Misfit\nassembled\n",
    ),
];

#[test]
fn ended_runs(rt: HostRuntime) -> Result<(), Fail> {
    for (size, input, status, lines) in &ENDED {
        if !answers(&rt, *size, &mut source_of(input), *status, lines) {
            return Err(Fail::new(*lines));
        }
    }
    Ok(())
}

/// Inputs, and the one line of their refusal.
static REFUSED: [(&[u8], &str); 7] = [
    (b"", "refused 6 NoJobs\n"),
    (b"[a]\nrw=write\nsize=4k\n", "refused 6 NoJobs\n"),
    (b"[a]\nrw=write\nsize=4k\n.x\n", "refused 3 BadLine 4\n"),
    (b"[a]\nsize=4k\n.\n[a]\nfoo=1\n", "refused 13 WrongPhase\n"),
    (
        b"[a]\nfoo=1\n.\n[a]\nfoo=1\n",
        "refused 4 UnknownOption 2\n",
    ),
    (
        b"[a]\nrw=write\nsize=4k\n.\n[a]\nrw=write\nsize=4k\n",
        "refused 13 WrongPhase\n",
    ),
    (
        b"[a]\nrw=write\nsize=4k\n.\n\n[a]\nfoo=1\n",
        "refused 4 UnknownOption 3\n",
    ),
];

#[test]
fn refused_inputs(rt: HostRuntime) -> Result<(), Fail> {
    for (input, line) in &REFUSED {
        if !answers(&rt, (1, 1), &mut source_of(input), 2, line) {
            return Err(Fail::new(*line));
        }
    }
    Ok(())
}

#[test]
fn inputs_that_cannot_be_read(rt: HostRuntime) {
    let line = "refused 91 ReadError\n";
    assert!(rt; answers(&rt, (1, 1), &mut failing(ONE_JOB, 7), 2, line));
}

const TRIGGERED: &[u8] = b"\
[a]
rw=write
bs=512
size=32k
.
[a]
rw=read
bs=512
size=32k
verify_state_load=1
";

/// Whether the lines tell of no fault at two servers, and that all is one list of events.
fn tell_of_no_fault(lines: &str) -> bool {
    let sound = lines
        .lines()
        .filter(|line| line.contains(" faults 0 end whole first -"))
        .count();
    sound == 2 && lines.ends_with("\nassembled\n")
}

#[test]
fn pulled_from_the_start(rt: HostRuntime) {
    let mut page = page_with(rt.alloc(), usize::MAX);
    let mut source = source_of(TRIGGERED);
    let answer = run(&rt, (2, 2), Pulled(true), &mut source, &mut page);
    assert!(rt; answer == Some(0));
    let lines = str::from_utf8(page.text.as_slice());
    assert!(rt; lines.is_ok_and(tell_of_no_fault));
}

/// A path at which there is something wherever a test runs, and two at which there is nothing.
static PATHS: [(&str, bool); 3] = [
    (".", true),
    ("no-trigger", false),
    ("no-trigger/below", false),
];

#[test]
fn file_triggers(rt: HostRuntime) -> Result<(), Fail> {
    for (path, is_there) in &PATHS {
        let mut trigger = FileTrigger { files: &rt, path };
        if trigger.pulled() != *is_there {
            return Err(Fail::new(*path));
        }
    }
    Ok(())
}

/// Whether an input of so many bytes is refused as too long.
fn is_too_long<R: Threads + Wait + AllocGlobal + Sync>(
    rt: &R,
    length: usize,
) -> Result<bool, AllocError> {
    let input = text_of_length(rt.alloc(), length)?;
    let mut source = source_of(&input);
    Ok(answers(rt, (1, 1), &mut source, 2, "refused 1 TooLong\n"))
}

#[test]
fn longest_input(rt: HostRuntime) -> Result<(), Fail> {
    for length in [MAX_INPUT, MAX_INPUT + 1] {
        if !is_too_long(&rt, length)? {
            return Err(Fail::new(length));
        }
    }
    Ok(())
}

/// A text that writes, padded with line feeds to the longest, a dot, and a text that reads, padded so.
fn two_longest(alloc: Global) -> Result<Vec<u8>, AllocError> {
    let mut input = Vec::from_slice(alloc, b"[a]\nrw=write\nbs=512\nsize=1k\n")?;
    input.resize(16_384, b'\n')?;
    input.extend_from_slice(b".\n[a]\nrw=read\nbs=512\nsize=1k\n")?;
    input.resize(MAX_INPUT, b'\n')?;
    Ok(input)
}

#[test]
fn two_texts_of_the_longest(rt: HostRuntime) -> Result<(), Fail> {
    let input = two_longest(rt.alloc())?;
    let line = "report 0 0 checked 2 faults 0 end whole first -\nassembled\n";
    assert!(rt; answers(&rt, (1, 1), &mut source_of(&input), 0, line));
    Ok(())
}
