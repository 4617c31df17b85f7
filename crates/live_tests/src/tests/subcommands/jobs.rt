//! What `fiocut jobs` prints.

use super::text_of_length;
use commands::run_jobs;
use fake_io::{Held, Source, held_output, in_steps, page_with, source_of};
use program_io::refuse_words;
use std::alloc::{AllocError, Global};
use std::io;
use std::test::Fail;

const LATER_GLOBAL: &[u8] =
    b"[global]\nrw=write\nsize=4k\nbs=512\n[a]\n[global]\nbs=1k\n[b]\nsize=8k\n";

const LATER_GLOBAL_LINES: &str = "\
job 0 a sequential blocks=8 total=8 bs=512 seed=1 depth=1 window=1 verify=stamp save=1 load=0 fatal=0 file=-
job 1 b sequential blocks=8 total=8 bs=1024 seed=2 depth=1 window=1 verify=stamp save=1 load=0 fatal=0 file=-
jobs 2 phase write
";

const READING_LINES: &str = "\
job 0 a sequential blocks=4 total=4 bs=4096 seed=1 depth=1 window=1 verify=stamp save=1 load=0 fatal=0 file=-
jobs 1 phase read
";

const RANDOM: &[u8] =
    b"[a b]\nrw=randread\ndirect=1\nbs=512\nsize=32m\nio_size=512000000\niodepth=2\nx_window=256\nrandseed=18446744073709551615\nverify=pattern\nverify_pattern=0x0a\nverify_state_save=0\nverify_state_load=1\nverify_fatal=1\nfilename=data\n";

const RANDOM_LINES: &str = "\
note 3 direct has no effect here
job 0 a b random blocks=65536 total=1000000 bs=512 seed=18446744073709551615 depth=2 window=256 verify=0x0a save=0 load=1 fatal=1 file=data
jobs 1 phase read
";

const NO_MAP_LINES: &str = "\
job 0 a norandommap blocks=1 total=1 bs=4096 seed=1 depth=1 window=1 verify=stamp save=1 load=0 fatal=0 file=-
jobs 1 phase read
";

/// Whether the jobs of a text are answered by this status, and these lines are printed.
fn answers(alloc: Global, source: &mut Source<'_>, status: u8, lines: &str) -> bool {
    let mut page = page_with(alloc, usize::MAX);
    let answer = run_jobs(alloc, source, &mut page);
    answer.ok() == Some(status) && page.text.as_slice() == lines.as_bytes()
}

/// Texts, and their lines.
static PRINTED: [(&[u8], &str); 4] = [
    (LATER_GLOBAL, LATER_GLOBAL_LINES),
    (b"[a]\nsize=16k", READING_LINES),
    (RANDOM, RANDOM_LINES),
    (b"[a]\nrw=randread\nnorandommap\nsize=4k\n", NO_MAP_LINES),
];

#[test]
fn printed_texts(rt: HostRuntime) -> Result<(), Fail> {
    for (text, lines) in &PRINTED {
        if !answers(rt.alloc(), &mut source_of(text), 0, lines) {
            return Err(Fail::new(*lines));
        }
    }
    Ok(())
}

/// Texts, and the one line of their refusal.
static REFUSED: [(&[u8], &str); 9] = [
    (b"[a]\nsize=4k\n# \x80\n", "refused 2 NotAscii\n"),
    (b"x=1\n", "refused 3 BadLine 1\n"),
    (b"[a]\nfoo=1\n", "refused 4 UnknownOption 2\n"),
    (b"[a]\nbs=4ki\nsize=1m\n", "refused 5 BadValue 2\n"),
    (b"", "refused 6 NoJobs\n"),
    (
        b"[0]\n[1]\n[2]\n[3]\n[4]\n[5]\n[6]\n[7]\n[8]\n[9]\n[a]\n[b]\n[c]\n[d]\n[e]\n[f]\n[g]\n",
        "refused 7 TooManyJobs\n",
    ),
    (b"[a]\nrw=write\n", "refused 8 NoSize 0\n"),
    (
        b"[a]\nsize=4k\n[b]\nsize=4k\nbs=1000\n",
        "refused 9 OutOfLimits 1\n",
    ),
    (
        b"[a]\nrw=write\nsize=4k\n[b]\nrw=read\nsize=4k\n",
        "refused 11 MixedPhases\n",
    ),
];

#[test]
fn refused_texts(rt: HostRuntime) -> Result<(), Fail> {
    for (text, line) in &REFUSED {
        if !answers(rt.alloc(), &mut source_of(text), 2, line) {
            return Err(Fail::new(*line));
        }
    }
    Ok(())
}

/// How often reading is interrupted before it gives bytes, how many bytes a read gives, whether a read
/// fails in place of telling the end, and the status and the lines that come of it.
static READ: [(u32, usize, bool, u8, &str); 8] = [
    (0, 1, false, 0, LATER_GLOBAL_LINES),
    (0, 1, true, 2, "refused 91 ReadError\n"),
    (0, 7, true, 2, "refused 91 ReadError\n"),
    (0, usize::MAX, true, 2, "refused 91 ReadError\n"),
    (1, usize::MAX, false, 0, LATER_GLOBAL_LINES),
    (19_998, usize::MAX, false, 0, LATER_GLOBAL_LINES),
    (19_999, usize::MAX, false, 2, "refused 91 ReadError\n"),
    (u32::MAX, usize::MAX, false, 2, "refused 91 ReadError\n"),
];

#[test]
fn slow_and_failed_reads(rt: HostRuntime) -> Result<(), Fail> {
    for (at, &(interruptions, step, fails_at_end, status, lines)) in READ.iter().enumerate() {
        let mut source = Source {
            interruptions,
            fails_at_end,
            ..in_steps(LATER_GLOBAL, step)
        };
        if !answers(rt.alloc(), &mut source, status, lines) || source.reads > 20_000 {
            return Err(Fail::new(at));
        }
    }
    Ok(())
}

const LONGEST_LINES: &str = "\
job 0 a sequential blocks=1 total=1 bs=4096 seed=1 depth=1 window=1 verify=stamp save=1 load=0 fatal=0 file=-
jobs 1 phase read
";

/// A text of so many bytes, how many of them a read gives, and whether one fails in place of telling the
/// end; the status and the lines that come of it, how many reads were asked for, and how many bytes are
/// left.
struct Long {
    length: usize,
    step: usize,
    fails_at_end: bool,
    answer: (u8, &'static str),
    reads: u32,
    left: usize,
}

/// The longest text in one read and byte by byte, and longer ones, of which no more is read than shows it.
static LONG: [Long; 4] = [
    Long {
        length: 16_384,
        step: usize::MAX,
        fails_at_end: false,
        answer: (0, LONGEST_LINES),
        reads: 2,
        left: 0,
    },
    Long {
        length: 16_384,
        step: 1,
        fails_at_end: false,
        answer: (0, LONGEST_LINES),
        reads: 16_385,
        left: 0,
    },
    Long {
        length: 16_385,
        step: usize::MAX,
        fails_at_end: true,
        answer: (2, "refused 1 TooLong\n"),
        reads: 1,
        left: 0,
    },
    Long {
        length: 100_000,
        step: usize::MAX,
        fails_at_end: false,
        answer: (2, "refused 1 TooLong\n"),
        reads: 1,
        left: 100_000 - 16_385,
    },
];

/// Whether a long text comes to what its row says.
fn is_read(alloc: Global, row: &Long) -> Result<bool, AllocError> {
    let text = text_of_length(alloc, row.length)?;
    let mut source = Source {
        fails_at_end: row.fails_at_end,
        ..in_steps(&text, row.step)
    };
    let (status, lines) = row.answer;
    let same = answers(alloc, &mut source, status, lines);
    Ok(same && source.reads == row.reads && source.text.len() == row.left)
}

#[test]
fn long_texts(rt: HostRuntime) -> Result<(), Fail> {
    for row in &LONG {
        if !is_read(rt.alloc(), row)? {
            return Err(Fail::new(row.length));
        }
    }
    Ok(())
}

/// Whether a run stops at the first failed write: it printed what there was room for.
fn stops_at_failed_write(alloc: Global, text: &[u8], lines: &str, room: usize) -> bool {
    let mut page = page_with(alloc, room);
    let status = run_jobs(alloc, &mut source_of(text), &mut page);
    let printed = page.text.as_slice();
    status.is_err()
        && page.late_writes == 0
        && printed.len() == room
        && lines.as_bytes().starts_with(printed)
}

/// Texts, what is printed of them, and the room that there is for it.
static CUT_SHORT: [(&[u8], &str, [usize; 4]); 2] = [
    (LATER_GLOBAL, LATER_GLOBAL_LINES, [0, 1, 9, 24]),
    (
        b"[a]\nfoo=1\n",
        "refused 4 UnknownOption 2\n",
        [0, 1, 9, 24],
    ),
];

#[test]
fn failed_writes(rt: HostRuntime) -> Result<(), Fail> {
    for (text, lines, rooms) in &CUT_SHORT {
        for room in rooms {
            if !stops_at_failed_write(rt.alloc(), text, lines, *room) {
                return Err(Fail::new(*room));
            }
        }
    }
    Ok(())
}

/// Whether an answer is this status, and an output shows these lines.
fn shows(output: &Held, answer: io::Result<u8>, status: u8, lines: &str) -> bool {
    answer.ok() == Some(status) && output.shown.as_slice() == lines.as_bytes()
}

/// Whether the answer to a text is flushed.
fn is_flushed(alloc: Global, text: &[u8], status: u8, lines: &str) -> bool {
    let mut output = held_output(alloc);
    let answer = run_jobs(alloc, &mut source_of(text), &mut output);
    shows(&output, answer, status, lines)
}

/// Whether the answer to a bad command line is flushed.
fn is_refusal_flushed(alloc: Global) -> bool {
    let mut output = held_output(alloc);
    let answer = refuse_words(&mut output);
    shows(&output, answer, 2, "bad command\n")
}

#[test]
fn answers_are_flushed(rt: HostRuntime) {
    assert!(rt; is_flushed(rt.alloc(), LATER_GLOBAL, 0, LATER_GLOBAL_LINES));
    assert!(rt; is_flushed(rt.alloc(), b"", 2, "refused 6 NoJobs\n"));
    assert!(rt; is_refusal_flushed(rt.alloc()));
}
