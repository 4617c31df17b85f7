//! What no clause shows: that scripts print what the manual says, and how a run ends that fails.

use super::ends::{Reading, expect, whole};
use super::lines::UNREAD;
use super::scripts::{ANSWERS, ANSWERS_LINES, PIECES, PIECES_LINES, STORED, STORED_LINES};
use fake_io::{held_output, page_with, source_of};
use net_script::{MAX_SCRIPT, ScriptFault, run_script};
use std::alloc::{AllocError, AllocGlobal, Global};
use std::process::Abort;
use std::test::Fail;

/// Scripts, what they print, and their status.
const SCRIPTS: &[(&str, &str, u8)] = &[
    ("", "", 0),
    ("# nothing\n\n \t\n", "", 0),
    ("servers 8", "ok\n", 0),
    // A first command that isn't `servers`, by its own number, and `servers` again.
    ("\ntick\n", "bad line 2\n", 2),
    ("begin\n[a]\n", "bad line 1\n", 2),
    ("# c\nservers 0\n", "bad line 2\n", 2),
    ("servers 1\nservers 1\ntick\n", "ok\nbad line 2\n", 2),
    // A text that isn't closed, by the number of the last line.
    ("servers 1\nbegin\n", "ok\nbad line 2\n", 2),
    ("servers 1\ntick\nbegin\n[a]\n", "ok\nok\nbad line 4\n", 2),
    ("servers 1\nbegin\n[a]\nsize=4k", "ok\nbad line 4\n", 2),
    ("servers 1\nverify 1\n .\n. \n.\r\n", "ok\nbad line 5\n", 2),
    // A closed text, with lines in it that would be commands, or nothing, elsewhere.
    (
        "servers 1\nbegin\n# c\n\nservers 9\n.\n",
        "ok\nok run 1\nsent 0 client 0 Jobs 39\n",
        0,
    ),
    ("servers 1\nverify 1\n.", "ok\nrefused 70 NoSuchRun\n", 0),
    // Numbers are compared as numbers, however great they are.
    ("servers 1\nissue 0 4294967296\n", "ok\nok stopped\n", 0),
    (
        "servers 1\nissue 4294967296 0\n",
        "ok\nrefused 85 NoServer\n",
        0,
    ),
    (
        "servers 1\nrot 0 4294967296 0 0\n",
        "ok\nrefused 83 NoWrite\n",
        0,
    ),
    (
        "servers 1\nland 0 4294967296 0 all\n",
        "ok\nrefused 83 NoWrite\n",
        0,
    ),
    ("servers 8\ncut 8\n", "ok\nrefused 85 NoServer\n", 0),
    (
        "servers 1\nrot 0 15 18446744073709551615 255\n",
        "ok\nok\n",
        0,
    ),
    (
        "servers 1\ndeliver 18446744073709551615\n",
        "ok\nrefused 80 NoFrame\n",
        0,
    ),
    // A cut within a save prints no number, though one is used up.
    (
        "servers 1\ncutnew begin\n.\nrestart client\nbegin\n.\n",
        "ok\nok\nok\nok run 2\nsent 0 client 0 Jobs 24\n",
        0,
    ),
    (PIECES, PIECES_LINES, 0),
    (ANSWERS, ANSWERS_LINES, 1),
];

#[test]
fn scripts_print_their_lines(rt: HostRuntime) {
    for (script, lines, status) in SCRIPTS {
        let reading = whole(script.as_bytes());
        expect(&rt, reading, lines.as_bytes(), Ok(*status));
    }
    let reading = Reading {
        step: 1,
        ..whole(STORED.as_bytes())
    };
    expect(&rt, reading, STORED_LINES.as_bytes(), Ok(0));
}

/// A script whose fourth line is this one. Where memory runs out, it is made once more.
fn with_line(alloc: Global, line: &str) -> Result<String, AllocError> {
    match with_line_once(alloc, line) {
        Ok(script) => Ok(script),
        Err(_) => with_line_once(alloc, line),
    }
}

fn with_line_once(alloc: Global, line: &str) -> Result<String, AllocError> {
    let mut script = String::new(alloc);
    script.push_str("servers 1\n\n# c\n")?;
    script.push_str(line)?;
    script.push_str("\ntick\n")?;
    Ok(script)
}

#[test]
fn bad_lines_end_a_script(rt: HostRuntime) -> Result<(), Fail> {
    for line in UNREAD {
        let script = with_line(rt.alloc(), line)?;
        expect(&rt, whole(script.as_bytes()), b"ok\nbad line 4\n", Ok(2));
    }
    Ok(())
}

/// A script of so many bytes, most of them a comment. Where memory runs out, it is made once more.
fn script_of_length(alloc: Global, length: usize) -> Result<Vec<u8>, AllocError> {
    match script_of_length_once(alloc, length) {
        Ok(script) => Ok(script),
        Err(_) => script_of_length_once(alloc, length),
    }
}

fn script_of_length_once(alloc: Global, length: usize) -> Result<Vec<u8>, AllocError> {
    let mut script = Vec::from_slice(alloc, b"servers 1\n#")?;
    script.resize(length, b'x')?;
    Ok(script)
}

#[test]
fn longest_script(rt: HostRuntime) -> Result<(), Fail> {
    let script = script_of_length(rt.alloc(), MAX_SCRIPT)?;
    expect(&rt, whole(&script), b"ok\n", Ok(0));
    let script = script_of_length(rt.alloc(), MAX_SCRIPT + 1)?;
    expect(&rt, whole(&script), b"too long\n", Ok(2));
    Ok(())
}

/// How many bytes a read gives.
const STEP: usize = 16;

/// The stored run, of which the reads fail from this number on.
fn failing_stored(failing_read: u32) -> Reading<'static> {
    Reading {
        step: STEP,
        failing_read,
        ..whole(STORED.as_bytes())
    }
}

/// No script, behind so many interrupted reads.
fn interrupted(interruptions: u32) -> Reading<'static> {
    Reading {
        interruptions,
        ..whole(b"")
    }
}

/// Each read fails in turn, and the one that tells the end; the one behind that isn't made.
#[test]
fn failed_reads(rt: HostRuntime) {
    let unread = Err(ScriptFault::ReadError);
    let reads = STORED.len().div_ceil(STEP) as u32 + 1;
    for read in 0..reads {
        expect(&rt, failing_stored(read), b"", unread);
    }
    let lines = STORED_LINES.as_bytes();
    expect(&rt, failing_stored(reads), lines, Ok(0));
    expect(&rt, interrupted(2_000_000), b"", unread);
    expect(&rt, interrupted(1_999_999), b"", Ok(0));
}

/// Whether a script is refused the first write that finds no room, and makes none behind it.
fn stops_at_failed_write(alloc: Global, script: &str, lines: &str, room: usize) -> bool {
    let mut page = page_with(alloc, room);
    let ended = run_script(alloc, &mut source_of(script.as_bytes()), &mut page);
    ended == Err(ScriptFault::WriteError)
        && page.late_writes == 0
        && lines.as_bytes().starts_with(page.text.as_slice())
}

/// Checks that. Where memory runs out, the script is run once more.
fn expect_unwritten<R: Abort + AllocGlobal>(rt: &R, script: &str, lines: &str, room: usize) {
    let stops = stops_at_failed_write(rt.alloc(), script, lines, room)
        || stops_at_failed_write(rt.alloc(), script, lines, room);
    assert!(rt; stops, "{room}");
}

/// A short script, and what it prints.
const SHORT: &str = "servers 1\nbegin\n.\ntick\ndeliver 2\n";

const SHORT_LINES: &str =
    "ok\nok run 1\nsent 0 client 0 Jobs 24\nok\nsent 1 client 0 Jobs 24\nrefused 80 NoFrame\n";

/// The room ends within each line of a long script, and at each byte of a short one.
#[test]
fn failed_writes(rt: HostRuntime) {
    for line in 0..38 {
        expect_unwritten(&rt, STORED, STORED_LINES, 12 * line);
    }
    for room in 0..SHORT_LINES.len() {
        expect_unwritten(&rt, SHORT, SHORT_LINES, room);
    }
    let lines = SHORT_LINES.as_bytes();
    expect(&rt, whole(SHORT.as_bytes()), lines, Ok(0));
}

/// Whether the stored run shows its lines by one flush, or fails where that does.
fn is_flushed(alloc: Global, fails: bool) -> bool {
    let mut output = held_output(alloc);
    output.fails = fails;
    let ended = run_script(alloc, &mut source_of(STORED.as_bytes()), &mut output);
    if output.flushes != 1 {
        return false;
    }
    if fails {
        ended == Err(ScriptFault::WriteError)
    } else {
        ended == Ok(0) && output.shown.as_slice() == STORED_LINES.as_bytes()
    }
}

/// Where memory runs out, the run is made once more.
#[test]
fn lines_are_flushed(rt: HostRuntime) {
    assert!(rt; is_flushed(rt.alloc(), false) || is_flushed(rt.alloc(), false));
}

#[test]
fn failed_flush(rt: HostRuntime) {
    assert!(rt; is_flushed(rt.alloc(), true) || is_flushed(rt.alloc(), true));
}
