//! What the inputs of `fake_io` give, and what its outputs take.

use fake_io::{
    Page, Source, failing, failing_at, held_output, in_steps, interrupted, page_with, source_of,
};
use std::io::{ErrorKind, Read, Write};
use std::process::Abort;
use std::test::Fail;

/// Checks the next read: how many bytes it gives, or `None` where it fails.
fn expect_read<R: Abort>(rt: &R, source: &mut Source<'_>, count: Option<usize>) {
    let mut buffer = [0; 4];
    assert!(rt; source.read(&mut buffer).ok() == count);
}

#[test]
fn text_in_steps(rt: HostRuntime) {
    let mut source = in_steps(b"abcde", 3);
    let mut buffer = [0; 4];
    assert!(rt; source.read(&mut buffer).ok() == Some(3));
    assert!(rt; buffer == *b"abc\0");
    expect_read(&rt, &mut source, Some(2));
    expect_read(&rt, &mut source, Some(0));
    assert!(rt; source.reads == 3);
    let mut source = source_of(b"abcde");
    expect_read(&rt, &mut source, Some(4));
    assert!(rt; source.text == b"e".as_slice());
}

#[test]
fn failed_reads(rt: HostRuntime) {
    let mut source = failing(b"ab", 1);
    expect_read(&rt, &mut source, Some(1));
    expect_read(&rt, &mut source, Some(1));
    expect_read(&rt, &mut source, None);
    let mut source = failing_at(b"abcd", 1, 1);
    expect_read(&rt, &mut source, Some(1));
    expect_read(&rt, &mut source, None);
    expect_read(&rt, &mut source, None);
    assert!(rt; source.text == b"bcd".as_slice());
}

#[test]
fn interrupted_reads(rt: HostRuntime) {
    let mut source = interrupted(b"abc", 1);
    let mut buffer = [0; 4];
    let kind = source.read(&mut buffer).err().map(|error| error.kind());
    assert!(rt; kind == Some(ErrorKind::Interrupted));
    expect_read(&rt, &mut source, Some(3));
}

/// Checks the next write of three bytes: how many it takes, or `None` where it fails.
fn expect_write<R: Abort>(rt: &R, page: &mut Page, count: Option<usize>) {
    assert!(rt; page.write(b"abc").ok() == count);
}

#[test]
fn bounded_room(rt: HostRuntime) {
    let mut page = page_with(rt.alloc(), 4);
    expect_write(&rt, &mut page, Some(3));
    expect_write(&rt, &mut page, Some(1));
    assert!(rt; page.late_writes == 0 && !page.has_failed);
    expect_write(&rt, &mut page, None);
    assert!(rt; page.late_writes == 0 && page.has_failed);
    expect_write(&rt, &mut page, None);
    assert!(rt; page.late_writes == 1);
    assert!(rt; page.text.as_slice() == b"abca".as_slice());
    let mut page = page_with(rt.alloc(), 9);
    page.step = 2;
    expect_write(&rt, &mut page, Some(2));
    assert!(rt; page.text.as_slice() == b"ab".as_slice());
}

#[test]
fn flushed_output(rt: HostRuntime) -> Result<(), Fail> {
    let mut output = held_output(rt.alloc());
    output.write_all(b"ab")?;
    assert!(rt; output.shown.is_empty() && output.flushes == 0);
    output.flush()?;
    output.write_all(b"c")?;
    assert!(rt; output.shown.as_slice() == b"ab".as_slice() && output.flushes == 1);
    output.fails = true;
    assert!(rt; output.flush().is_err() && output.flushes == 2);
    assert!(rt; output.shown.as_slice() == b"ab".as_slice());
    Ok(())
}
