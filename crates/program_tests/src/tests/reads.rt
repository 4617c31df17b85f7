//! The bounds of reading by `program_io`, which inputs are read at all, and that want of memory is
//! told as such.

use fake_io::{Source, failing, failing_at, in_steps, interrupted, source_of};
use program_io::{InputFault, read_input};
use std::alloc::Global;
use std::process::Abort;

/// The most bytes that these tests read.
const MAX_BYTES: usize = 8;

/// The most reads that they make.
const MAX_READS: u32 = 20;

/// More bytes than any machine has.
const MORE_THAN_THERE_IS: usize = usize::MAX / 2;

/// Whether these bytes are read of an input.
fn gives(alloc: Global, source: &mut Source<'_>, text: &[u8]) -> bool {
    match read_input(alloc, source, MAX_BYTES, MAX_READS) {
        Ok(bytes) => bytes.as_slice() == text,
        Err(_) => false,
    }
}

/// Whether an input can't be read.
fn fails(alloc: Global, source: &mut Source<'_>) -> bool {
    read_input(alloc, source, MAX_BYTES, MAX_READS).err() == Some(InputFault::ReadError)
}

/// Checks the bytes that are read, how many are left, and how often `read` was called.
fn expect<R: Abort + AllocGlobal>(
    rt: &R,
    source: &mut Source<'_>,
    text: &[u8],
    left: usize,
    reads: u32,
) {
    assert!(rt; gives(rt.alloc(), source, text));
    assert!(rt; source.text.len() == left);
    assert!(rt; source.reads == reads);
}

#[test]
fn inputs_up_to_the_bound(rt: HostRuntime) {
    expect(&rt, &mut source_of(b""), b"", 0, 1);
    expect(&rt, &mut source_of(b"1234567"), b"1234567", 0, 2);
    expect(&rt, &mut source_of(b"12345678"), b"12345678", 0, 1);
    expect(&rt, &mut source_of(b"123456789a"), b"12345678", 2, 1);
}

#[test]
fn one_byte_at_a_time(rt: HostRuntime) {
    expect(&rt, &mut in_steps(b"123", 1), b"123", 0, 4);
    expect(&rt, &mut in_steps(b"123456789", 1), b"12345678", 1, 8);
}

#[test]
fn failed_reads(rt: HostRuntime) {
    assert!(rt; fails(rt.alloc(), &mut failing(b"123", usize::MAX)));
    for number in 0..4 {
        assert!(rt; fails(rt.alloc(), &mut failing_at(b"123", 1, number)));
    }
    expect(&rt, &mut failing_at(b"123", 1, 4), b"123", 0, 4);
    expect(&rt, &mut failing(b"12345678", 3), b"12345678", 0, 3);
}

#[test]
fn interrupted_reads(rt: HostRuntime) {
    expect(&rt, &mut interrupted(b"123", 1), b"123", 0, 3);
    expect(&rt, &mut interrupted(b"123", 18), b"123", 0, 20);
    let mut source = interrupted(b"123", 19);
    assert!(rt; fails(rt.alloc(), &mut source));
    assert!(rt; source.reads == 20);
    let mut source = interrupted(b"123", u32::MAX);
    assert!(rt; fails(rt.alloc(), &mut source));
    assert!(rt; source.reads == 20);
}

#[test]
fn want_of_memory(rt: HostRuntime) {
    let mut source = source_of(b"123");
    let read = read_input(rt.alloc(), &mut source, MORE_THAN_THERE_IS, MAX_READS);
    assert!(rt; read.err() == Some(InputFault::NoMemory));
    assert!(rt; source.reads == 0);
}
