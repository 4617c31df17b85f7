//! Maps of a target: blocks that aren't checked, inputs that end early, and refusals.

use super::inputs::TWO_BLOCKS;
use super::inputs::Tell::*;
use super::map_inputs::Comes::{Byte, Sector as Bytes};
use super::map_inputs::Sector::*;
use super::map_inputs::{Row, SIX_BLOCKS, TWO_DONE, all_agree, answers, key_of, map_input};
use super::stamps::RUN;
use fake_io::{failing_at, source_of};
use std::alloc::Global;
use std::test::Fail;

/// Blocks that aren't checked, inputs that end early, and bytes that are neither 0 nor 1.
pub(super) static ENDS: [Row; 8] = [
    (
        SIX_BLOCKS,
        &[Done(0), Done(3), Take],
        &[
            Byte(1),
            Bytes(Stamp(RUN, 0, 0, 0, 0)),
            Byte(0),
            Byte(1),
            Bytes(Filled(9)),
            Byte(1),
            Bytes(Filled(9)),
            Byte(0),
            Byte(0),
        ],
        1,
        "block 3 filled: wants write 3, holds byte 9\n\
         unchecked 1-2 4-5\nreport checked 2 faults 1 end whole first 3 filled 1\n",
    ),
    (
        SIX_BLOCKS,
        &[Done(1), Done(4), Take],
        &[Byte(0), Byte(0), Byte(0), Byte(0), Byte(0), Byte(0)],
        2,
        "block 1 unread: wants write 1\nblock 4 unread: wants write 4\n\
         unchecked 0-0 2-3 5-5\nreport checked 0 faults 0 end whole first - unread 2\n",
    ),
    (
        SIX_BLOCKS,
        &[Take],
        &[Byte(0), Byte(0), Byte(0), Byte(0), Byte(0), Byte(0)],
        0,
        "unchecked 0-5\nreport checked 0 faults 0 end whole first -\n",
    ),
    (
        TWO_BLOCKS,
        &[],
        &[],
        2,
        "unchecked\nreport checked 0 faults 0 end read 0 first -\n",
    ),
    (
        TWO_BLOCKS,
        &[],
        &[Byte(1), Bytes(Filled(0)), Byte(1)],
        2,
        "block 0 unwritten: wants write 2\n\
         unchecked\nreport checked 1 faults 1 end read 1 first 0 unwritten 1\n",
    ),
    (
        TWO_BLOCKS,
        &[],
        &[Byte(0)],
        2,
        "block 0 unread: wants write 2\n\
         unchecked\nreport checked 0 faults 0 end read 1 first - unread 1\n",
    ),
    (TWO_BLOCKS, &[], &[Byte(2)], 2, "refused 94 BadNotice\n"),
    (
        TWO_BLOCKS,
        &[],
        &[Byte(1), Bytes(Filled(0)), Byte(255), Bytes(Filled(0))],
        2,
        "block 0 unwritten: wants write 2\nrefused 94 BadNotice\n",
    ),
];

/// Writes that have failed: each is in flight, and may have come to its block or not.
pub(super) static FAILED: [Row; 4] = [
    (
        TWO_BLOCKS,
        &[Done(0), Failed(1), Take],
        &[Byte(1), Bytes(Filled(0)), Byte(1), Bytes(Filled(9))],
        1,
        "block 0 unwritten: wants write 0 or 2\n\
         unchecked 1-1\nreport checked 1 faults 1 end whole first 0 unwritten 1\n",
    ),
    (
        TWO_BLOCKS,
        &[Done(0), Done(1), Failed(2), Take],
        &[
            Byte(1),
            Bytes(Stamp(RUN, 0, 2, 0, 0)),
            Byte(1),
            Bytes(Stamp(RUN, 0, 1, 1, 0)),
        ],
        0,
        "unchecked\nreport checked 2 faults 0 end whole first -\n",
    ),
    (
        TWO_BLOCKS,
        &[Done(0), Done(1), Failed(2), Take],
        &[
            Byte(1),
            Bytes(Changed(2, 0, 0, &[(256, 1)])),
            Byte(1),
            Bytes(Stamp(RUN, 0, 2, 0, 0)),
        ],
        1,
        "block 0 corrupt: wants write 0 or 2, unknown sectors 1, \
         differs from write 2 by bits 1 first at sector 0 byte 256; 0-0 unknown\n\
         block 1 misdirected: wants write 1 or 3, \
         holds write 2 of block 0 of job 0 of server 0 of run 7\n\
         unchecked\nreport checked 2 faults 2 end whole first 0 1 misdirected 1 corrupt 1\n",
    ),
    (
        SIX_BLOCKS,
        &[Failed(3), Done(5), Done(0), Failed(1), Take],
        &[Byte(0), Byte(0), Byte(0), Byte(0), Byte(0), Byte(0)],
        2,
        "block 0 unread: wants write 0\nblock 5 unread: wants write 5\n\
         unchecked 1-4\nreport checked 0 faults 0 end whole first - unread 2\n",
    ),
];

#[test]
fn writes_that_have_failed(rt: HostRuntime) -> Result<(), Fail> {
    all_agree(rt.alloc(), &FAILED)
}

#[test]
fn ends_and_unchecked_blocks(rt: HostRuntime) -> Result<(), Fail> {
    all_agree(rt.alloc(), &ENDS)
}

/// Whether a map by the state of another run is refused.
fn refuses_another_run(alloc: Global) -> Option<bool> {
    let input = map_input(alloc, TWO_BLOCKS, TWO_DONE, &[])?;
    Some(answers(
        alloc,
        key_of(8, 0),
        None,
        source_of(&input),
        2,
        "refused 36 OtherKey\n",
    ))
}

#[test]
fn a_state_of_another_run(rt: HostRuntime) -> Result<(), Fail> {
    match refuses_another_run(rt.alloc()) {
        Some(true) => Ok(()),
        _ => Err(Fail::new("another run")),
    }
}

/// Whether a map is refused behind its lines where the last read fails.
fn fails_at_read(alloc: Global, number: u32, lines: &str) -> Option<bool> {
    let target = [Byte(1), Bytes(Filled(0)), Byte(1), Bytes(Filled(0))];
    let input = map_input(alloc, TWO_BLOCKS, &[], &target)?;
    let source = failing_at(&input, usize::MAX, number);
    Some(answers(alloc, key_of(RUN, 0), None, source, 2, lines))
}

#[test]
fn failed_reads_of_a_map(rt: HostRuntime) -> Result<(), Fail> {
    let none = "refused 91 ReadError\n";
    let one = "block 0 unwritten: wants write 2\nrefused 91 ReadError\n";
    for (number, lines) in [(0, none), (3, none), (4, none), (5, one), (6, one)] {
        if fails_at_read(rt.alloc(), number, lines) != Some(true) {
            return Err(Fail::new(number));
        }
    }
    Ok(())
}
