//! Maps whose lines find no room, and want of memory.

use super::inputs::TWO_BLOCKS;
use super::map_inputs::Comes::{Byte, Sector as Bytes};
use super::map_inputs::Sector::*;
use super::map_inputs::{Comes, key_of, map_input};
use super::stamps::RUN;
use fake_io::{page_with, source_of};
use std::alloc::Global;
use std::test::Fail;
use targets::map_job;

/// A block with a bit turned over, and one that can't be read.
static TARGET: [Comes; 3] = [Byte(1), Bytes(Changed(2, 0, 0, &[(500, 64)])), Byte(0)];

static LINES: &str = "block 0 corrupt: wants write 2, unknown sectors 1, \
    differs from write 2 by bits 1 first at sector 0 byte 500; 0-0 unknown\n\
    block 1 unread: wants write 3\n\
    unchecked\nreport checked 1 faults 1 end whole first 0 corrupt 1 unread 1\n";

/// Whether an output with room for so many bytes fails, and is not written to any more.
fn fails_at_byte(alloc: Global, input: &[u8], room: usize) -> bool {
    let mut page = page_with(alloc, room);
    let answer = map_job(
        alloc,
        key_of(RUN, 0),
        None,
        &mut source_of(input),
        &mut page,
    );
    answer.is_err() && page.late_writes == 0
}

/// Whether each room that is too small fails.
fn rooms_fail(alloc: Global) -> Option<bool> {
    let input = map_input(alloc, TWO_BLOCKS, &[], &TARGET)?;
    let mut agree = true;
    for room in 0..LINES.len() {
        agree = agree && fails_at_byte(alloc, &input, room);
    }
    Some(agree)
}

#[test]
fn rooms_of_a_map(rt: HostRuntime) -> Result<(), Fail> {
    match rooms_fail(rt.alloc()) {
        Some(true) => Ok(()),
        _ => Err(Fail::new("a room")),
    }
}

/// Whether a map is answered whole, or else refused for want of memory and nothing else, or the
/// output itself has none. What the test asks for may be missing, too.
fn stands_want(alloc: Global) -> bool {
    let Some(input) = map_input(alloc, TWO_BLOCKS, &[], &TARGET) else {
        return true;
    };
    let mut page = page_with(alloc, usize::MAX);
    let answer = map_job(
        alloc,
        key_of(RUN, 0),
        None,
        &mut source_of(&input),
        &mut page,
    );
    let text = page.text.as_slice();
    match answer {
        Ok(2) => {
            text == LINES.as_bytes()
                || text == b"refused 12 NoMemory\n".as_slice()
                || text == b"refused 35 NoMemory\n".as_slice()
        }
        Ok(_) => false,
        Err(_) => LINES.as_bytes().starts_with(text),
    }
}

#[test]
fn want_of_memory_of_a_map(rt: HostRuntime) -> Result<(), Fail> {
    if stands_want(rt.alloc()) {
        Ok(())
    } else {
        Err(Fail::new("want of memory"))
    }
}
