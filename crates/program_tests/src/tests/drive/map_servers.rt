//! Maps of jobs of other servers than 0.

use super::inputs::{TWO_BLOCKS, Tell};
use super::map_inputs::Comes::{Byte, Sector as Bytes};
use super::map_inputs::Sector::Stamp;
use super::map_inputs::{Comes, TWO_DONE, answers, key_of, map_input};
use super::stamps::RUN;
use fake_io::source_of;
use std::alloc::Global;
use std::test::Fail;

/// The last write to each of two blocks of a sector.
static TARGET: [Comes; 4] = [
    Byte(1),
    Bytes(Stamp(RUN, 0, 2, 0, 0)),
    Byte(1),
    Bytes(Stamp(RUN, 0, 3, 1, 0)),
];

/// What was told by the state, nothing where there is none, and whose it is; whose the writes in the
/// two blocks are; the server whose job is mapped; and what comes of it.
type Row = (&'static [Tell], u8, [u8; 2], u32, u8, &'static str);

static ROWS: [Row; 7] = [
    (
        &[],
        0,
        [3, 3],
        3,
        0,
        "unchecked\nreport checked 2 faults 0 end whole first -\n",
    ),
    (
        TWO_DONE,
        3,
        [3, 3],
        3,
        0,
        "unchecked\nreport checked 2 faults 0 end whole first -\n",
    ),
    (
        &[],
        0,
        [0, 7],
        7,
        1,
        "block 0 corrupt: wants write 2, unknown sectors 0, \
         differs from write 2 by bits 3 first at sector 0 byte 11; \
         0-0 write 2 of block 0 of job 0 of server 0 of run 7 place 0\n\
         unchecked\nreport checked 2 faults 1 end whole first 0 corrupt 1\n",
    ),
    (
        &[],
        0,
        [0, 3],
        0,
        1,
        "block 1 corrupt: wants write 3, unknown sectors 0, \
         differs from write 3 by bits 2 first at sector 0 byte 11; \
         0-0 write 3 of block 1 of job 0 of server 3 of run 7 place 0\n\
         unchecked\nreport checked 2 faults 1 end whole first 1 corrupt 1\n",
    ),
    (TWO_DONE, 3, [3, 3], 0, 2, "refused 36 OtherKey\n"),
    (TWO_DONE, 0, [3, 3], 3, 2, "refused 36 OtherKey\n"),
    (TWO_DONE, 2, [3, 3], 3, 2, "refused 36 OtherKey\n"),
];

/// Puts a byte there, if there is such a place.
fn set_byte(bytes: &mut Vec<u8>, place: usize, byte: u8) {
    if let Some(found) = bytes.get_mut(place) {
        *found = byte;
    }
}

/// The input of a row: servers stand in the last byte of four, behind 12 bytes of a state and behind
/// 8 of a stamp. A block has 512 bytes behind its byte.
fn input_of_row(alloc: Global, row: &Row) -> Option<Vec<u8>> {
    let (told, server, blocks, _, _, _) = row;
    let mut input = map_input(alloc, TWO_BLOCKS, told, &TARGET)?;
    if !told.is_empty() {
        let place = TWO_BLOCKS.len().wrapping_add(4 + 4 + 15);
        set_byte(&mut input, place, *server);
    }
    let first = input.len().wrapping_sub(2 * 513);
    set_byte(&mut input, first.wrapping_add(1 + 11), blocks[0]);
    set_byte(&mut input, first.wrapping_add(513 + 1 + 11), blocks[1]);
    Some(input)
}

fn agrees(alloc: Global, row: &Row) -> Option<bool> {
    let (_, _, _, server, status, lines) = row;
    let input = input_of_row(alloc, row)?;
    let source = source_of(&input);
    Some(answers(alloc, key_of(RUN, *server), None, source, *status, lines))
}

#[test]
fn jobs_of_other_servers(rt: HostRuntime) -> Result<(), Fail> {
    for (number, row) in ROWS.iter().enumerate() {
        if agrees(rt.alloc(), row) != Some(true) {
            return Err(Fail::new(number));
        }
    }
    Ok(())
}
