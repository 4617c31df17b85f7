//! Maps of a target: how a faulty block differs from a write that it may hold.

use super::inputs::TWO_BLOCKS;
use super::inputs::Tell::*;
use super::map_inputs::Comes::{Byte, Sector as Bytes};
use super::map_inputs::Sector::*;
use super::map_inputs::{MANY, MANY_WIDE, ONE_BLOCK, PATTERN, Row, TWO_DONE, all_agree};
use super::stamps::RUN;
use std::test::Fail;

/// Sixteen bytes of a sector, all bits of each.
const SIXTEEN: &[(usize, u8)] = &[
    (100, 255),
    (101, 255),
    (102, 255),
    (103, 255),
    (104, 255),
    (105, 255),
    (106, 255),
    (107, 255),
    (108, 255),
    (109, 255),
    (110, 255),
    (111, 255),
    (112, 255),
    (113, 255),
    (114, 255),
    (115, 255),
];

/// A bit of a sector's last byte.
const LAST: &[(usize, u8)] = &[(511, 128)];

/// One bit, many bits and few bytes, one byte too many, and a write in flight.
pub(super) static DIFFERENCES: [Row; 5] = [
    (
        ONE_BLOCK,
        &[],
        &[
            Byte(1),
            Bytes(Stamp(RUN, 0, 1, 0, 0)),
            Bytes(Changed(1, 0, 1, &[(488, 4)])),
        ],
        1,
        "block 0 corrupt: wants write 1, unknown sectors 1, \
         differs from write 1 by bits 1 first at sector 1 byte 488; \
         0-0 write 1 of block 0 of job 0 of server 0 of run 7 place 0; 1-1 unknown\n\
         unchecked\nreport checked 1 faults 1 end whole first 0 corrupt 1\n",
    ),
    (
        ONE_BLOCK,
        &[],
        &[
            Byte(1),
            Bytes(Changed(1, 0, 0, SIXTEEN)),
            Bytes(Stamp(RUN, 0, 1, 0, 1)),
        ],
        1,
        "block 0 corrupt: wants write 1, unknown sectors 1, \
         differs from write 1 by bits 128 first at sector 0 byte 100; \
         0-0 unknown; 1-1 write 1 of block 0 of job 0 of server 0 of run 7 place 1\n\
         unchecked\nreport checked 1 faults 1 end whole first 0 corrupt 1\n",
    ),
    (
        ONE_BLOCK,
        &[],
        &[
            Byte(1),
            Bytes(Changed(1, 0, 0, SIXTEEN)),
            Bytes(Changed(1, 0, 1, LAST)),
        ],
        1,
        "block 0 corrupt: wants write 1, unknown sectors 2; 0-1 unknown\n\
         unchecked\nreport checked 1 faults 1 end whole first 0 corrupt 1\n",
    ),
    (
        ONE_BLOCK,
        &[],
        &[
            Byte(1),
            Bytes(Changed(1, 0, 0, &[(36, 3), (511, 7)])),
            Bytes(Changed(1, 0, 1, LAST)),
        ],
        1,
        "block 0 corrupt: wants write 1, unknown sectors 2, \
         differs from write 1 by bits 6 first at sector 0 byte 36; 0-1 unknown\n\
         unchecked\nreport checked 1 faults 1 end whole first 0 corrupt 1\n",
    ),
    (
        TWO_BLOCKS,
        TWO_DONE,
        &[
            Byte(1),
            Bytes(Changed(2, 0, 0, LAST)),
            Byte(1),
            Bytes(Changed(1, 1, 0, &[(40, 1)])),
        ],
        1,
        "block 0 corrupt: wants write 0 or 2, unknown sectors 1, \
         differs from write 2 by bits 1 first at sector 0 byte 511; 0-0 unknown\n\
         block 1 corrupt: wants write 1 or 3, unknown sectors 1, \
         differs from write 1 by bits 1 first at sector 0 byte 40; 0-0 unknown\n\
         unchecked\nreport checked 2 faults 2 end whole first 0 1 corrupt 2\n",
    ),
];

#[test]
fn how_a_block_differs(rt: HostRuntime) -> Result<(), Fail> {
    all_agree(rt.alloc(), &DIFFERENCES)
}

/// Few bytes of blocks that are of other writes: of an older one, alone and in part, of one that
/// wasn't issued, of another run and of another job.
pub(super) static OTHERS: [Row; 5] = [
    (
        MANY,
        &[],
        &[Byte(1), Bytes(Stamp(RUN, 0, 43, 0, 0))],
        1,
        "block 0 lost: wants write 299, holds write 43, \
         differs from write 299 by bits 1 first at sector 0 byte 22\n\
         unchecked\nreport checked 1 faults 1 end whole first 0 lost 1\n",
    ),
    (
        MANY_WIDE,
        &[],
        &[
            Byte(1),
            Bytes(Stamp(RUN, 0, 299, 0, 0)),
            Bytes(Stamp(RUN, 0, 43, 0, 1)),
        ],
        1,
        "block 0 torn: wants write 299, \
         differs from write 299 by bits 1 first at sector 1 byte 22; \
         0-0 write 299 of block 0 of job 0 of server 0 of run 7 place 0; \
         1-1 write 43 of block 0 of job 0 of server 0 of run 7 place 1\n\
         unchecked\nreport checked 1 faults 1 end whole first 0 torn 1\n",
    ),
    (
        MANY_WIDE,
        &[Done(0), Take],
        &[
            Byte(1),
            Bytes(Stamp(RUN, 0, 256, 0, 0)),
            Bytes(Stamp(RUN, 0, 256, 0, 1)),
        ],
        1,
        "block 0 unissued: wants write 0 or 1, holds write 256, \
         differs from write 0 by bits 2 first at sector 0 byte 22\n\
         unchecked\nreport checked 1 faults 1 end whole first 0 unissued 1\n",
    ),
    (
        ONE_BLOCK,
        &[],
        &[
            Byte(1),
            Bytes(Stamp(6, 0, 1, 0, 0)),
            Bytes(Stamp(6, 0, 1, 0, 1)),
        ],
        1,
        "block 0 other-run: wants write 1, \
         holds write 1 of block 0 of job 0 of server 0 of run 6, \
         differs from write 1 by bits 2 first at sector 0 byte 7\n\
         unchecked\nreport checked 1 faults 1 end whole first 0 other-run 1\n",
    ),
    (
        ONE_BLOCK,
        &[],
        &[
            Byte(1),
            Bytes(Stamp(RUN, 5, 1, 0, 0)),
            Bytes(Stamp(RUN, 5, 1, 0, 1)),
        ],
        1,
        "block 0 misdirected: wants write 1, \
         holds write 1 of block 0 of job 5 of server 0 of run 7, \
         differs from write 1 by bits 4 first at sector 0 byte 15\n\
         unchecked\nreport checked 1 faults 1 end whole first 0 misdirected 1\n",
    ),
];

#[test]
fn how_other_writes_differ(rt: HostRuntime) -> Result<(), Fail> {
    all_agree(rt.alloc(), &OTHERS)
}

/// By a pattern, which every write has.
pub(super) static PATTERNS: [Row; 7] = [
    (
        PATTERN,
        &[],
        &[Byte(1), Bytes(Filled(0x55)), Bytes(Filled(0x55))],
        0,
        "unchecked\nreport checked 1 faults 0 end whole first -\n",
    ),
    (
        PATTERN,
        &[],
        &[Byte(1), Bytes(Filled(0)), Bytes(Filled(0))],
        1,
        "block 0 unwritten: wants write 1\n\
         unchecked\nreport checked 1 faults 1 end whole first 0 unwritten 1\n",
    ),
    (
        PATTERN,
        &[],
        &[Byte(1), Bytes(Filled(0x77)), Bytes(Filled(0x77))],
        1,
        "block 0 filled: wants write 1, holds byte 119\n\
         unchecked\nreport checked 1 faults 1 end whole first 0 filled 1\n",
    ),
    (
        PATTERN,
        &[],
        &[Byte(1), Bytes(Filled(0x55)), Bytes(Filled(0))],
        1,
        "block 0 torn: wants write 1; 0-0 pattern; 1-1 zeros\n\
         unchecked\nreport checked 1 faults 1 end whole first 0 torn 1\n",
    ),
    (
        PATTERN,
        &[],
        &[
            Byte(1),
            Bytes(Stamp(RUN, 0, 1, 0, 0)),
            Bytes(Stamp(RUN, 0, 1, 0, 1)),
        ],
        1,
        "block 0 corrupt: wants write 1, unknown sectors 2; 0-1 unknown\n\
         unchecked\nreport checked 1 faults 1 end whole first 0 corrupt 1\n",
    ),
    (
        PATTERN,
        &[Done(0), Take],
        &[
            Byte(1),
            Bytes(Filled(0x55)),
            Bytes(Spoilt(0x55, &[(0, 255)])),
        ],
        1,
        "block 0 corrupt: wants write 0 or 1, unknown sectors 1, \
         differs from write 0 by bits 8 first at sector 1 byte 0, \
         differs from write 1 by bits 8 first at sector 1 byte 0; 0-0 pattern; 1-1 unknown\n\
         unchecked\nreport checked 1 faults 1 end whole first 0 corrupt 1\n",
    ),
    (
        PATTERN,
        &[],
        &[Byte(0)],
        2,
        "block 0 unread: wants write 1\n\
         unchecked\nreport checked 0 faults 0 end whole first - unread 1\n",
    ),
];

#[test]
fn maps_of_a_pattern(rt: HostRuntime) -> Result<(), Fail> {
    all_agree(rt.alloc(), &PATTERNS)
}
