//! Maps of a target: the line of each kind, at the first block and at the last.

use super::inputs::TWO_BLOCKS;
use super::map_inputs::Comes::{Byte, Sector as Bytes};
use super::map_inputs::Sector::*;
use super::map_inputs::{FATAL, FOUR_SECTORS, ONE_BLOCK, Row, TWO_DONE, all_agree};
use super::stamps::RUN;
use std::test::Fail;

/// Each kind, at the first block and at the last.
pub(super) static KINDS: [Row; 17] = [
    (
        TWO_BLOCKS,
        TWO_DONE,
        &[
            Byte(1),
            Bytes(Stamp(RUN, 0, 0, 0, 0)),
            Byte(1),
            Bytes(Stamp(RUN, 0, 3, 1, 0)),
        ],
        0,
        "unchecked\nreport checked 2 faults 0 end whole first -\n",
    ),
    (
        TWO_BLOCKS,
        TWO_DONE,
        &[
            Byte(1),
            Bytes(Filled(0)),
            Byte(1),
            Bytes(Stamp(RUN, 0, 1, 1, 0)),
        ],
        1,
        "block 0 unwritten: wants write 0 or 2\n\
         unchecked\nreport checked 2 faults 1 end whole first 0 unwritten 1\n",
    ),
    (
        TWO_BLOCKS,
        TWO_DONE,
        &[
            Byte(1),
            Bytes(Stamp(RUN, 0, 0, 0, 0)),
            Byte(1),
            Bytes(Filled(255)),
        ],
        1,
        "block 1 filled: wants write 1 or 3, holds byte 255\n\
         unchecked\nreport checked 2 faults 1 end whole first 1 filled 1\n",
    ),
    (
        TWO_BLOCKS,
        &[],
        &[
            Byte(1),
            Bytes(Stamp(RUN, 0, 0, 0, 0)),
            Byte(1),
            Bytes(Stamp(RUN, 0, 1, 1, 0)),
        ],
        1,
        "block 0 lost: wants write 2, holds write 0\n\
         block 1 lost: wants write 3, holds write 1\n\
         unchecked\nreport checked 2 faults 2 end whole first 0 1 lost 2\n",
    ),
    (
        TWO_BLOCKS,
        &[],
        &[
            Byte(1),
            Bytes(Stamp(RUN, 0, 3, 0, 0)),
            Byte(1),
            Bytes(Stamp(RUN, 0, 3, 1, 0)),
        ],
        1,
        "block 0 unissued: wants write 2, holds write 3\n\
         unchecked\nreport checked 2 faults 1 end whole first 0 unissued 1\n",
    ),
    // The job has no write 4.
    (
        TWO_BLOCKS,
        &[],
        &[
            Byte(1),
            Bytes(Stamp(RUN, 0, 4, 0, 0)),
            Byte(1),
            Bytes(Stamp(RUN, 0, 3, 1, 0)),
        ],
        1,
        "block 0 corrupt: wants write 2, unknown sectors 1; 0-0 unknown\n\
         unchecked\nreport checked 2 faults 1 end whole first 0 corrupt 1\n",
    ),
    (
        TWO_BLOCKS,
        &[],
        &[
            Byte(1),
            Bytes(Stamp(6, 0, 1, 0, 0)),
            Byte(1),
            Bytes(Stamp(RUN, 0, 3, 1, 0)),
        ],
        1,
        "block 0 other-run: wants write 2, \
         holds write 1 of block 0 of job 0 of server 0 of run 6\n\
         unchecked\nreport checked 2 faults 1 end whole first 0 other-run 1\n",
    ),
    // One bit of a run, and two of a job, where no other sector says so.
    (
        TWO_BLOCKS,
        &[],
        &[
            Byte(1),
            Bytes(Stamp(6, 0, 2, 0, 0)),
            Byte(1),
            Bytes(Stamp(RUN, 5, 3, 1, 0)),
        ],
        1,
        "block 0 corrupt: wants write 2, unknown sectors 0, \
         differs from write 2 by bits 1 first at sector 0 byte 7; \
         0-0 write 2 of block 0 of job 0 of server 0 of run 6 place 0\n\
         block 1 corrupt: wants write 3, unknown sectors 0, \
         differs from write 3 by bits 2 first at sector 0 byte 15; \
         0-0 write 3 of block 1 of job 5 of server 0 of run 7 place 0\n\
         unchecked\nreport checked 2 faults 2 end whole first 0 1 corrupt 2\n",
    ),
    (
        TWO_BLOCKS,
        &[],
        &[
            Byte(1),
            Bytes(Stamp(RUN, 0, 3, 1, 0)),
            Byte(1),
            Bytes(Stamp(RUN, 5, 2, 1, 0)),
        ],
        1,
        "block 0 misdirected: wants write 2, \
         holds write 3 of block 1 of job 0 of server 0 of run 7\n\
         block 1 misdirected: wants write 3, \
         holds write 2 of block 1 of job 5 of server 0 of run 7\n\
         unchecked\nreport checked 2 faults 2 end whole first 0 1 misdirected 2\n",
    ),
    (
        TWO_BLOCKS,
        &[],
        &[
            Byte(1),
            Bytes(Stamp(RUN, 0, 2, 0, 0)),
            Byte(1),
            Bytes(Changed(3, 1, 0, &[(511, 1)])),
        ],
        1,
        "block 1 corrupt: wants write 3, unknown sectors 1, \
         differs from write 3 by bits 1 first at sector 0 byte 511; 0-0 unknown\n\
         unchecked\nreport checked 2 faults 1 end whole first 1 corrupt 1\n",
    ),
    (
        ONE_BLOCK,
        &[],
        &[
            Byte(1),
            Bytes(Stamp(RUN, 0, 1, 0, 0)),
            Bytes(Stamp(RUN, 0, 0, 0, 1)),
        ],
        1,
        "block 0 torn: wants write 1; \
         0-0 write 1 of block 0 of job 0 of server 0 of run 7 place 0; \
         1-1 write 0 of block 0 of job 0 of server 0 of run 7 place 1\n\
         unchecked\nreport checked 1 faults 1 end whole first 0 torn 1\n",
    ),
    (
        TWO_BLOCKS,
        &[],
        &[Byte(0), Byte(1), Bytes(Stamp(RUN, 0, 3, 1, 0))],
        2,
        "block 0 unread: wants write 2\n\
         unchecked\nreport checked 1 faults 0 end whole first - unread 1\n",
    ),
    (
        TWO_BLOCKS,
        &[],
        &[Byte(1), Bytes(Filled(0)), Byte(0)],
        2,
        "block 0 unwritten: wants write 2\nblock 1 unread: wants write 3\n\
         unchecked\nreport checked 1 faults 1 end whole first 0 unwritten 1 unread 1\n",
    ),
    (
        FATAL,
        &[],
        &[Byte(1), Bytes(Filled(0)), Byte(1), Bytes(Filled(0))],
        1,
        "block 0 unwritten: wants write 2\nblock 1 unwritten: wants write 3\n\
         unchecked\nreport checked 2 faults 2 end whole first 0 1 unwritten 2\n",
    ),
    (
        TWO_BLOCKS,
        &[],
        &[Byte(0), Byte(0)],
        2,
        "block 0 unread: wants write 2\nblock 1 unread: wants write 3\n\
         unchecked\nreport checked 0 faults 0 end whole first - unread 2\n",
    ),
    (
        FOUR_SECTORS,
        &[],
        &[
            Byte(1),
            Bytes(Stamp(RUN, 0, 1, 0, 0)),
            Bytes(Stamp(RUN, 0, 1, 0, 1)),
            Bytes(Filled(0)),
            Bytes(Filled(0)),
        ],
        1,
        "block 0 torn: wants write 1; \
         0-1 write 1 of block 0 of job 0 of server 0 of run 7 place 1; 2-3 zeros\n\
         unchecked\nreport checked 1 faults 1 end whole first 0 torn 1\n",
    ),
    (
        FOUR_SECTORS,
        &[],
        &[
            Byte(1),
            Bytes(Filled(7)),
            Bytes(Stamp(RUN, 0, 1, 0, 1)),
            Bytes(Stamp(RUN, 0, 1, 0, 1)),
            Bytes(Filled(8)),
        ],
        1,
        "block 0 corrupt: wants write 1, unknown sectors 2; 0-0 unknown; \
         1-1 write 1 of block 0 of job 0 of server 0 of run 7 place 1; \
         2-2 write 1 of block 0 of job 0 of server 0 of run 7 place 1; 3-3 unknown\n\
         unchecked\nreport checked 1 faults 1 end whole first 0 corrupt 1\n",
    ),
];

#[test]
fn each_kind(rt: HostRuntime) -> Result<(), Fail> {
    all_agree(rt.alloc(), &KINDS)
}
