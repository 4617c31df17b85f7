//! Maps by units, for targets that write less than a block whole.

use super::inputs::Tell;
use super::inputs::Tell::*;
use super::map_inputs::Comes::{Byte, Sector as Bytes};
use super::map_inputs::Sector::*;
use super::map_inputs::{Comes, FOUR_SECTORS, ONE_BLOCK, Row, agrees};
use super::stamps::RUN;
use std::test::Fail;

/// A unit, and what is told by it.
type UnitRow = (u32, Row);

const SOUND: &str = "unchecked\nreport checked 1 faults 0 end whole first -\n";

const MISFIT: &str = "refused 9 OutOfLimits 0\n";

/// Write 0 has completed, and write 1 is in flight.
const ONE_DONE: &[Tell] = &[Done(0), Take];

const HALVES: &[Comes] = &[
    Byte(1),
    Bytes(Stamp(RUN, 0, 1, 0, 0)),
    Bytes(Stamp(RUN, 0, 1, 0, 1)),
    Bytes(Stamp(RUN, 0, 0, 0, 2)),
    Bytes(Stamp(RUN, 0, 0, 0, 3)),
];

const ODD: &[Comes] = &[
    Byte(1),
    Bytes(Stamp(RUN, 0, 1, 0, 0)),
    Bytes(Stamp(RUN, 0, 0, 0, 1)),
    Bytes(Stamp(RUN, 0, 0, 0, 2)),
    Bytes(Stamp(RUN, 0, 0, 0, 3)),
];

const HALVES_TORN: &str = "block 0 torn: wants write 0 or 1; \
    0-1 write 1 of block 0 of job 0 of server 0 of run 7 place 1; \
    2-3 write 0 of block 0 of job 0 of server 0 of run 7 place 3\n\
    unchecked\nreport checked 1 faults 1 end whole first 0 torn 1\n";

const ODD_TORN: &str = "block 0 torn: wants write 0 or 1; \
    0-0 write 1 of block 0 of job 0 of server 0 of run 7 place 0; \
    1-3 write 0 of block 0 of job 0 of server 0 of run 7 place 3\n\
    unchecked\nreport checked 1 faults 1 end whole first 0 torn 1\n";

const OLD_TORN: &str = "block 0 torn: wants write 1; \
    0-1 write 1 of block 0 of job 0 of server 0 of run 7 place 1; \
    2-3 write 0 of block 0 of job 0 of server 0 of run 7 place 3\n\
    unchecked\nreport checked 1 faults 1 end whole first 0 torn 1\n";

static UNITS: [UnitRow; 15] = [
    (512, (FOUR_SECTORS, ONE_DONE, HALVES, 0, SOUND)),
    (1024, (FOUR_SECTORS, ONE_DONE, HALVES, 0, SOUND)),
    (2048, (FOUR_SECTORS, ONE_DONE, HALVES, 1, HALVES_TORN)),
    (512, (FOUR_SECTORS, ONE_DONE, ODD, 0, SOUND)),
    (1024, (FOUR_SECTORS, ONE_DONE, ODD, 1, ODD_TORN)),
    (512, (FOUR_SECTORS, &[], HALVES, 1, OLD_TORN)),
    (0, (FOUR_SECTORS, ONE_DONE, HALVES, 2, MISFIT)),
    (256, (FOUR_SECTORS, ONE_DONE, HALVES, 2, MISFIT)),
    (1536, (FOUR_SECTORS, ONE_DONE, HALVES, 2, MISFIT)),
    (4096, (FOUR_SECTORS, ONE_DONE, HALVES, 2, MISFIT)),
    (
        512,
        (
            ONE_BLOCK,
            ONE_DONE,
            &[Byte(1), Bytes(Stamp(RUN, 0, 1, 0, 0)), Bytes(Filled(0))],
            1,
            "block 0 torn: wants write 0 or 1; \
             0-0 write 1 of block 0 of job 0 of server 0 of run 7 place 0; 1-1 zeros\n\
             unchecked\nreport checked 1 faults 1 end whole first 0 torn 1\n",
        ),
    ),
    (
        512,
        (
            ONE_BLOCK,
            ONE_DONE,
            &[
                Byte(1),
                Bytes(Stamp(RUN, 0, 1, 0, 1)),
                Bytes(Stamp(RUN, 0, 0, 0, 1)),
            ],
            1,
            "block 0 torn: wants write 0 or 1; \
             0-0 write 1 of block 0 of job 0 of server 0 of run 7 place 1; \
             1-1 write 0 of block 0 of job 0 of server 0 of run 7 place 1\n\
             unchecked\nreport checked 1 faults 1 end whole first 0 torn 1\n",
        ),
    ),
    (
        512,
        (
            ONE_BLOCK,
            ONE_DONE,
            &[Byte(0)],
            2,
            "block 0 unread: wants write 0 or 1\n\
             unchecked\nreport checked 0 faults 0 end whole first - unread 1\n",
        ),
    ),
    (
        512,
        (
            ONE_BLOCK,
            &[Take],
            &[Byte(1), Bytes(Filled(9)), Bytes(Filled(8))],
            0,
            "unchecked 0-0\nreport checked 0 faults 0 end whole first -\n",
        ),
    ),
    (
        512,
        (
            ONE_BLOCK,
            ONE_DONE,
            &[
                Byte(1),
                Bytes(Stamp(RUN, 0, 0, 0, 0)),
                Bytes(Changed(1, 0, 1, &[(40, 1)])),
            ],
            1,
            "block 0 corrupt: wants write 0 or 1, unknown sectors 1; \
             0-0 write 0 of block 0 of job 0 of server 0 of run 7 place 0; 1-1 unknown\n\
             unchecked\nreport checked 1 faults 1 end whole first 0 corrupt 1\n",
        ),
    ),
];

#[test]
fn maps_by_units(rt: HostRuntime) -> Result<(), Fail> {
    for (number, (unit, row)) in UNITS.iter().enumerate() {
        if agrees(rt.alloc(), Some(*unit), row) != Some(true) {
            return Err(Fail::new(number));
        }
    }
    Ok(())
}
