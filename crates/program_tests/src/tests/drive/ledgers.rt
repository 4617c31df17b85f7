//! Checks by a ledger: what blocks hold that were lost at rest, and that a loss is told once.

use super::inputs::Tell::*;
use super::ledger_inputs::Block::*;
use super::ledger_inputs::{Block, EIGHT, Step, TWO_OF_EIGHT, tell_all};
use super::map_inputs::PATTERN;
use super::map_inputs::Sector::*;
use super::stamps::RUN;
use std::test::Fail;
use targets::Since;

/// Each block holds its write.
const FIRST_BLOCKS: &[Block] = &[
    Write(RUN, 0, 0),
    Write(RUN, 1, 1),
    Write(RUN, 2, 2),
    Write(RUN, 3, 3),
    Write(RUN, 4, 4),
    Write(RUN, 5, 5),
    Write(RUN, 6, 6),
    Write(RUN, 7, 7),
];

/// A full pass over eight blocks, in which each holds its write.
pub(super) const FIRST: Step = Step {
    run: RUN,
    since: Since::Run,
    job: EIGHT,
    told: &[],
    target: FIRST_BLOCKS,
    status: 0,
    lines: "unchecked\nreport checked 8 faults 0 end whole first -\n",
};

/// The first two blocks hold those of the second run.
const SECOND_BLOCKS: &[Block] = &[
    Write(8, 0, 0),
    Write(8, 1, 1),
    Write(RUN, 2, 2),
    Write(RUN, 3, 3),
    Write(RUN, 4, 4),
    Write(RUN, 5, 5),
    Write(RUN, 6, 6),
    Write(RUN, 7, 7),
];

/// A run that writes two of the blocks: its write to block 0 is done, and that to block 1 in flight, which has landed.
pub(super) const SECOND: Step = Step {
    run: 8,
    since: Since::Run,
    job: TWO_OF_EIGHT,
    told: &[Done(0), Take],
    target: SECOND_BLOCKS,
    status: 0,
    lines: "unchecked\nreport checked 8 faults 0 end whole first -\n",
};

/// No run since the last check, with the stamps of the second run's job.
pub(super) const REST: Step = Step {
    since: Since::Rest,
    told: &[],
    ..SECOND
};

/// Behind the second run all blocks but the last are lost: one that it wrote, one to which its write was in flight,
/// and at rest zeros, a byte, an older run's write, another block's write, half a write, and half of nothing that is
/// known. Then nothing is asked of these blocks, and the last is lost at rest, too.
static LOSSES: [Step; 5] = [
    FIRST,
    Step {
        target: &[
            Byte(0),
            Byte(0),
            Byte(9),
            Write(6, 3, 3),
            Write(RUN, 5, 5),
            Sectors(&[Stamp(RUN, 0, 5, 5, 0), Filled(0)]),
            Sectors(&[Filled(7), Stamp(RUN, 0, 6, 6, 1)]),
            Write(RUN, 7, 7),
        ],
        status: 1,
        lines: "block 0 unwritten: wants write 0\n\
            block 1 at-rest: wants write 1 of run 7 or write 1 of run 8, holds zeros\n\
            block 2 at-rest: wants write 2 of run 7, holds byte 9\n\
            block 3 at-rest: wants write 3 of run 7, \
            holds write 3 of block 3 of job 0 of server 0 of run 6\n\
            block 4 at-rest: wants write 4 of run 7, \
            holds write 5 of block 5 of job 0 of server 0 of run 7\n\
            block 5 at-rest: wants write 5 of run 7, torn; \
            0-0 write 5 of block 5 of job 0 of server 0 of run 7 place 0; 1-1 zeros\n\
            block 6 at-rest: wants write 6 of run 7, unknown sectors 1; 0-0 unknown; \
            1-1 write 6 of block 6 of job 0 of server 0 of run 7 place 1\n\
            unchecked\n\
            report checked 8 faults 7 end whole first 0 1 2 3 4 5 6 unwritten 1 at-rest 6\n",
        ..SECOND
    },
    Step {
        target: &[
            Byte(1),
            Byte(2),
            Byte(0),
            Byte(0),
            Byte(0),
            Byte(0),
            Byte(0),
            Write(RUN, 7, 7),
        ],
        lines: "unchecked 0-6\nreport checked 1 faults 0 end whole first -\n",
        ..REST
    },
    Step {
        target: &[
            Write(8, 0, 0),
            Write(8, 1, 1),
            Byte(0),
            Byte(0),
            Byte(0),
            Byte(0),
            Byte(0),
            Byte(255),
        ],
        status: 1,
        lines: "block 7 at-rest: wants write 7 of run 7, holds byte 255\n\
            unchecked 0-6\nreport checked 1 faults 1 end whole first 7 at-rest 1\n",
        ..REST
    },
    Step {
        lines: "unchecked 0-7\nreport checked 0 faults 0 end whole first -\n",
        ..REST
    },
];

/// What is lost at rest where no run was: halves of two runs' writes, those of one write in each other's places, a
/// write that the named job hasn't, a bit turned over, zeros beside a byte, the write of another job, the same half
/// twice, and two bytes.
static CONTENTS: [Step; 2] = [
    FIRST,
    Step {
        target: &[
            Sectors(&[Stamp(8, 0, 0, 0, 0), Stamp(RUN, 0, 0, 0, 1)]),
            Sectors(&[Stamp(RUN, 0, 1, 1, 1), Stamp(RUN, 0, 1, 1, 0)]),
            Write(8, 2, 2),
            Sectors(&[Changed(3, 3, 0, &[(500, 64)]), Stamp(RUN, 0, 3, 3, 1)]),
            Sectors(&[Filled(0), Filled(9)]),
            Sectors(&[Stamp(6, 15, 7, 9, 0), Stamp(6, 15, 7, 9, 1)]),
            Sectors(&[Stamp(RUN, 0, 6, 6, 0), Stamp(RUN, 0, 6, 6, 0)]),
            Sectors(&[Filled(7), Filled(8)]),
        ],
        status: 1,
        lines: "block 0 at-rest: wants write 0 of run 7, torn; \
            0-0 write 0 of block 0 of job 0 of server 0 of run 8 place 0; \
            1-1 write 0 of block 0 of job 0 of server 0 of run 7 place 1\n\
            block 1 at-rest: wants write 1 of run 7, torn; \
            0-0 write 1 of block 1 of job 0 of server 0 of run 7 place 1; \
            1-1 write 1 of block 1 of job 0 of server 0 of run 7 place 0\n\
            block 2 at-rest: wants write 2 of run 7, unknown sectors 2; 0-1 unknown\n\
            block 3 at-rest: wants write 3 of run 7, unknown sectors 1; 0-0 unknown; \
            1-1 write 3 of block 3 of job 0 of server 0 of run 7 place 1\n\
            block 4 at-rest: wants write 4 of run 7, unknown sectors 1; 0-0 zeros; 1-1 unknown\n\
            block 5 at-rest: wants write 5 of run 7, \
            holds write 7 of block 9 of job 15 of server 0 of run 6\n\
            block 6 at-rest: wants write 6 of run 7, torn; \
            0-0 write 6 of block 6 of job 0 of server 0 of run 7 place 0; \
            1-1 write 6 of block 6 of job 0 of server 0 of run 7 place 0\n\
            block 7 at-rest: wants write 7 of run 7, unknown sectors 2; 0-1 unknown\n\
            unchecked\nreport checked 8 faults 8 end whole first 0 1 2 3 4 5 6 7 at-rest 8\n",
        ..REST
    },
];

/// What a check has found has to stay: the second run's writes have landed, and both blocks go back to what the first
/// run left.
static WENT_BACK: [Step; 3] = [
    FIRST,
    SECOND,
    Step {
        target: FIRST_BLOCKS,
        status: 1,
        lines: "block 0 at-rest: wants write 0 of run 8, \
            holds write 0 of block 0 of job 0 of server 0 of run 7\n\
            block 1 at-rest: wants write 1 of run 8, \
            holds write 1 of block 1 of job 0 of server 0 of run 7\n\
            unchecked\nreport checked 8 faults 2 end whole first 0 1 at-rest 2\n",
        ..REST
    },
];

/// The write in flight to block 1 has not landed, which is no fault; and once that was seen it may not come later.
static CAME_LATE: [Step; 3] = [
    FIRST,
    Step {
        target: &[
            Write(8, 0, 0),
            Write(RUN, 1, 1),
            Write(RUN, 2, 2),
            Write(RUN, 3, 3),
            Write(RUN, 4, 4),
            Write(RUN, 5, 5),
            Write(RUN, 6, 6),
            Write(RUN, 7, 7),
        ],
        ..SECOND
    },
    Step {
        target: SECOND_BLOCKS,
        status: 1,
        lines: "block 1 at-rest: wants write 1 of run 7, \
            holds write 1 of block 1 of job 0 of server 0 of run 8\n\
            unchecked\nreport checked 8 faults 1 end whole first 1 at-rest 1\n",
        ..REST
    },
];

/// A full pass of a pattern, and a second run's first write in flight: the block holds both, and both are asked.
const PATTERN_PASS: Step = Step {
    job: PATTERN,
    target: &[Byte(0x55)],
    lines: "unchecked\nreport checked 1 faults 0 end whole first -\n",
    ..FIRST
};

const PATTERN_IN_FLIGHT: Step = Step {
    run: 8,
    told: &[Take],
    ..PATTERN_PASS
};

const PATTERN_LOST: Step = Step {
    since: Since::Rest,
    status: 1,
    ..PATTERN_PASS
};

static PATTERNS: [[Step; 3]; 3] = [
    [
        PATTERN_PASS,
        PATTERN_IN_FLIGHT,
        Step {
            target: &[Sectors(&[Filled(0x55), Filled(0)])],
            lines: "block 0 at-rest: wants write 1 of run 7 or write 0 of run 8, torn; \
                0-0 pattern; 1-1 zeros\n\
                unchecked\nreport checked 1 faults 1 end whole first 0 at-rest 1\n",
            ..PATTERN_LOST
        },
    ],
    [
        PATTERN_PASS,
        PATTERN_PASS,
        Step {
            target: &[Byte(0x54)],
            lines: "block 0 at-rest: wants write 1 of run 7, holds byte 84\n\
                unchecked\nreport checked 1 faults 1 end whole first 0 at-rest 1\n",
            ..PATTERN_LOST
        },
    ],
    [
        PATTERN_PASS,
        PATTERN_PASS,
        Step {
            target: &[Sectors(&[Filled(0x55), Spoilt(0x55, &[(3, 1)])])],
            lines: "block 0 at-rest: wants write 1 of run 7, unknown sectors 1; \
                0-0 pattern; 1-1 unknown\n\
                unchecked\nreport checked 1 faults 1 end whole first 0 at-rest 1\n",
            ..PATTERN_LOST
        },
    ],
];

#[test]
fn losses_at_rest_are_told_once(rt: HostRuntime) -> Result<(), Fail> {
    tell_all(rt.alloc(), &LOSSES)
}

#[test]
fn what_lost_blocks_hold(rt: HostRuntime) -> Result<(), Fail> {
    tell_all(rt.alloc(), &CONTENTS)
}

#[test]
fn blocks_that_go_back_are_lost(rt: HostRuntime) -> Result<(), Fail> {
    tell_all(rt.alloc(), &WENT_BACK)
}

#[test]
fn writes_that_come_late_are_lost(rt: HostRuntime) -> Result<(), Fail> {
    tell_all(rt.alloc(), &CAME_LATE)
}

#[test]
fn patterns_at_rest(rt: HostRuntime) -> Result<(), Fail> {
    for steps in &PATTERNS {
        tell_all(rt.alloc(), steps)?;
    }
    Ok(())
}
