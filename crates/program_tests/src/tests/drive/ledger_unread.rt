//! Checks by a ledger: blocks that could not be read, runs whose state was lost, and inputs that end early.

use super::inputs::Tell::*;
use super::ledger_inputs::Block::*;
use super::ledger_inputs::{
    EIGHT, Step, TWO_OF_EIGHT, ledger_behind_all, ledger_input, tell_all, writes_no_ledger,
};
use super::ledgers::{FIRST, REST, SECOND};
use super::map_inputs::Sector::*;
use super::stamps::RUN;
use fake_io::source_of;
use std::alloc::Global;
use std::test::Fail;
use targets::Since;

/// Blocks that could not be read keep their entries: one that the run wrote, one to which its write was in flight, and
/// one at rest. A third run has both its writes in flight. A block of which nothing is asked needn't be read.
static UNREAD: [Step; 6] = [
    FIRST,
    Step {
        target: &[
            Unread,
            Unread,
            Unread,
            Byte(0),
            Write(RUN, 4, 4),
            Write(RUN, 5, 5),
            Write(RUN, 6, 6),
            Write(RUN, 7, 7),
        ],
        status: 2,
        lines: "block 0 unread: wants write 0\n\
            block 1 unread: wants write 1 of run 7 or write 1 of run 8\n\
            block 2 unread: wants write 2 of run 7\n\
            block 3 at-rest: wants write 3 of run 7, holds zeros\n\
            unchecked\nreport checked 5 faults 1 end whole first 3 unread 3 at-rest 1\n",
        ..SECOND
    },
    Step {
        run: 9,
        told: &[Take],
        target: &[
            Write(RUN, 0, 0),
            Unread,
            Write(RUN, 2, 2),
            Unread,
            Write(RUN, 4, 4),
            Write(RUN, 5, 5),
            Write(RUN, 6, 6),
            Write(RUN, 7, 7),
        ],
        status: 2,
        lines: "block 0 at-rest: wants write 0 of run 8 or write 0 of run 9, \
            holds write 0 of block 0 of job 0 of server 0 of run 7\n\
            block 1 unread: wants write 1 of run 7 or write 1 of run 8 or write 1 of run 9\n\
            unchecked 3-3\nreport checked 6 faults 1 end whole first 0 unread 1 at-rest 1\n",
        ..SECOND
    },
    Step {
        target: &[
            Unread,
            Write(8, 1, 1),
            Write(RUN, 2, 2),
            Unread,
            Write(RUN, 4, 4),
            Write(RUN, 5, 5),
            Write(RUN, 6, 6),
            Write(RUN, 7, 7),
        ],
        lines: "unchecked 0-0 3-3\nreport checked 6 faults 0 end whole first -\n",
        ..REST
    },
    Step {
        target: &[
            Unread, Unread, Unread, Unread, Unread, Unread, Unread, Unread,
        ],
        status: 2,
        lines: "block 1 unread: wants write 1 of run 8\n\
            block 2 unread: wants write 2 of run 7\n\
            block 4 unread: wants write 4 of run 7\n\
            block 5 unread: wants write 5 of run 7\n\
            block 6 unread: wants write 6 of run 7\n\
            block 7 unread: wants write 7 of run 7\n\
            unchecked 0-0 3-3\nreport checked 0 faults 0 end whole first - unread 6\n",
        ..REST
    },
    Step {
        run: 10,
        since: Since::LostRun,
        job: EIGHT,
        told: &[],
        target: &[
            Unread, Unread, Unread, Unread, Unread, Unread, Unread, Unread,
        ],
        status: 0,
        lines: "unchecked 0-7\nreport checked 0 faults 0 end whole first -\n",
    },
];

/// A run whose state was lost: nothing is asked of its two blocks, and of the others what was; one of them holds a
/// write of that run. A later run asks for the write that it has completed, and for none in flight to a block of which
/// nothing was asked.
static LOST_RUN: [Step; 3] = [
    FIRST,
    Step {
        run: 8,
        since: Since::LostRun,
        job: TWO_OF_EIGHT,
        told: &[],
        target: &[
            Byte(3),
            Unread,
            Write(8, 1, 1),
            Write(RUN, 3, 3),
            Write(RUN, 4, 4),
            Write(RUN, 5, 5),
            Write(RUN, 6, 6),
            Write(RUN, 7, 7),
        ],
        status: 1,
        lines: "block 2 at-rest: wants write 2 of run 7, \
            holds write 1 of block 1 of job 0 of server 0 of run 8\n\
            unchecked 0-1\nreport checked 6 faults 1 end whole first 2 at-rest 1\n",
    },
    Step {
        run: 9,
        since: Since::Run,
        job: TWO_OF_EIGHT,
        told: &[Done(1), Take],
        target: &[
            Byte(3),
            Write(8, 1, 1),
            Byte(4),
            Write(RUN, 3, 3),
            Write(RUN, 4, 4),
            Write(RUN, 5, 5),
            Write(RUN, 6, 6),
            Write(RUN, 7, 7),
        ],
        status: 1,
        lines: "block 1 other-run: wants write 1, \
            holds write 1 of block 1 of job 0 of server 0 of run 8, \
            differs from write 1 by bits 2 first at sector 0 byte 7\n\
            unchecked 0-0 2-2\nreport checked 6 faults 1 end whole first 1 other-run 1\n",
    },
];

#[test]
fn unread_blocks_keep_their_entries(rt: HostRuntime) -> Result<(), Fail> {
    tell_all(rt.alloc(), &UNREAD)
}

#[test]
fn runs_whose_state_was_lost(rt: HostRuntime) -> Result<(), Fail> {
    tell_all(rt.alloc(), &LOST_RUN)
}

/// Behind the first run's check: inputs that end in a block or before one, and bytes before a block that are neither 0
/// nor 1.
static ENDS: [Step; 8] = [
    Step {
        target: &[Byte(0), Byte(0)],
        status: 2,
        lines: "block 0 unwritten: wants write 0\n\
            block 1 at-rest: wants write 1 of run 7 or write 1 of run 8, holds zeros\n\
            unchecked\nreport checked 2 faults 2 end read 2 first 0 1 unwritten 1 at-rest 1\n",
        ..SECOND
    },
    Step {
        target: &[],
        status: 2,
        lines: "unchecked\nreport checked 0 faults 0 end read 0 first -\n",
        ..REST
    },
    Step {
        target: &[Unread, Write(RUN, 1, 1), Flag(1)],
        status: 2,
        lines: "block 0 unread: wants write 0 of run 7\n\
            unchecked\nreport checked 1 faults 0 end read 2 first - unread 1\n",
        ..REST
    },
    Step {
        target: &[Sectors(&[Stamp(RUN, 0, 0, 0, 0)])],
        status: 2,
        lines: "unchecked\nreport checked 0 faults 0 end read 0 first -\n",
        ..REST
    },
    Step {
        since: Since::LostRun,
        target: &[Byte(0), Unread, Byte(0)],
        status: 2,
        lines: "block 2 at-rest: wants write 2 of run 7, holds zeros\n\
            unchecked 0-1\nreport checked 1 faults 1 end read 3 first 2 at-rest 1\n",
        ..REST
    },
    Step {
        target: &[Flag(2)],
        status: 2,
        lines: "refused 94 BadNotice\n",
        ..REST
    },
    Step {
        target: &[Byte(0), Unread, Flag(255), Byte(0)],
        status: 2,
        lines: "block 0 at-rest: wants write 0 of run 7, holds zeros\n\
            block 1 unread: wants write 1 of run 7\nrefused 94 BadNotice\n",
        ..REST
    },
    Step {
        target: &[Byte(0), Write(8, 1, 1), Flag(2)],
        status: 2,
        lines: "block 0 unwritten: wants write 0\nrefused 94 BadNotice\n",
        ..SECOND
    },
];

/// Whether a check by this ledger has no new one, and writes its lines alone.
fn ends_early(alloc: Global, step: &Step, ledger: &[u8]) -> Option<bool> {
    let input = ledger_input(alloc, step, ledger)?;
    writes_no_ledger(alloc, step, source_of(&input))
}

#[test]
fn checks_that_end_early_write_no_ledger(rt: HostRuntime) -> Result<(), Fail> {
    let ledger = ledger_behind_all(rt.alloc(), &[FIRST])?;
    for (number, step) in ENDS.iter().enumerate() {
        if ends_early(rt.alloc(), step, &ledger) != Some(true) {
            return Err(Fail::new(number));
        }
    }
    Ok(())
}
