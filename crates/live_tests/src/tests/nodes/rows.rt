//! What the nodes are asked, and what they answer.

use engine::{Issue, Ticket};
use fc_base::{Attempt, JobNo, Key, RunNo, Seq, ServerNo};
use messages::Act;

/// What is asked of the client, of the server at the hub, or from one of its seats. What the client
/// requests is of its first run.
#[derive(Clone, Copy)]
pub enum Step {
    Asks(RequestKind),
    Tick,
    ToClient(u64),
    CutClient,
    RestartClient,
    ToServer(u64),
    Checked(u64),
    Issue(usize),
    Done(usize, u32),
    Cut(usize),
    Restart(usize),
}

use Step::*;
use client_core::RequestKind::{self, *};
use node_threads::Answer;

/// The answer, the act, the number of the first frame sent and how many; or the number of the fault.
pub type Said = Result<(Answer, Act, u64, u64), u8>;

pub type Row = (Step, Said);

const KEY: Key = Key {
    run: RunNo(1),
    server: ServerNo(0),
    job: JobNo(0),
};

const FIRST: Issue = Issue::Write(Ticket {
    boot: 1,
    key: KEY,
    seq: Seq(0),
    block: 0,
});

const SECOND: Issue = Issue::Write(Ticket {
    boot: 1,
    key: KEY,
    seq: Seq(1),
    block: 1,
});

/// What a seat is answered that has no more to be told.
const DONE: Said = Ok((Answer::Plain, Act::None, 0, 0));

const STOPPED: Said = Ok((Answer::Issued(Issue::Stopped), Act::None, 0, 0));

/// A run with a trigger behind one of two writes, a cut, and a check of what was completed.
pub const STORED: [Row; 24] = [
    (Asks(Begin), Ok((Answer::Run(RunNo(1)), Act::None, 0, 1))),
    (ToServer(0), Ok((Answer::Plain, Act::None, 1, 1))),
    (ToClient(1), Ok((Answer::Plain, Act::None, 2, 1))),
    (ToServer(2), Ok((Answer::Plain, Act::None, 3, 1))),
    (ToClient(3), Ok((Answer::Plain, Act::None, 4, 0))),
    (Issue(0), Ok((Answer::Issued(FIRST), Act::None, 0, 0))),
    (Issue(1), Ok((Answer::Issued(SECOND), Act::None, 0, 0))),
    (
        Issue(1),
        Ok((Answer::Issued(Issue::Finished), Act::None, 0, 0)),
    ),
    (Done(0, 0), DONE),
    (Done(0, 0), Err(21)),
    (Asks(Trigger), Ok((Answer::Plain, Act::None, 4, 1))),
    (ToServer(4), Ok((Answer::Plain, Act::None, 5, 1))),
    (ToClient(5), Ok((Answer::Plain, Act::None, 6, 1))),
    (ToServer(6), Ok((Answer::Plain, Act::Cut, 7, 0))),
    (Cut(1), DONE),
    (Restart(1), DONE),
    (Done(0, 1), Err(20)),
    (
        Asks(Verify),
        Ok((Answer::Attempt(Attempt(1)), Act::None, 7, 1)),
    ),
    (ToServer(7), Ok((Answer::Plain, Act::None, 8, 1))),
    (ToClient(8), Ok((Answer::Plain, Act::None, 9, 1))),
    (ToServer(9), Ok((Answer::Plain, Act::None, 10, 0))),
    (Checked(1), Err(20)),
    (Checked(2), Ok((Answer::Plain, Act::None, 10, 1))),
    (ToClient(10), Ok((Answer::Plain, Act::None, 11, 0))),
];

/// The server's save of the run's start fails and leaves the old bytes: it is down. Started again, it has
/// no job file, asks for it, and the run starts.
pub const STOPPED_BEFORE: [Row; 19] = [
    (Asks(Begin), Ok((Answer::Run(RunNo(1)), Act::None, 0, 1))),
    (ToServer(0), Ok((Answer::Plain, Act::None, 1, 1))),
    (ToClient(1), Ok((Answer::Plain, Act::None, 2, 1))),
    (ToServer(2), Err(53)),
    (ToServer(2), Err(81)),
    (ToServer(99), Err(81)),
    (Checked(1), Err(81)),
    (Issue(0), Err(81)),
    (Done(0, 0), Err(81)),
    (Cut(0), Err(81)),
    (Restart(1), DONE),
    (Restart(1), Err(82)),
    (Issue(0), STOPPED),
    (ToServer(2), Ok((Answer::Plain, Act::None, 3, 1))),
    (ToClient(3), Ok((Answer::Plain, Act::None, 4, 1))),
    (ToServer(4), Ok((Answer::Plain, Act::None, 5, 1))),
    (ToClient(5), Ok((Answer::Plain, Act::None, 6, 1))),
    (ToServer(6), Ok((Answer::Plain, Act::None, 7, 1))),
    (ToClient(7), Ok((Answer::Plain, Act::None, 8, 0))),
];

/// It leaves the new bytes: the run has begun there, and won't start again.
pub const STOPPED_BEHIND: [Row; 6] = [
    (Asks(Begin), Ok((Answer::Run(RunNo(1)), Act::None, 0, 1))),
    (ToServer(0), Ok((Answer::Plain, Act::None, 1, 1))),
    (ToClient(1), Ok((Answer::Plain, Act::None, 2, 1))),
    (ToServer(2), Err(53)),
    (Restart(0), DONE),
    (ToServer(2), Ok((Answer::Plain, Act::None, 3, 1))),
];

/// Each event of nodes that are on, and then off: off comes before no such frame, and that before what
/// the node itself refuses.
pub const STATES: [Row; 34] = [
    (ToServer(0), Err(80)),
    (ToClient(0), Err(80)),
    (Checked(1), Err(21)),
    (Checked(2), Err(20)),
    (Issue(0), STOPPED),
    (Done(0, 0), Err(21)),
    (Restart(0), Err(82)),
    (RestartClient, Err(82)),
    (Asks(Trigger), Err(70)),
    (Asks(Stop), Err(70)),
    (Asks(Verify), Err(70)),
    (Tick, DONE),
    (Asks(Begin), Ok((Answer::Run(RunNo(1)), Act::None, 0, 1))),
    (ToClient(0), Err(69)),
    (Tick, Ok((Answer::Plain, Act::None, 1, 1))),
    (Cut(0), DONE),
    (CutClient, DONE),
    (ToServer(0), Err(81)),
    (ToServer(99), Err(81)),
    (ToClient(0), Err(81)),
    (ToClient(99), Err(81)),
    (Checked(1), Err(81)),
    (Issue(0), Err(81)),
    (Done(0, 0), Err(81)),
    (Cut(0), Err(81)),
    (CutClient, Err(81)),
    (Asks(Begin), Err(81)),
    (Asks(Trigger), Err(81)),
    (Asks(Stop), Err(81)),
    (Asks(Verify), Err(81)),
    (Tick, Err(81)),
    (Restart(0), DONE),
    (RestartClient, DONE),
    (ToServer(0), Ok((Answer::Plain, Act::None, 2, 1))),
];
