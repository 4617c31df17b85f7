//! What can happen in a world.

use fc_base::{Generation, JobNo, RunNo, Seq, ServerNo};
use messages::{Act, Node};

/// What can happen to a client, its servers, a mirror and their files, but for a cut within a save. Any number may
/// be given: those of no server, frame or write, and of no generation, are refused.
#[derive(Clone, Drop)]
pub enum PlainEvent {
    /// The client begins a run with this job file.
    Begin {
        text: Vec<u8>,
    },
    /// The client triggers the verify states of a run, and then this act.
    Trigger {
        run: RunNo,
        act: Act,
    },
    /// The client stops a run.
    StopRun {
        run: RunNo,
    },
    /// The client has the files of a run checked by this job file.
    Verify {
        run: RunNo,
        text: Vec<u8>,
    },
    /// The client asks again for all that isn't answered.
    Tick,
    /// The frame with this number comes to its node, for the first time or again.
    Deliver {
        frame: u64,
    },
    /// A worker asks for the next write of a job.
    Issue {
        server: ServerNo,
        job: JobNo,
    },
    /// Sectors of an open write land in its file: bit `i` of the mask is for sector `i` of the block.
    Land {
        server: ServerNo,
        job: JobNo,
        write: Seq,
        mask: u128,
    },
    /// An open write is done.
    Done {
        server: ServerNo,
        job: JobNo,
        write: Seq,
    },
    /// An open write has failed.
    Fail {
        server: ServerNo,
        job: JobNo,
        write: Seq,
    },
    /// A sector of a file holds these bytes from now on.
    Rot {
        server: ServerNo,
        job: JobNo,
        sector: u64,
        bytes: Box<[u8; 512]>,
    },
    /// The file of a job is checked, and its server is told the report.
    Check {
        server: ServerNo,
        job: JobNo,
    },
    /// A node loses its power.
    Cut {
        node: Node,
    },
    /// A node is started again.
    Restart {
        node: Node,
    },
    /// The note of the client, which is off, is lost.
    LoseNote,
    /// The client, which is off and has no note, is started with this generation.
    Renew {
        generation: Generation,
    },
}

/// What can happen in a world.
#[derive(Clone, Drop)]
pub enum WorldEvent {
    /// This.
    Plain(PlainEvent),
    /// A node loses its power within the save that this would make: once the new bytes have landed, or
    /// before.
    CutIn { landed: bool, event: PlainEvent },
}
