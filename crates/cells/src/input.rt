//! What comes to a node.

ghost use Rattle.std.specs.Prelude.{◌≡◌};

use crate::client_cell::ClientRequest;
use engine::Ticket;
use fc_base::{Attempt, CheckReport, JobNo};
use server_core::WriteEnd;
use std::marker::Model;

/// The bytes of a frame.
#[derive(Drop)]
pub struct FrameBytes {
    bytes: Vec<u8>,
}

impl Model for FrameBytes {
    ghost use Rattle.std.specs.Prelude.{List, ℕ};

    ghost Value = { List ℕ };

    ghost view = { λ f. f.bytes.items };
}

impl FrameBytes {
    /// These bytes.
    pub fn new(bytes: Vec<u8>) -> FrameBytes
        ensures { result ≡ bytes.items }
    {
        FrameBytes { bytes }
    }

    /// The bytes.
    pub fn as_slice(&self) -> &[u8]
        ensures { result.now ≡ self.now }
    {
        self.bytes.as_slice()
    }
}

/// What comes to a node: to a server what its workers ask and tell, to the client what its caller asks,
/// and to both frames, cuts and restarts.
#[derive(Drop)]
pub enum NodeInput {
    /// A frame is delivered.
    Frame(FrameBytes),
    /// A worker asks for the next write of a job.
    Issue(JobNo),
    /// A worker has carried out a write, or has failed to.
    WriteDone(Ticket, WriteEnd),
    /// A job's file was checked, in this boot and for this attempt.
    CheckDone {
        boot: u64,
        attempt: Attempt,
        job: JobNo,
        report: Box<CheckReport>,
    },
    /// The client is asked by its caller to begin, trigger, stop or verify.
    Request(ClientRequest),
    /// The client asks again for all that isn't answered.
    Tick,
    /// The node loses its power.
    Cut,
    /// The node is started again.
    Restart,
}
