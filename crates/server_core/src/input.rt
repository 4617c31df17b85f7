//! What comes to a server.

ghost use Rattle.server_core.specs.Ranges.{IsInRange};

use engine::Ticket;
use fc_base::{Attempt, CheckReport, JobNo};
use messages::Packet;

/// How a write ended.
#[derive(Clone, Copy, Debug, PartialEq, Eq)]
pub enum WriteEnd {
    /// Its bytes are in the file.
    Done,
    /// The file's disk has failed. The write stays in flight, and its job issues no more.
    Failed,
}

/// What comes to a server: packets, and what the workers that carry out its writes and checks ask and
/// tell. A network carries packets in frames, whole or in pieces: there `P` is a `Frame`, and once the
/// packet is whole it is that, a `Packet`.
#[derive(Drop)]
pub enum Input<P> {
    /// A packet is delivered, or a frame.
    Deliver(P),
    /// A worker asks for the next write of a job.
    Issue(JobNo),
    /// A worker has carried out a write, or has failed to.
    WriteDone(Ticket, WriteEnd),
    /// A job's file was checked, in this boot and for this attempt.
    CheckDone {
        boot: u64,
        attempt: Attempt,
        job: JobNo,
        report: CheckReport,
    },
}

impl Input<Packet> {
    /// The ranges that what comes keeps, for proofs: nothing runs.
    pub(crate) fn keeps_its_ranges(&self)
        ensures { IsInRange self.now }
    {
        match self {
            Input::Deliver(packet) => packet.keeps_its_ranges(),
            Input::CheckDone { report, .. } => {
                let _in_range = report.parts();
            }
            _ => {}
        }
    }
}
