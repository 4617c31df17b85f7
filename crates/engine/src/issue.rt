//! The answers to `issue`, and the tickets of the writes that were issued.

use fc_base::{Key, Seq};

/// A write that was issued: whoever carries it out hands the ticket back when the write is done or
/// has failed.
#[derive(Clone, Copy, Debug, PartialEq, Eq)]
pub struct Ticket {
    /// The boot of the server that issued the write.
    pub boot: u64,
    /// The run, server and job of the write.
    pub key: Key,
    /// The number of the write within its job.
    pub seq: Seq,
    /// The block that it goes to.
    pub block: u32,
}

/// Whether the next write of a job is issued, and if not, why. Where several reasons hold, the
/// first in the order Stopped, Finished, Full, Held, Overlap is answered.
#[derive(Clone, Copy, Debug, PartialEq, Eq)]
pub enum Issue {
    /// The next write is issued.
    Write(Ticket),
    /// As many writes are in flight as may be (fio's `iodepth`).
    Full,
    /// A write that lies a whole window below the next one hasn't completed (`x_window`).
    Held,
    /// A write in flight goes to the next write's block (as fio's `serialize_overlap` has it).
    Overlap,
    /// All writes of the job were issued.
    Finished,
    /// The job was stopped, or one of its writes failed.
    Stopped,
}
