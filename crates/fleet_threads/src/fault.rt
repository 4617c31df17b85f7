//! Why a fleet has no ends.

use fc_base::{Fault, JobNo, ServerNo};
use thiserror::Error;

/// Why a fleet has no ends: it was refused, or it is astray. What is astray can't be, by what the nodes of a
/// fleet do; it is looked for all the same, since no contract of theirs rules it out.
#[derive(Clone, Copy, Debug, Error, PartialEq, Eq)]
pub enum FleetFault {
    /// A text, a request, a write or a frame was refused so, or there was no memory or no thread.
    #[error("{0}")]
    Refused(Fault),
    #[error("astray: a node is off that was to be on")]
    NodeOff,
    #[error("astray: a server, or a file or a seat of it, isn't there")]
    NoServer,
    #[error("astray: the client has answered a request otherwise than by its number")]
    OtherAnswer,
    #[error("astray: the client was asked for something else than this run")]
    OtherErrand,
    #[error("astray: server {} has no open check of the attempt", .0.0)]
    NoCheck(ServerNo),
    #[error("astray: job {} of server {} is checked with a state that isn't there", .1.0, .0.0)]
    NoState(ServerNo, JobNo),
    #[error("astray: job {} of server {} has no report, and its state wasn't refused", .1.0, .0.0)]
    NoEnd(ServerNo, JobNo),
}

impl From<Fault> for FleetFault {
    fn from(fault: Fault) -> FleetFault {
        FleetFault::Refused(fault)
    }
}
