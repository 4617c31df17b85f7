//! What a node's history is made of.

use crate::answer::Reply;
use crate::input::NodeInput;
use fc_base::Fault;
use messages::Frames;

/// A seat's event: which seat of the server, and the number of the event among those of that seat, from 0 on.
#[derive(Clone, Copy, PartialEq, Eq)]
pub struct Turn {
    pub seat: u32,
    pub number: u64,
}

/// An entry of a node's history: whose turn it was, where it came from a seat; what came; what was
/// answered; and the frames that were sent.
pub struct HistoryEntry {
    pub by: Option<Turn>,
    pub came: NodeInput,
    pub answer: Result<Reply, Fault>,
    pub sent: Frames,
}

/// By hand, so that the crates above need no proof of it.
impl Drop for HistoryEntry {
    fn drop(self) {
        let HistoryEntry {
            by: _,
            came: _,
            answer: _,
            sent: _,
        } = self;
    }
}
