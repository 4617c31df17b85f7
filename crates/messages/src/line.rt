//! An entry of the journal.

use crate::node::Node;

/// An event of a node that took or sent frames.
#[derive(Clone, Copy, Debug, PartialEq, Eq)]
pub struct Line {
    pub node: Node,
    /// The place of the event in the node's own list.
    pub at: u64,
    /// The number of the frame that it took.
    pub taken: Option<u64>,
    /// How many frames it sent.
    pub sent: u64,
}
