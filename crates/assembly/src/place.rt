//! Where an event stands.

use messages::Node;

/// An event of a node: the node, and the place of the event in the node's history, from 0 on.
#[derive(Clone, Copy, PartialEq, Eq)]
pub struct Place {
    pub node: Node,
    pub at: u64,
}
