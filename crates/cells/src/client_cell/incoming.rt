//! What comes to the client at the hub.

use super::request::ClientRequest;
use crate::input::NodeInput;
use messages::Frame;

/// What comes to the client at the hub, but for a tick.
#[derive(Drop)]
pub(crate) enum Incoming {
    /// A frame, which comes so.
    Frame(NodeInput, Frame),
    /// A request of its caller.
    Request(ClientRequest),
}
