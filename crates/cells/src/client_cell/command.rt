//! What the client is asked that may send frames and takes none.

use super::request::ClientRequest;

/// What the client is asked by its caller, at the hub.
#[derive(Drop)]
pub enum ClientCommand {
    /// Begin, trigger, stop or verify.
    Request(ClientRequest),
    /// Ask again for all that isn't answered.
    Tick,
}
