//! Who sends a packet, and to whom.

ghost use Rattle.std.specs.Prelude.{◌≡◌};
ghost use Rattle.messages.specs.Nodes.{node_number, node_numbered, is_node, is_client, is_mirror, is_server};

use crate::limits::{CLIENT_NUMBER, MIRROR_NUMBER};
use fc_base::{MAX_SERVERS, ServerNo};

/// One end of a packet's way. Frames name a server by its number, 0 to 7, the client by 8, and the
/// mirror by 9.
#[derive(Clone, Copy, Debug, PartialEq, Eq)]
pub enum Node {
    Server(ServerNo),
    Client,
    Mirror,
}

impl Node {
    /// The node's number in a frame.
    pub fn number(self) -> u32
        ensures { result ≡ node_number self }
    {
        match self {
            Node::Server(server) => server.0,
            Node::Client => CLIENT_NUMBER,
            Node::Mirror => MIRROR_NUMBER,
        }
    }

    /// The node with this number in a frame, `None` above 9.
    pub fn numbered(number: u32) -> Option<Node>
        ensures { result ≡ node_numbered number }
    {
        if number < MAX_SERVERS {
            Some(Node::Server(ServerNo(number)))
        } else if number == CLIENT_NUMBER {
            Some(Node::Client)
        } else if number == MIRROR_NUMBER {
            Some(Node::Mirror)
        } else {
            None
        }
    }

    /// Whether the server's number is below 8.
    pub fn is_node(self) -> bool
        ensures { result ≡ is_node self }
    {
        match self {
            Node::Server(server) => server.0 < MAX_SERVERS,
            Node::Client | Node::Mirror => true,
        }
    }

    /// Whether this is the client.
    pub fn is_client(self) -> bool
        ensures { result ≡ is_client self }
    {
        matches!(self, Node::Client)
    }

    /// Whether this is the mirror.
    pub fn is_mirror(self) -> bool
        ensures { result ≡ is_mirror self }
    {
        matches!(self, Node::Mirror)
    }

    /// Whether this is the server of that number.
    pub fn is_server(self, server: ServerNo) -> bool
        ensures { result ≡ is_server server self }
    {
        match self {
            Node::Server(own) => own.0 == server.0,
            Node::Client | Node::Mirror => false,
        }
    }
}
