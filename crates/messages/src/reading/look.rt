//! A look at a frame's header.

ghost use Rattle.std.specs.Prelude.{◌≡◌};
ghost use Rattle.messages.specs.FrameBytes.{sort_numbered};
ghost use Rattle.messages.specs.Looks.{look_at, look_by, LooksAtFrames};
ghost use Rattle.messages.specs.Nodes.{node_numbered};

use crate::frame::FrameKind;
use crate::node::Node;
use crate::reading::{HeaderFields, fields_of};

/// What the header of a frame says of it.
#[derive(Clone, Copy, Debug, PartialEq, Eq)]
pub struct FrameLook {
    pub from: Node,
    pub to: Node,
    pub kind: FrameKind,
}

/// What the header of a frame says, without a look at what is behind it: it takes no memory.
///
/// `None` is answered of fewer than 16 bytes, of bytes that don't begin with FC and version 1, and
/// where the kind isn't known or a node is above 9. Whether the bytes are a frame isn't asked.
pub fn look_at(bytes: &[u8]) -> Option<FrameLook>
    ensures value { result ≡ look_at bytes.now }
    ensures frames { LooksAtFrames bytes.now result }
{
    verify_state::one_spelling();
    match fields_of(bytes) {
        Ok(fields) => looked(fields),
        Err(_) => None,
    }
}

/// What these numbers say, where each is known.
fn looked(fields: HeaderFields) -> Option<FrameLook>
    ensures { result
        ≡ look_by (node_numbered fields.from) (node_numbered fields.to)
        (sort_numbered fields.kind) }
{
    let from = Node::numbered(fields.from)?;
    let to = Node::numbered(fields.to)?;
    let kind = FrameKind::numbered(fields.kind)?;
    Some(FrameLook { from, to, kind })
}
