//! What a server says to the client, as frames.

ghost use Rattle.std.specs.Prelude.{◌≡◌, ◌<◌, ◌∷◌, [], ◌++◌, IsTrue, OnOk, IfOk, MatchOption};
ghost use Rattle.fc_base.specs.declared.limits.TheConstants.{MAX_SERVERS};
ghost use Rattle.messages.specs.Ranges.{is_body};
ghost use Rattle.server_core.specs.Framed.{frames_to_client, one_or_none};

use fc_base::ServerNo;
use messages::{Body, Frames, Node, Packet, PacketParts, frames_of};
use std::alloc::{AllocError, Global};

/// Appends the frames of a packet with this body.
pub(crate) fn say(
    alloc: Global,
    me: ServerNo,
    body: Body,
    frames: &mut Frames,
) -> Result<(), AllocError>
    requires me { me < MAX_SERVERS }
    requires range { IsTrue (is_body body) }
    ensures { OnOk result (frames.new ≡ frames.old ++ frames_to_client me (body ∷ [])) }
{
    let packet = Packet::new(PacketParts {
        from: Node::Server(me),
        to: Node::Client,
        body,
    });
    frames.append(&frames_of(alloc, &packet)?)
}

/// The frames of one packet with this body.
pub(crate) fn only(alloc: Global, me: ServerNo, body: Body) -> Result<Frames, AllocError>
    requires me { me < MAX_SERVERS }
    requires range { IsTrue (is_body body) }
    ensures { IfOk result (λ frames. frames ≡ frames_to_client me (body ∷ [])) }
{
    let mut frames = Frames::new(alloc);
    say(alloc, me, body, &mut frames)?;
    Ok(frames)
}

/// Appends the frames of a packet with this body, if there is one.
pub(crate) fn say_if(
    alloc: Global,
    me: ServerNo,
    body: Option<Body>,
    frames: &mut Frames,
) -> Result<(), AllocError>
    requires me { me < MAX_SERVERS }
    requires range { MatchOption body (Unit {0}) (λ b. IsTrue (is_body b)) }
    ensures { OnOk result (frames.new ≡ frames.old ++ frames_to_client me (one_or_none body)) }
{
    match body {
        Some(body) => say(alloc, me, body, frames),
        None => Ok(()),
    }
}
