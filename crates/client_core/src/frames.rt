//! What a client says to its servers, as frames.

ghost use Rattle.std.specs.Prelude.{◌≡◌, ◌<◌, ◌≤◌, ℕ, [], ◌∷◌, ◌++◌, length, if◌then◌else◌, IsTrue, OnOk, IfOk};
ghost use Rattle.std.specs.List.{flat_map};
ghost use Rattle.fc_base.specs.declared.limits.TheConstants.{MAX_SERVERS, MAX_TEXT};
ghost use Rattle.fc_base.specs.Counted.{numbers_below};
ghost use Rattle.messages.specs.Ranges.{is_body, is_run};
ghost use Rattle.messages.specs.declared.body.Body.TheVariants.{Copy};
ghost use Rattle.client_core.specs.declared.beginning.Beginning.{Beginning};
ghost use Rattle.client_core.specs.Framed.{frame_bytes};
ghost use Rattle.client_core.specs.Lives.{Each};
ghost use Rattle.client_core.specs.Packets.{to_server, to_mirror, to_all, packets_again, begin_again};
ghost use Rattle.client_core.specs.Requests.{Request};
ghost use Rattle.client_core.specs.RequestStatus.{IsRequestKept};

use crate::beginning::Beginning;
use crate::request_status::RequestStatus;
use crate::run_asked::SERVERS;
use fc_base::{RunNo, ServerNo};
use messages::{Body, Frames, Node, Packet, PacketParts, Text, frames_of};
use std::alloc::{AllocError, Global};
use verify_state::VerifyState;

/// Appends the frames of a packet to a server, and gives back what it says.
pub(crate) fn say(
    alloc: Global,
    server: u32,
    body: Body,
    frames: &mut Frames,
) -> Result<Body, AllocError>
    requires server { server < MAX_SERVERS }
    requires body { IsTrue (is_body body) }
    ensures said { OnOk result
        (frames.new ≡ frames.old ++ frame_bytes (to_server body server ∷ [])) }
    ensures back { IfOk result (λ back. back ≡ body) }
{
    let packet = Packet::new(PacketParts {
        from: Node::Client,
        to: Node::Server(ServerNo(server)),
        body,
    });
    frames.append(&frames_of(alloc, &packet)?)?;
    Ok(packet.into_parts().body)
}

/// Appends the frames of a packet to the mirror.
pub(crate) fn say_to_mirror(
    alloc: Global,
    body: Body,
    frames: &mut Frames,
) -> Result<(), AllocError>
    requires { IsTrue (is_body body) }
    ensures { OnOk result (frames.new ≡ frames.old ++ frame_bytes (to_mirror body ∷ [])) }
{
    let packet = Packet::new(PacketParts {
        from: Node::Client,
        to: Node::Mirror,
        body,
    });
    frames.append(&frames_of(alloc, &packet)?)
}

/// Appends the frames of the copy of a state.
pub(crate) fn say_copy(
    alloc: Global,
    state: &VerifyState,
    frames: &mut Frames,
) -> Result<(), AllocError>
    ensures { OnOk result
        (frames.new ≡ frames.old ++ frame_bytes (to_mirror (Copy state.now) ∷ [])) }
{
    say_to_mirror(alloc, Body::Copy { state: *state }, frames)
}

/// The frames of one packet to a server.
pub(crate) fn only(alloc: Global, server: u32, body: Body) -> Result<Frames, AllocError>
    requires server { server < MAX_SERVERS }
    requires body { IsTrue (is_body body) }
    ensures { IfOk result (λ frames. frames ≡ frame_bytes (to_server body server ∷ [])) }
{
    let mut frames = Frames::new(alloc);
    say(alloc, server, body, &mut frames)?;
    Ok(frames)
}

/// The frames of packets to so many servers that say the same.
pub(crate) fn to_all(alloc: Global, servers: u32, body: Body) -> Result<Frames, AllocError>
    requires few { servers ≤ MAX_SERVERS }
    requires body { IsTrue (is_body body) }
    ensures { IfOk result (λ frames. frames ≡ frame_bytes (to_all servers body)) }
{
    let mut frames = Frames::new(alloc);
    let mut body = body;
    for server in 0..servers {
        body = say(alloc, server, body, &mut frames)?;
    }
    Ok(frames)
}

/// Says it to a server, where that is asked for, and gives back what it says.
fn say_if(
    alloc: Global,
    is_open: bool,
    server: u32,
    body: Body,
    frames: &mut Frames,
) -> Result<Body, AllocError>
    requires server { server < MAX_SERVERS }
    requires body { IsTrue (is_body body) }
    ensures said { OnOk result (frames.new ≡ frames.old
        ++ frame_bytes (if is_open then to_server body server ∷ [] else [])) }
    ensures back { IfOk result (λ back. back ≡ body) }
{
    if is_open {
        say(alloc, server, body, frames)
    } else {
        Ok(body)
    }
}

/// Says it again to each of so many servers where the request is open.
pub(crate) fn say_again(
    alloc: Global,
    servers: u32,
    body: Body,
    standings: &[RequestStatus; SERVERS],
    frames: &mut Frames,
) -> Result<(), AllocError>
    requires few { servers ≤ MAX_SERVERS }
    requires body { IsTrue (is_body body) }
    ensures { (at : ℕ → Request) → Each standings.now (λ s x. IsRequestKept x (at s)) →
        OnOk result (frames.new ≡ frames.old
        ++ frame_bytes (flat_map (λ s. packets_again body s (at s)) (numbers_below servers))) }
{
    let mut body = body;
    for server in 0..servers {
        let is_open = standings[server as usize].is_open();
        body = say_if(alloc, is_open, server, body, frames)?;
    }
    Ok(())
}

/// Says again what begins a run, to each of so many servers where that is open.
pub(crate) fn begin_again(
    alloc: Global,
    servers: u32,
    run: RunNo,
    text: &[u8],
    begins: &[Beginning; SERVERS],
    frames: &mut Frames,
) -> Result<(), AllocError>
    requires few { servers ≤ MAX_SERVERS }
    requires run { IsTrue (is_run run) }
    requires text { length text.now ≤ MAX_TEXT }
    ensures { (at : ℕ → Beginning) → Each begins.now (λ s b. b ≡ at s) →
        OnOk result (frames.new ≡ frames.old
        ++ frame_bytes (flat_map
        (λ s. begin_again run text.now s (at s)) (numbers_below servers))) }
{
    for server in 0..servers {
        let begin = begins[server as usize];
        begin_at_server(alloc, server, run, text, begin, frames)?;
    }
    Ok(())
}

/// Says again what begins a run to a server.
fn begin_at_server(
    alloc: Global,
    server: u32,
    run: RunNo,
    text: &[u8],
    begin: Beginning,
    frames: &mut Frames,
) -> Result<(), AllocError>
    requires server { server < MAX_SERVERS }
    requires run { IsTrue (is_run run) }
    requires text { length text.now ≤ MAX_TEXT }
    ensures { OnOk result (frames.new ≡ frames.old
        ++ frame_bytes (begin_again run text.now server begin)) }
{
    match begin {
        Beginning::Staging => {
            let text = Text::copied(alloc, text)?;
            say(alloc, server, Body::Jobs { run, text }, frames)?;
        }
        Beginning::Starting => {
            say(alloc, server, Body::Start { run }, frames)?;
        }
        _ => {}
    }
    Ok(())
}
