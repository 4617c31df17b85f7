//! What a mirror says to the client, as frames.

ghost use Rattle.std.specs.Prelude.{◌≡◌, [], ◌∷◌, ◌++◌, map, IsTrue, OnOk, IfOk};
ghost use Rattle.std.specs.List.{flat_map};
ghost use Rattle.messages.specs.Ranges.{is_body, is_generation};
ghost use Rattle.messages.specs.declared.body.Body.TheVariants.{CopyOk, Granted};
ghost use Rattle.mirror_core.specs.Packets.{to_client, copy_of, frame_bytes};

use fc_base::{Generation, Key};
use messages::{Body, Frames, Node, Packet, PacketParts, frames_of};
use std::alloc::{AllocError, Global};
use verify_state::VerifyState;

/// Appends the frames of a packet to the client.
fn say(alloc: Global, body: Body, frames: &mut Frames) -> Result<(), AllocError>
    requires { IsTrue (is_body body) }
    ensures { OnOk result (frames.new ≡ frames.old ++ frame_bytes (to_client body ∷ [])) }
{
    let packet = Packet::new(PacketParts {
        from: Node::Mirror,
        to: Node::Client,
        body,
    });
    frames.append(&frames_of(alloc, &packet)?)?;
    Ok(())
}

/// The frames that say that the state of a key is kept.
pub(crate) fn copy_ok(alloc: Global, key: Key) -> Result<Frames, AllocError>
    requires { IsTrue (is_body (CopyOk key.run key.server key.job)) }
    ensures { IfOk result
        (λ frames. frames ≡ frame_bytes (to_client (CopyOk key.run key.server key.job) ∷ [])) }
{
    let mut frames = Frames::new(alloc);
    let Key { run, server, job } = key;
    say(alloc, Body::CopyOk { run, server, job }, &mut frames)?;
    Ok(frames)
}

/// The frames that grant a generation, and then those of a copy of each of these states.
pub(crate) fn granted(
    alloc: Global,
    generation: u64,
    states: &[VerifyState],
) -> Result<Frames, AllocError>
    requires { IsTrue (is_generation generation) }
    ensures { IfOk result
        (λ frames. frames ≡ frame_bytes (to_client (Granted generation) ∷ map copy_of states.now)) }
{
    let mut frames = Frames::new(alloc);
    let generation = Generation(generation);
    say(alloc, Body::Granted { generation }, &mut frames)?;
    say_copies(alloc, states, &mut frames)?;
    Ok(frames)
}

/// Appends the frames of a copy of each of these states.
fn say_copies(alloc: Global, states: &[VerifyState], frames: &mut Frames) -> Result<(), AllocError>
    ensures { OnOk result
        (frames.new ≡ frames.old ++ flat_map (λ s. frame_bytes (copy_of s ∷ [])) states.now) }
{
    for state in states {
        say(alloc, Body::Copy { state: *state }, frames)?;
    }
    Ok(())
}
