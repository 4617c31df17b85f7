//! What goes to the servers and to the mirror again.

ghost use Rattle.std.specs.Prelude.{◌≡◌, ◌++◌, OnOk, IfOk};
ghost use Rattle.client_core.specs.Framed.{frame_bytes};
ghost use Rattle.client_core.specs.Lives.{EachLife};
ghost use Rattle.client_core.specs.Packets.{fetch_again, copy_again, copies_again, all_again};

use crate::frames::{say_copy, say_to_mirror};
use crate::generation::NotedGeneration;
use crate::life::Life;
use crate::note::ClientNote;
use crate::peers::Peers;
use fc_base::Generation;
use messages::{Body, Frames};
use std::alloc::{AllocError, Global};
use verify_state::VerifyState;

/// Asks again for all that isn't answered: the grant, the requests, and the copies.
pub(crate) fn all_again(
    alloc: Global,
    peers: &Peers,
    noted: &ClientNote,
    life: &Life,
) -> Result<Frames, AllocError>
    ensures { EachLife life.now (λ deeds. IfOk result (λ frames. frames
        ≡ frame_bytes (all_again peers.now noted.now deeds))) }
{
    let mut frames = Frames::new(alloc);
    fetch_again(alloc, peers, noted.generation, &mut frames)?;
    frames.append(&life.requests_again(alloc, peers.servers.count())?)?;
    copies_again(
        alloc,
        peers.mirror,
        noted.kept.as_slice(),
        life,
        &mut frames,
    )?;
    Ok(frames)
}

/// Asks the mirror for the grant of the generation, until it gives it.
fn fetch_again(
    alloc: Global,
    peers: &Peers,
    generation: NotedGeneration,
    frames: &mut Frames,
) -> Result<(), AllocError>
    ensures { OnOk result
        (frames.new ≡ frames.old ++ frame_bytes (fetch_again peers.now generation)) }
{
    if peers.mirror && (0 < generation.number() && !peers.granted) {
        let generation = Generation(generation.number());
        say_to_mirror(alloc, Body::Fetch { generation }, frames)?;
    }
    Ok(())
}

/// Sends the states to the mirror, where there is one, that it isn't known to keep.
fn copies_again(
    alloc: Global,
    mirror: bool,
    states: &[VerifyState],
    life: &Life,
    frames: &mut Frames,
) -> Result<(), AllocError>
    ensures { EachLife life.now (λ deeds. OnOk result (frames.new ≡ frames.old
        ++ frame_bytes (copies_again mirror states.now deeds))) }
{
    if !mirror {
        return Ok(());
    }
    for state in states {
        copy_again(alloc, state, life, frames)?;
    }
    Ok(())
}

/// Sends a state to the mirror, unless this is known to keep it.
fn copy_again(
    alloc: Global,
    state: &VerifyState,
    life: &Life,
    frames: &mut Frames,
) -> Result<(), AllocError>
    ensures { EachLife life.now (λ deeds. OnOk result (frames.new ≡ frames.old
        ++ frame_bytes (copy_again deeds state.now))) }
{
    if !life.is_copied(state.key()) {
        say_copy(alloc, state, frames)?;
    }
    Ok(())
}
