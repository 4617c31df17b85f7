//! The core of the client's cell.

ghost use Rattle.std.specs.Prelude.{◌≡◌, ◌≤◌, false};
ghost use Rattle.fc_base.specs.declared.limits.TheConstants.{MAX_SERVERS};
ghost use Rattle.client_core.specs.declared.outs.Outs.{Outs as OwnOuts};
ghost use Rattle.client_core.specs.FrameEnds as ends;
ghost use Rattle.client_core.specs.Hearing.{FrameEntry};
ghost use Rattle.client_core.specs.History.{Opening as OwnOpening};
ghost use Rattle.client_core.specs.Inputs.{FrameInput, Deliver};
ghost use Rattle.client_core.specs.NodeKind.{client_kind};
ghost use Rattle.client_core.specs.Saves.{Addition as OwnAddition};
ghost use Rattle.cells.specs.ClientRules.{core};
ghost use Rattle.cells.specs.ClientStands.{reply_and_frames};
ghost use Rattle.cells.specs.ClientTasks.{came_in as kept_as, input_in as met_as};

use super::incoming::Incoming;
use super::power::hear;
use crate::answer::{Answer, Reply};
use crate::cell_core::CellCore;
use crate::input::NodeInput;
use client_core::{Client, ClientSeed, Outs, packets_are_in_range};
use disk_model::Notes;
use fc_base::{Fault, MAX_SERVERS};
use messages::{Act, Frame, Frames, MAX_FRAMED, MAX_FRAMES, frames_are_spelled};
use node::Power;
use std::alloc::Global;

impl<N: Notes + Drop> CellCore<N> for Client<N> {
    type Seed = u32;

    type Incoming = Incoming;

    /// Those of a packet to each server.
    const FRAMES: usize = MAX_SERVERS as usize * MAX_FRAMES;

    const BYTES: usize = MAX_SERVERS as usize * MAX_FRAMED;

    ghost FRAMES = { 136 };

    ghost BYTES = { 137864 };

    ghost Opening = { OwnOpening };

    ghost Came = { FrameInput };

    ghost Entry = { FrameEntry };

    ghost Addition = { OwnAddition };

    ghost Outs = { OwnOuts };

    ghost kind = { client_kind N.note };

    ghost core_rules = { core };

    ghost seed_of = { λ opening. opening.servers };

    ghost IsSeed = { λ servers. (1 ≤ servers) × (servers ≤ MAX_SERVERS) };

    ghost Opens = { λ servers notes made.
        ends.Restarts N.note servers false (N.note notes) made };

    ghost delivers = { Deliver };

    ghost came_in = { kept_as };

    ghost input_in = { met_as };

    fn delivered(came: NodeInput, frame: Frame) -> Incoming {
        Incoming::Frame(came, frame)
    }

    fn is_on(power: &Power<Client<N>, N>) -> bool {
        power.core().is_some()
    }

    fn take(
        power: &mut Power<Client<N>, N>,
        incoming: Incoming,
    ) -> (Result<(Reply, Frames), Fault>, NodeInput) {
        let (step, came) = hear(power, incoming);
        (told(step), came)
    }

    fn cut(power: &mut Power<Client<N>, N>) -> Result<(), Fault> {
        power.cut()
    }

    fn restart(power: &mut Power<Client<N>, N>, alloc: Global, servers: u32) -> Result<(), Fault> {
        let mirror = false;
        power.restart(alloc, ClientSeed { servers, mirror })
    }

    fn keeps_rules() {
        packets_are_in_range();
        frames_are_spelled();
    }
}

/// What a step says to its caller, and the frames that it sends.
pub(super) fn told(step: Result<Outs, Fault>) -> Result<(Reply, Frames), Fault>
    ensures { result ≡ reply_and_frames step }
{
    match step {
        Ok(Outs { answer, frames }) => {
            let answer = Answer::of_client(answer);
            let act = Act::None;
            Ok((Reply { answer, act }, frames))
        }
        Err(fault) => Err(fault),
    }
}
