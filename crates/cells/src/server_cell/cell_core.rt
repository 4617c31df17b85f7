//! The core of a server's cell.

ghost use Rattle.std.specs.Prelude.{◌≡◌, ◌<◌};
ghost use Rattle.fc_base.specs.declared.limits.TheConstants.{MAX_SERVERS};
ghost use Rattle.server_core.specs.declared.input.Input.TheVariants.{Deliver};
ghost use Rattle.server_core.specs.declared.outs.Outs.{Outs as OwnOuts};
ghost use Rattle.server_core.specs.FrameEnds as ends;
ghost use Rattle.server_core.specs.Hearing.{FrameEntry};
ghost use Rattle.server_core.specs.History.{Opening as OwnOpening};
ghost use Rattle.server_core.specs.Inputs.{FrameInput};
ghost use Rattle.server_core.specs.NodeKind.{server_kind};
ghost use Rattle.server_core.specs.Words.{Staged};
ghost use Rattle.cells.specs.ServerRules.{core};
ghost use Rattle.cells.specs.ServerStands.{reply_and_frames};

use super::power::step;
use crate::answer::Reply;
use crate::cell_core::CellCore;
use crate::input::NodeInput;
use disk_model::Notes;
use fc_base::{Fault, MAX_JOBS, ServerNo};
use messages::{Frame, Frames, MAX_FRAME, frames_are_spelled};
use node::Power;
use server_core::{Input, Outs, Server, one_note, packets_are_in_range};
use std::alloc::Global;

impl<N: Notes + Drop> CellCore<N> for Server<N> {
    type Seed = ServerNo;

    /// As what it is kept, and what the server is asked by it.
    type Incoming = (NodeInput, Input<Frame>);

    /// One for each job.
    const FRAMES: usize = MAX_JOBS as usize;

    const BYTES: usize = MAX_JOBS as usize * MAX_FRAME;

    ghost FRAMES = { 16 };

    ghost BYTES = { 17168 };

    ghost Opening = { OwnOpening };

    ghost Came = { FrameInput };

    ghost Entry = { FrameEntry };

    ghost Addition = { Staged };

    ghost Outs = { OwnOuts };

    ghost kind = { server_kind N.note };

    ghost core_rules = { core };

    ghost seed_of = { λ opening. opening.me };

    ghost IsSeed = { λ me. me < MAX_SERVERS };

    ghost Opens = { λ me notes made. ends.Opens N.note me notes made };

    ghost delivers = { Deliver };

    ghost came_in = { λ incoming. incoming.0 };

    ghost input_in = { λ incoming. incoming.1 };

    fn delivered(came: NodeInput, frame: Frame) -> (NodeInput, Input<Frame>) {
        (came, Input::Deliver(frame))
    }

    fn is_on(power: &Power<Server<N>, N>) -> bool {
        power.core().is_some()
    }

    fn take(
        power: &mut Power<Server<N>, N>,
        incoming: (NodeInput, Input<Frame>),
    ) -> (Result<(Reply, Frames), Fault>, NodeInput) {
        let (came, input) = incoming;
        let done = told(step(power, input));
        (done, came)
    }

    fn cut(power: &mut Power<Server<N>, N>) -> Result<(), Fault> {
        power.cut()
    }

    fn restart(power: &mut Power<Server<N>, N>, alloc: Global, me: ServerNo) -> Result<(), Fault> {
        power.restart(alloc, me)
    }

    fn keeps_rules() {
        one_note();
        packets_are_in_range();
        frames_are_spelled();
    }
}

/// What a step says to its caller, and the frames that it sends.
fn told(step: Result<Outs, Fault>) -> Result<(Reply, Frames), Fault>
    ensures { result ≡ reply_and_frames step }
{
    match step {
        Ok(outs) => Ok((Reply::of(outs.issue, outs.act), outs.frames)),
        Err(fault) => Err(fault),
    }
}
