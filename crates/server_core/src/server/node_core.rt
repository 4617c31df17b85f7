//! A server is the core of a node.

ghost use Rattle.std.specs.Prelude.{◌<◌};
ghost use Rattle.fc_base.specs.declared.limits.TheConstants.{MAX_SERVERS};
ghost use Rattle.server_core.specs.Inputs.{FrameInput as ServerInput};
ghost use Rattle.server_core.specs.History.{Opening as ServerOpening};
ghost use Rattle.server_core.specs.Hearing.{FrameEntry};
ghost use Rattle.server_core.specs.Words.{Staged};
ghost use Rattle.server_core.specs.FrameEnds as server;
ghost use Rattle.server_core.specs.NodeKind.{server_kind};

use super::Server;
use crate::input::Input;
use crate::outs::Outs;
use disk_model::Notes;
use fc_base::{Fault, ServerNo};
use messages::Frame;
use node::NodeCore;
use std::alloc::{AllocError, Global};

impl<'t, N: Notes + Drop> NodeCore<'t, N> for Server<N> {
    type Seed = ServerNo;

    type Input = Input<Frame>;

    type Outs = Outs;

    ghost Opening = { ServerOpening };

    ghost Came = { ServerInput };

    ghost Entry = { FrameEntry };

    ghost Addition = { Staged };

    ghost came = { λ input. input };

    ghost kind = { server_kind N.note };

    ghost IsSeed = { λ me. me < MAX_SERVERS };

    ghost Opens = { λ me notes result. server.Opens N.note me notes result };

    #[inline(always)]
    fn is_up(&self) -> bool {
        self.on()
    }

    /// Takes what comes, as [`Server::step`] says.
    #[inline(always)]
    fn step(&mut self, input: Input<Frame>) -> Result<Outs, Fault> {
        Server::step(self, input)
    }

    /// Only a frame may make a save.
    fn would_save(&self, input: &Input<Frame>) -> Result<bool, AllocError> {
        match input {
            Input::Deliver(frame) => Ok(Server::would_save(self, frame)),
            Input::Issue(_) | Input::WriteDone(_, _) | Input::CheckDone { .. } => Ok(false),
        }
    }

    fn notes(&self) -> &N {
        Server::notes(self)
    }

    fn into_notes(self) -> N {
        self.off()
    }

    /// Starts a server with its next boot.
    ///
    /// `NumbersSpent`: its boots are used up. `BadNote`. `LoadFault`. `NoMemory`. `SaveFault`: its note says the
    /// old boot or the next.
    fn start(alloc: Global, me: ServerNo, notes: N) -> Result<Server<N>, (N, Fault)> {
        Server::restart(alloc, me, notes)
    }

    fn keeps_laws() {}
}
