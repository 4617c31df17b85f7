//! What comes to a server of a world.

ghost use Rattle.std.specs.Prelude.{List};
ghost use Rattle.server_core.specs.declared.input.Input.TheVariants.{WriteDone};
ghost use Rattle.net_world.specs.Setup.{Setup};
ghost use Rattle.net_world.specs.Changes.{Change};
ghost use Rattle.net_world.specs.Stands.{StandsFor};
ghost use Rattle.net_world.specs.Serving.{ServerEnds};

use super::World;
use crate::told::{Told, WorldAnswer};
use engine::Ticket;
use fc_base::{Fault, ServerNo};
use messages::Frame;
use server_core::{Input, Outs, WriteEnd};

impl World {
    /// Something comes to a server, whose frames are sent. It is told with what a worker is answered that
    /// asks for a write.
    ///
    /// `NoServer`, `NodeOff`, `NoMemory`, or the server's own refusal.
    // Inlined with the way of writes, so that their caller makes no room for packets and frames.
    #[inline(always)]
    pub(super) fn serve(&mut self, server: ServerNo, input: Input<Frame>) -> Result<Told, Fault>
        ensures { (w : Setup) (past : List Change) → StandsFor w past self.old →
            ServerEnds w past server input self.new result }
    {
        if !self.has_server(server) {
            return Err(Fault::NoServer);
        }
        let Ok(first) = self.sent.settle() else {
            return Err(Fault::NoMemory);
        };
        let outs = self.servers[server.0 as usize].on()?.step(input)?;
        let Outs { frames, issue, act } = outs;
        let sent = frames.len() as u64;
        self.sent.add(frames);
        Ok(Told {
            answer: WorldAnswer::of_issue(issue),
            first: first as u64,
            sent,
            act,
        })
    }

    /// The end of a write comes to a server, which sends nothing then. It ends as by `serve`.
    #[inline(always)]
    pub(super) fn serve_end(
        &mut self,
        server: ServerNo,
        ticket: Ticket,
        end: WriteEnd,
    ) -> Result<Told, Fault>
        ensures { (w : Setup) (past : List Change) → StandsFor w past self.old →
            ServerEnds w past server (WriteDone ticket end) self.new result }
    {
        if !self.has_server(server) {
            return Err(Fault::NoServer);
        }
        let Ok(first) = self.sent.settle() else {
            return Err(Fault::NoMemory);
        };
        self.servers[server.0 as usize]
            .on()?
            .end_write(ticket, end)?;
        Ok(Told::plain(first))
    }
}
