//! What the client of a world is asked.

ghost use Rattle.std.specs.Prelude.{◌≡◌, ◌++◌, [], List};
ghost use Rattle.net_world.specs.Setup.{Setup};
ghost use Rattle.net_world.specs.Asking.{told_of, ClientEnds};
ghost use Rattle.client_core.specs.Answers.{input_of};
ghost use Rattle.net_world.specs.Changes.{Change};
ghost use Rattle.net_world.specs.Sending.{sent_in};
ghost use Rattle.net_world.specs.Stands.{StandsFor};

use super::World;
use crate::client_node;
use crate::told::{Told, WorldAnswer};
use client_core::{Input, Outs};
use fc_base::Fault;
use messages::Act;

impl World {
    /// The client is asked this, or a frame comes to it.
    pub(super) fn ask(&mut self, ask: Input<'_>) -> Result<Told, Fault>
        ensures { (w : Setup) (past : List Change) → StandsFor w past self.old →
            ClientEnds w past (input_of ask.entry) self.new result }
    {
        let Ok(first) = self.sent.settle() else {
            return Err(Fault::NoMemory);
        };
        let asked = client_node::ask(&mut self.client, ask)?;
        Ok(self.send(first, asked))
    }

    /// The frames that the client sends are added behind so many.
    pub(super) fn send(&mut self, first: usize, asked: Outs) -> Told
        requires { self.old.sent.last ≡ [] }
        ensures told { result ≡ told_of first asked }
        ensures sent { sent_in self.new.sent ≡ sent_in self.old.sent ++ asked.frames }
        ensures rest { self.new ≡ record self.old { sent = self.new.sent } }
    {
        let Outs { answer, frames } = asked;
        let sent = frames.len() as u64;
        self.sent.add(frames);
        Told {
            answer: WorldAnswer::of_client(answer),
            first: first as u64,
            sent,
            act: Act::None,
        }
    }
}
