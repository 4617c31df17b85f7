//! A packet of a server, or of the mirror, is delivered.

ghost use Rattle.std.specs.Prelude.{◌≡◌, ◌<◌, [], not, false, true, List, None, IsTrue};
ghost use Rattle.fc_base.specs.declared.limits.TheConstants.{MAX_SERVERS};
ghost use Rattle.node.specs.Steps.{Ends};
ghost use Rattle.messages.specs.declared.packet.PacketParts.{PacketParts as Parts};
ghost use Rattle.messages.specs.Nodes.{node_number, is_client, is_mirror};
ghost use Rattle.messages.specs.Ranges.{is_body, KeepsState};
ghost use Rattle.messages.specs.Bodies.{kind_of};
ghost use Rattle.messages.specs.Kinds.{is_of_mirror};
ghost use Rattle.client_core.specs.Inputs.{Deliver};
ghost use Rattle.client_core.specs.Ends.{steps};
ghost use Rattle.client_core.specs.History.{Opening, Entry};
ghost use Rattle.client_core.specs.Refusals.{refusal_by, faults_of_body};
ghost use Rattle.client_core.specs.Stands.{StandsFor};

use super::PacketClient;
use crate::note::notes_are_read_back;
use crate::refusal::new_state;
use crate::replies::replies;
use disk_model::Notes;
use fc_base::Fault;
use messages::{Body, Frames, Packet, PacketParts};
use verify_state::found_after_a_push;

impl<N: Notes> PacketClient<N> {
    /// Takes a packet, and replies to it. A State of a new key is saved before it is acknowledged.
    ///
    /// In this order: `Down`; `Misdirected`; `Conflict`, another state of the key is kept; `TableFull`;
    /// `NoMemory`, and nothing changes; `SaveFault`, and the client is down.
    pub(crate) fn deliver(&mut self, packet: Packet) -> Result<Frames, Fault>
        ensures { (opening : Opening) (past : List Entry) → StandsFor N.note self.old opening past →
            Ends (steps N.note opening) past (Deliver packet) self.old self.new result }
    {
        if let Some(fault) = self.refusal(&packet) {
            return Err(fault);
        }
        self.peers.servers.are_few();
        let mirror = packet.from().is_mirror();
        let server = packet.from().number();
        let PacketParts { body, .. } = packet.into_parts();
        if mirror {
            return self.hear_mirror(&body);
        }
        self.hear(server, body)
    }

    /// Takes what a server says, which isn't refused.
    fn hear(&mut self, server: u32, body: Body) -> Result<Frames, Fault>
        requires up { self.old.durable.down ≡ false }
        requires server { server < MAX_SERVERS }
        requires body { IsTrue (is_body body) }
        requires state { KeepsState body }
        requires free { faults_of_body self.old.noted body ≡ [] }
        ensures { (opening : Opening) (past : List Entry) (p : Parts) → p.body ≡ body →
            node_number p.from ≡ server →
            refusal_by (not self.old.durable.down) self.old.peers self.old.noted (Deliver p)
            ≡ None →
            StandsFor N.note self.old opening past →
            Ends (steps N.note opening) past (Deliver p) self.old self.new result }
    {
        notes_are_read_back();
        found_after_a_push();
        let Ok(frames) = replies(
            self.alloc,
            self.peers.mirror,
            &self.noted,
            &self.life,
            server,
            &body,
        ) else {
            return Err(Fault::NoMemory);
        };
        match new_state(&self.noted, &body) {
            Some(state) => match self.keep(state) {
                Ok(()) => {
                    self.life.hear(server, &body);
                    Ok(frames)
                }
                Err(fault) => Err(fault),
            },
            None => match self.life.hear_any(server, body) {
                Ok(()) => Ok(frames),
                Err(_) => Err(Fault::NoMemory),
            },
        }
    }

    /// Takes what the mirror says, which isn't refused. Nothing is replied.
    fn hear_mirror(&mut self, body: &Body) -> Result<Frames, Fault>
        requires up { self.old.durable.down ≡ false }
        requires mirror { self.old.peers.mirror ≡ true }
        requires kind { IsTrue (is_of_mirror (kind_of body.now)) }
        requires state { KeepsState body.now }
        requires free { faults_of_body self.old.noted body.now ≡ [] }
        ensures { (opening : Opening) (past : List Entry) (p : Parts) → p.body ≡ body.now →
            IsTrue (is_mirror p.from) → IsTrue (is_client p.to) →
            refusal_by (not self.old.durable.down) self.old.peers self.old.noted (Deliver p)
            ≡ None →
            StandsFor N.note self.old opening past →
            Ends (steps N.note opening) past (Deliver p) self.old self.new result }
    {
        notes_are_read_back();
        found_after_a_push();
        match new_state(&self.noted, body) {
            Some(state) => match self.keep(state) {
                Ok(()) => Ok(Frames::new(self.alloc)),
                Err(unsaved) => Err(unsaved),
            },
            None => match self.life.hear_mirror(body) {
                Ok(()) => {
                    self.peers.hear(self.noted.generation, body);
                    Ok(Frames::new(self.alloc))
                }
                Err(_) => Err(Fault::NoMemory),
            },
        }
    }
}
