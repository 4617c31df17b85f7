//! A client over its durable note, to which whole packets come.

ghost use Rattle.std.specs.Prelude.{◌≡◌, ◌≤◌, false, List, [], not};
ghost use Rattle.fc_base.specs.declared.limits.TheConstants.{MAX_SERVERS};
ghost use Rattle.client_core.specs.History.{Opening, Entry};
ghost use Rattle.client_core.specs.Inputs.{Deliver};
ghost use Rattle.client_core.specs.Refusals.{refusal_by};
ghost use Rattle.client_core.specs.Words.{would_save};

mod begin;
mod deliver;
mod packet_core;
mod save;
mod tick;
mod trigger;
mod verify;

use crate::life::Life;
use crate::note::ClientNote;
use crate::peers::Peers;
use crate::refusal::{adds, fault_of, is_for_client};
use crate::servers::Servers;
use disk_model::Notes;
use fc_base::Fault;
use messages::Packet;
use node::Durable;
use std::alloc::Global;

/// A client to which whole packets come: its durable note, with whom it is, what it knows of its
/// note, and what it keeps of its requests.
#[derive(Drop)]
pub(crate) struct PacketClient<N> {
    pub(crate) alloc: Global,
    pub(crate) durable: Durable<N>,
    pub(crate) peers: Peers,
    pub(crate) noted: ClientNote,
    pub(crate) life: Life,
}

impl<N: Notes> PacketClient<N> {
    ghost use Rattle.client_core.specs.Lives.{LifeIs};
    ghost use Rattle.client_core.specs.Stands.{StandsFor};

    /// A client that was just opened over its notes, which say what is noted.
    pub(crate) fn new(
        alloc: Global,
        servers: u32,
        mirror: bool,
        notes: N,
        noted: ClientNote,
    ) -> PacketClient<N>
        requires { servers ≤ MAX_SERVERS }
        ensures durable { result.durable ≡ record { notes = notes; down = false } }
        ensures peers { result.peers
            ≡ record { servers = servers; mirror = mirror; granted = false } }
        ensures noted { result.noted ≡ noted }
        ensures life { LifeIs result.life [] }
    {
        PacketClient {
            alloc,
            durable: Durable::new(notes),
            peers: Peers {
                servers: Servers::new(servers),
                mirror,
                granted: false,
            },
            noted,
            life: Life::new(alloc),
        }
    }

    /// Whether the delivery of this packet would make a save: it is a State, or a Copy of the mirror, that
    /// isn't refused, of a key of which no state is kept.
    pub(crate) fn would_save(&self, packet: &Packet) -> bool
        ensures { (opening : Opening) (past : List Entry) → StandsFor N.note self.now opening past →
            result ≡ would_save opening past (Deliver packet.now) }
    {
        self.refusal(packet).is_none() && adds(&self.noted, packet.body())
    }

    /// Why the delivery of this packet is refused.
    fn refusal(&self, packet: &Packet) -> Option<Fault>
        ensures { result
            ≡ refusal_by (not self.now.durable.down) self.now.peers self.now.noted
            (Deliver packet.now) }
    {
        if self.durable.is_down() {
            return Some(Fault::Down);
        }
        if !is_for_client(&self.peers, packet) {
            return Some(Fault::Misdirected);
        }
        fault_of(&self.noted, packet.body())
    }
}
