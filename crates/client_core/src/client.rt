//! A client over its durable note.

ghost use Rattle.std.specs.Prelude.{◌≡◌, ◌==◌, ◌≤◌, List, length};
ghost use Rattle.std.specs.Option.{option_copied};
ghost use Rattle.fc_base.specs.declared.limits.TheConstants.{MAX_SERVERS};

mod ask;
mod deliver;
mod node_core;

use crate::generation::NotedGeneration;
use crate::note::{ClientNote, notes_are_read_back, one_note};
use crate::outcome::{Outcome, RequestKind};
use crate::packet_client::PacketClient;
use crate::received::Received;
use disk_model::Notes;
use fc_base::{Fault, Generation, Key, RunNo, ServerNo};
use messages::Assembly;
use node::Hearer;
pub use node_core::ClientSeed;
use std::alloc::Global;
use verify_state::VerifyState;

/// A client.
#[derive(Drop)]
pub struct Client<N> {
    hearer: Hearer<PacketClient<N>>,
}

impl<N: Notes> Client<N> {
    ghost use Rattle.client_core.specs.History.{Opening};
    ghost use Rattle.client_core.specs.Note.{Says, is_blank};
    ghost use Rattle.client_core.specs.Words.{is_on, words_noted, kept_state, shown_entries};
    ghost use Rattle.client_core.specs.Life.{life};
    ghost use Rattle.client_core.specs.Outcomes.{outcome, is_settled};
    ghost use Rattle.client_core.specs.Reports.{reports};
    ghost use Rattle.client_core.specs.Hearing.{FrameEntry, packets_heard};
    ghost use Rattle.client_core.specs.FrameEnds.{StandsFor, Restarts, Renews, note_in};

    /// Opens a client of so many servers over its note, and saves nothing. The notes come back where it
    /// can't: [`Fault::LoadFault`], the device failed; [`Fault::BadNote`], the bytes are no note, or with a
    /// mirror they are empty; [`Fault::NoMemory`].
    pub fn restart(
        alloc: Global,
        servers: u32,
        mirror: bool,
        notes: N,
    ) -> Result<Client<N>, (N, Fault)>
        requires some { 1 ≤ servers }
        requires few { servers ≤ MAX_SERVERS }
        ensures { Restarts N.note servers mirror (N.note notes) result }
    {
        one_note();
        let mut notes = notes;
        let bytes = match notes.load() {
            Ok(bytes) => bytes,
            Err(fault) => return Err((notes, fault)),
        };
        if mirror && is_lost(&bytes) {
            return Err((notes, Fault::BadNote));
        }
        match ClientNote::decode(alloc, &bytes) {
            Ok(Some(noted)) => Ok(Client {
                hearer: Hearer {
                    core: PacketClient::new(alloc, servers, mirror, notes, noted),
                    pieces: Assembly::new(alloc),
                },
            }),
            Ok(None) => Err((notes, Fault::BadNote)),
            Err(_) => Err((notes, Fault::NoMemory)),
        }
    }

    /// Opens a client with a mirror, whose note was lost, in this generation, which is saved before it is
    /// used. The notes come back where it can't, in this order: [`Fault::BadGeneration`];
    /// [`Fault::LoadFault`], the device failed; [`Fault::BadNote`], the note isn't empty;
    /// [`Fault::NoMemory`]; [`Fault::SaveFault`].
    pub fn renew(
        alloc: Global,
        servers: u32,
        notes: N,
        generation: Generation,
    ) -> Result<Client<N>, (N, Fault)>
        requires some { 1 ≤ servers }
        requires few { servers ≤ MAX_SERVERS }
        ensures { Renews N.note servers generation (N.note notes) result }
    {
        notes_are_read_back();
        let Some(generation) = NotedGeneration::of_renewal(generation) else {
            return Err((notes, Fault::BadGeneration));
        };
        let mut notes = notes;
        let bytes = match notes.load() {
            Ok(bytes) => bytes,
            Err(fault) => return Err((notes, fault)),
        };
        if !is_lost(&bytes) {
            return Err((notes, Fault::BadNote));
        }
        let noted = ClientNote::renewed(alloc, generation);
        let Ok(bytes) = noted.encode(alloc) else {
            return Err((notes, Fault::NoMemory));
        };
        match notes.save(&bytes) {
            Ok(()) => Ok(Client {
                hearer: Hearer {
                    core: PacketClient::new(alloc, servers, true, notes, noted),
                    pieces: Assembly::new(alloc),
                },
            }),
            Err(fault) => Err((notes, fault)),
        }
    }

    /// The notes of a client that is taken off.
    pub fn off(self) -> N
        ensures note { N.note result ≡ note_in N.note self }
        ensures says { (opening : Opening) (past : List FrameEntry) →
            StandsFor N.note self opening past →
            Says (N.note result).bytes (words_noted opening (packets_heard opening past)) }
    {
        let Client { hearer } = self;
        let Hearer { core, pieces: _ } = hearer;
        let PacketClient { durable, .. } = core;
        durable.into_notes()
    }

    /// The note that it keeps, as it is durable. Behind a failed save it is what that left.
    pub fn notes(&self) -> &N
        ensures note { N.note result.now ≡ note_in N.note self.now }
        ensures says { (opening : Opening) (past : List FrameEntry) →
            StandsFor N.note self.now opening past →
            Says (N.note result.now).bytes (words_noted opening (packets_heard opening past)) }
    {
        self.hearer.core.durable.notes()
    }

    /// Whether it is on: a client whose save failed is down until it is restarted.
    pub fn on(&self) -> bool
        ensures { (opening : Opening) (past : List FrameEntry) →
            StandsFor N.note self.now opening past →
            result ≡ is_on (packets_heard opening past) }
    {
        !self.hearer.core.durable.is_down()
    }

    /// The number up to which runs are used: without a generation, how many were begun. Where a save has
    /// failed, up to it.
    pub fn runs_used(&self) -> u64
        ensures { (opening : Opening) (past : List FrameEntry) →
            StandsFor N.note self.now opening past →
            result ≡ (words_noted opening (shown_entries (packets_heard opening past))).runs }
    {
        self.hearer.core.noted.runs
    }

    /// The number up to which attempts to verify are used, likewise. Where a save has failed, up to it.
    pub fn attempts_used(&self) -> u64
        ensures { (opening : Opening) (past : List FrameEntry) →
            StandsFor N.note self.now opening past →
            result ≡ (words_noted opening (shown_entries (packets_heard opening past))).attempts }
    {
        self.hearer.core.noted.attempts
    }

    /// Whether its note says what a blank one says: nothing was begun, and no state is kept. Where a save
    /// has failed, up to it.
    pub fn is_blank(&self) -> bool
        ensures { (opening : Opening) (past : List FrameEntry) →
            StandsFor N.note self.now opening past →
            result ≡ is_blank (words_noted opening (shown_entries (packets_heard opening past))) }
    {
        self.hearer.core.noted.is_blank()
    }

    /// The kept state of a key. Where a save has failed, up to it.
    pub fn saved(&self, key: Key) -> Option<&VerifyState>
        ensures { (opening : Opening) (past : List FrameEntry) →
            StandsFor N.note self.now opening past →
            option_copied result ≡ kept_state opening
            (shown_entries (packets_heard opening past)) key }
    {
        self.hearer.core.noted.kept.get(key)
    }

    /// The reports of this life, in order of arrival: of each attempt, server and job the first that
    /// counted. Where a save has failed, those up to it.
    pub fn reports(&self) -> &[Received]
        ensures { (opening : Opening) (past : List FrameEntry) →
            StandsFor N.note self.now opening past →
            result.now ≡ reports (life opening (shown_entries (packets_heard opening past))) }
    {
        self.hearer.core.life.reports.as_slice()
    }

    /// How a request of this life stands at a server, by the number of its run or attempt. Where a save
    /// has failed, up to it.
    pub fn outcome(&self, kind: RequestKind, number: u64, server: ServerNo) -> Outcome
        ensures { (opening : Opening) (past : List FrameEntry) →
            StandsFor N.note self.now opening past →
            result ≡ outcome opening
            (shown_entries (packets_heard opening past)) kind number server }
    {
        let servers = self.hearer.core.peers.servers.count();
        if server.0 < servers {
            self.hearer.core.life.outcome(kind, number, server.0)
        } else {
            Outcome::None
        }
    }

    /// Whether the trigger of a run has ended at every server: a local trigger waits for it. Where a save
    /// has failed, up to it.
    pub fn settled(&self, run: RunNo) -> bool
        ensures { (opening : Opening) (past : List FrameEntry) →
            StandsFor N.note self.now opening past →
            result ≡ is_settled opening (shown_entries (packets_heard opening past)) run }
    {
        let servers = self.hearer.core.peers.servers.count();
        self.hearer.core.life.settled(run, servers)
    }
}

/// Whether these are the bytes of a lost note.
fn is_lost(bytes: &[u8]) -> bool
    ensures { result ≡ (length bytes.now == 0) }
{
    bytes.is_empty()
}
