//! The client under its lock.

ghost use Rattle.std.specs.Prelude.{◌≡◌, ◌≤◌, [], true, false, List, IfOk, IfErr, IfSome, IfNone, reverse};
ghost use Rattle.client_core.specs.Hearing.{FrameEntry, is_up};

mod apply;
mod calls;
mod cell_core;
mod command;
mod incoming;
mod power;
mod request;
mod task;
mod tick;

use crate::history::History;
use crate::node_cell::Cell;
use client_core::Client;
pub use command::ClientCommand;
use disk_model::Notes;
use fc_base::{Fault, MAX_SERVERS};
use node::Power;
pub use request::ClientRequest;
use std::alloc::Global;
use std::marker::Model;
use std::snapshot::Snapshot;
pub use task::ClientTask;

/// The client, and the history of all that came to it. Its state is always the replay of that history.
pub struct ClientCell<N: Notes + Drop> {
    servers: u32,
    /// The client as it was when it was opened. It has no bytes: only the proofs read it.
    opened: Snapshot<Client<N>>,
    /// It was opened over a blank note.
    is_blank: bool,
    cell: Cell<Client<N>, N>,
}

/// By hand, so that the crates above need no proof of it.
impl<N: Notes + Drop> Drop for ClientCell<N> {
    fn drop(self) {
        let ClientCell {
            servers: _,
            opened: _,
            is_blank: _,
            cell: _,
        } = self;
    }
}

impl<N: Notes + Drop> Model for ClientCell<N> {
    ghost use Rattle.std.specs.Prelude.{◌≡◌, reverse};
    ghost use Rattle.client_core.specs.FrameEnds.{noted_in};
    ghost use Rattle.client_core.specs.Note.{is_blank as says_nothing};
    ghost use Rattle.cells.specs.ClientStands.{failures_of};
    ghost use Rattle.cells.specs.ClientCells.{opening_of, ClientLog, IsCell};

    ghost Value = { ClientLog };

    ghost view = { λ c. record {
      opening = opening_of c.servers c.opened.value;
      history = reverse c.cell.history.items;
      failures = failures_of N.note c.cell.power;
    } };

    ghost invariant = { λ c. IsCell N.note
        (record {
          opening = opening_of c.servers c.opened.value;
          history = reverse c.cell.history.items;
          failures = failures_of N.note c.cell.power;
        }) c.cell.power
        × (c.is_blank ≡ says_nothing (noted_in c.opened.value)) };
}

impl<N: Notes + Drop> ClientCell<N> {
    ghost use Rattle.client_core.specs.Note.{Says, is_blank};
    ghost use Rattle.client_core.specs.Stands.{NotOpened};
    ghost use Rattle.client_core.specs.FrameEnds.{StandsFor};
    ghost use Rattle.cells.specs.ClientCells.{IsReplay};

    /// Opens a client of so many servers over its note, as `Client::restart` does without a mirror. Where
    /// it isn't opened, the notes come back.
    ///
    /// `LoadFault`, `BadNote`, `NoMemory`: the notes hold what they held.
    pub fn new(alloc: Global, servers: u32, notes: N) -> Result<ClientCell<N>, (N, Fault)>
        requires some { 1 ≤ servers }
        requires few { servers ≤ MAX_SERVERS }
        ensures opened { IfOk result
            (λ cell. (cell.opening.servers ≡ servers) × Says (N.note notes).bytes cell.opening.noted
            × (cell.history ≡ []) × (cell.failures ≡ (N.note notes).failures)) }
        ensures refused { IfErr result
            (λ back. NotOpened false (N.note notes) (N.note back.0) back.1) }
    {
        let client = Client::restart(alloc, servers, false, notes)?;
        let is_blank = client.is_blank();
        Ok(ClientCell {
            servers,
            opened: Snapshot::of(&client),
            is_blank,
            cell: Cell {
                alloc,
                power: Power::On(client),
                history: History::new(alloc),
            },
        })
    }

    /// How many servers it drives.
    pub fn servers(&self) -> u32
        ensures { result ≡ self.now.opening.servers }
    {
        self.servers
    }

    /// Whether it was opened over a blank note.
    pub fn is_blank(&self) -> bool
        ensures { result ≡ is_blank self.now.opening.noted }
    {
        self.is_blank
    }

    /// All that came to it, the oldest first.
    pub fn history(&self) -> &History
        ensures entries { result.now.items ≡ reverse self.now.history }
        ensures replay { (past : List FrameEntry) × IsReplay self.now past }
    {
        &self.cell.history
    }

    /// The client, where it is on: not off, and not down.
    pub fn client(&self) -> Option<&Client<N>>
        ensures on { IfSome result (λ client. (past : List FrameEntry) × IsReplay self.now past
            × StandsFor N.note client.now self.now.opening past
            × (is_up self.now.opening past ≡ true)) }
        ensures off { IfNone result ((past : List FrameEntry) × IsReplay self.now past
            × (is_up self.now.opening past ≡ false)) }
    {
        match self.cell.power.core() {
            Some(client) => Some(client),
            None => None,
        }
    }
}
