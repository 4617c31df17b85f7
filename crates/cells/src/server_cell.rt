//! A server under its lock.

ghost use Rattle.std.specs.Prelude.{◌≡◌, ◌<◌, ◌≤◌, [], true, false, List, IfOk, IfErr, IfSome, IfNone, reverse};
ghost use Rattle.server_core.specs.Hearing.{FrameEntry, is_up};
ghost use Rattle.cells.specs.Seated.{new_seats};

mod apply;
mod calls;
mod cell_core;
mod power;
mod report;
mod seat;
mod seats;
mod task;

use crate::history::History;
use crate::node_cell::Cell;
use disk_model::Notes;
use fc_base::{Fault, MAX_SEATS, MAX_SERVERS, RunNo, ServerNo};
use node::Power;
pub use report::Report;
pub use seat::Seat;
use seats::{SEATS, new_seats};
use server_core::{Server, Status};
use std::alloc::Global;
use std::marker::Model;
pub use task::ServerTask;

/// A server, and the history of all that came to it. Its state is always the replay of that history.
pub struct ServerCell<N: Notes + Drop> {
    me: ServerNo,
    boot: u64,
    last_run: RunNo,
    cell: Cell<Server<N>, N>,
    /// How many events of each seat the history has.
    applied: [u64; SEATS],
}

/// By hand, so that the crates above need no proof of it.
impl<N: Notes + Drop> Drop for ServerCell<N> {
    fn drop(self) {
        let ServerCell {
            me: _,
            boot: _,
            last_run: _,
            cell: _,
            applied: _,
        } = self;
    }
}

impl<N: Notes + Drop> Model for ServerCell<N> {
    ghost use Rattle.std.specs.Prelude.{reverse};
    ghost use Rattle.cells.specs.ServerStands.{failures_of};
    ghost use Rattle.cells.specs.ServerCells.{ServerLog, IsCell};

    ghost Value = { ServerLog };

    ghost view = { λ c. record {
      opening = record { me = c.me; boot = c.boot; last = c.last_run };
      history = reverse c.cell.history.items;
      failures = failures_of N.note c.cell.power;
    } };

    ghost invariant = { λ c. IsCell N.note
        (record { me = c.me; boot = c.boot; last = c.last_run }) c.cell.power
        (reverse c.cell.history.items) c.applied };
}

impl<N: Notes + Drop> ServerCell<N> {
    ghost use Rattle.server_core.specs.Note.{Says};
    ghost use Rattle.server_core.specs.Ends.{NotOpened};
    ghost use Rattle.server_core.specs.FrameEnds.{StandsFor};
    ghost use Rattle.cells.specs.ServerCells.{is_blank, IsReplay};

    /// Opens the server with this number over its note, as `Server::restart` does, with so many seats for
    /// its workers. Where it isn't opened, the notes come back.
    ///
    /// `LoadFault`, `BadNote`, `NumbersSpent`, `NoMemory`: the notes hold what they held. `SaveFault`: they
    /// hold that, or the next boot.
    pub fn new(
        alloc: Global,
        me: ServerNo,
        notes: N,
        workers: u32,
    ) -> Result<(ServerCell<N>, Vec<Seat>), (N, Fault)>
        requires server { me < MAX_SERVERS }
        requires some { 1 ≤ workers }
        requires few { workers ≤ MAX_SEATS }
        ensures opened { IfOk result (λ made. (made.0.opening.me ≡ me)
            × Says (N.note notes).bytes
            (record { boot = made.0.opening.boot; last_run = made.0.opening.last })
            × (made.0.history ≡ [])) }
        ensures seats { IfOk result (λ made. made.1.items ≡ new_seats me workers) }
        ensures refused { IfErr result (λ back. NotOpened (N.note notes) (N.note back.0) back.1) }
    {
        let Ok(seats) = new_seats(alloc, me, workers) else {
            return Err((notes, Fault::NoMemory));
        };
        let server = Server::restart(alloc, me, notes)?;
        let Status { boot, last_run, .. } = server.status();
        let cell = ServerCell {
            me,
            boot: boot - 1,
            last_run,
            cell: Cell {
                alloc,
                power: Power::On(server),
                history: History::new(alloc),
            },
            applied: [0; SEATS],
        };
        Ok((cell, seats))
    }

    /// Its number.
    pub fn me(&self) -> ServerNo
        ensures { result ≡ self.now.opening.me }
    {
        self.me
    }

    /// Whether it was opened over a note that says of no boot and no run.
    pub fn is_blank(&self) -> bool
        ensures { result ≡ is_blank self.now.opening }
    {
        self.boot == 0 && self.last_run.0 == 0
    }

    /// All that came to it, the oldest first.
    pub fn history(&self) -> &History
        ensures entries { result.now.items ≡ reverse self.now.history }
        ensures replay { (past : List FrameEntry) × IsReplay self.now past }
    {
        &self.cell.history
    }

    /// The server, where it is on: not off, and not down.
    pub fn server(&self) -> Option<&Server<N>>
        ensures on { IfSome result (λ server. (past : List FrameEntry) × IsReplay self.now past
            × StandsFor N.note server.now self.now.opening past
            × (is_up self.now.opening past ≡ true)) }
        ensures off { IfNone result ((past : List FrameEntry) × IsReplay self.now past
            × (is_up self.now.opening past ≡ false)) }
    {
        match self.cell.power.core() {
            Some(server) => Some(server),
            None => None,
        }
    }
}
