//! What is asked of a server from its seats.

ghost use Rattle.std.specs.Prelude.{◌≡◌, ◌≤◌, ◌<◌, ◌^◌, ◌++◌, ◌∷◌, [], List, length};
ghost use Rattle.server_core.specs.Hearing.{FrameEntry};
ghost use Rattle.cells.specs.ServerCells.{IsReplay};
ghost use Rattle.cells.specs.ServerCalls.{is_right, entry_of, Applies};

use super::ServerCell;
use super::power::perform;
use super::seat::Seat;
use super::task::ServerTask;
use crate::answer::{Receipt, Reply};
use crate::at_hub::{lacks_memory, told_at};
use crate::entry::Turn;
use crate::history::History;
use disk_model::Notes;
use fc_base::Fault;

impl<N: Notes + Drop> ServerCell<N> {
    /// Does what is asked from a seat. Each answer but two is entered in the history, as this seat's next.
    ///
    /// `WrongSeat`, the first: the seat is of another server, or the history hasn't just as many events of
    /// it as it has applied; and `NoMemory`: nothing changes. The others are entered: `NodeOff` of a server
    /// that isn't on, and `NodeOn` of a restart of one that is; the server's own of a write that ended; and
    /// of a restart `NumbersSpent`, `LoadFault` and `SaveFault`.
    // Inlined, so that a caller that asks for one thing alone makes no room for the others.
    #[inline(always)]
    pub fn apply(&mut self, seat: &mut Seat, task: ServerTask) -> Result<Receipt, Fault>
        ensures ends { Applies self.old seat.old task self.new seat.new result }
        ensures replay { (past : List FrameEntry) × IsReplay self.new past }
    {
        if !self.is_right(seat) {
            return Err(Fault::WrongSeat);
        }
        if self.cell.history.reserve().is_err() {
            return Err(Fault::NoMemory);
        }
        let (alloc, me) = (self.cell.alloc, self.me);
        let answer = perform(&mut self.cell.power, alloc, me, &task);
        if lacks_memory(&answer) {
            return Err(Fault::NoMemory);
        }
        enter(&mut self.cell.history, seat, &task, &answer);
        self.applied[seat.number() as usize] += 1;
        seat.advance(&answer);
        told_at(0, 0, &answer)
    }

    /// Whether the seat is of this server, which has just as many events of it as it has applied.
    #[inline(always)]
    pub fn is_right(&self, seat: &Seat) -> bool
        ensures { result ≡ is_right self.now seat.now }
    {
        seat.server() == self.me && seat.applied() == self.applied[seat.number() as usize]
    }
}

/// Enters what came from a seat and was answered so, as the seat's next.
#[inline(always)]
fn enter(history: &mut History, seat: &Seat, task: &ServerTask, answer: &Result<Reply, Fault>)
    requires { 1 ≤ history.old.room }
    ensures items { history.new.items
        ≡ history.old.items ++ entry_of seat.now task.now answer.now ∷ [] }
    ensures few { length history.new.items < 2 ^ 64 }
{
    let by = Turn {
        seat: seat.number(),
        number: seat.applied(),
    };
    match task {
        ServerTask::Issue(job) => history.push_issue(by, *job, answer),
        ServerTask::WriteDone(ticket, end) => history.push_end(by, ticket, *end, answer),
        ServerTask::Cut | ServerTask::Restart => history.push_turn(by, task.came(), answer),
    }
}
