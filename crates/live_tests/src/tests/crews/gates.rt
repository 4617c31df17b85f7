//! Gates that hold writes back, and one that looks whether the server knows what it is told itself.

use super::site::Server;
use engine::Ticket;
use fc_base::Seq;
use node_threads::{Gate, History, HistoryEntry, NodeInput, OpenGate, Seat, ServerTask};
use server_core::WriteEnd;
use std::sync::Mutex;
use std::sync::atomic::{AtomicBool, Ordering};

/// Which writes a gate lets through.
#[derive(Clone, Copy, PartialEq, Eq)]
pub enum Lets {
    /// All, as the open gate does.
    All,
    /// Those below this number.
    Below(u64),
    /// Write 0 once write 1 is done, and the others.
    Crosswise,
    /// All; but another worker tells the server of each that it is done, before it is carried out.
    ToldBefore,
}

/// A gate that holds the other writes back.
#[derive(Drop)]
pub struct Holding {
    lets: Lets,
    second: AtomicBool,
    early: AtomicBool,
}

impl Holding {
    pub fn new(lets: Lets) -> Holding {
        Holding {
            lets,
            second: AtomicBool::new(false),
            early: AtomicBool::new(false),
        }
    }

    /// Whether it was told of a write of which the server wasn't told yet.
    pub fn was_told_early(&self) -> bool {
        self.early.load(Ordering::SeqCst)
    }
}

impl Gate for Holding {
    fn may_write(&self, ticket: &Ticket) -> bool {
        match self.lets {
            Lets::All | Lets::ToldBefore => OpenGate.may_write(ticket),
            Lets::Below(number) => ticket.seq.0 < number,
            Lets::Crosswise => ticket.seq != Seq(0) || self.second.load(Ordering::SeqCst),
        }
    }

    fn written(&self, ticket: &Ticket) {
        if ticket.seq == Seq(1) {
            self.second.store(true, Ordering::SeqCst);
        }
    }
}

/// The same gate at a server where one worker works, whose lock is free whenever the gate is asked or told; and
/// the seat of another worker, where there is one.
#[derive(Drop)]
pub struct Watching<'a> {
    pub holding: &'a Holding,
    pub cell: &'a Mutex<Server>,
    pub other: &'a Mutex<Option<Seat>>,
}

impl Watching<'_> {
    /// Whether the server knows how this write has ended, and its lock is free.
    fn is_known(&self, ticket: &Ticket) -> bool {
        match self.cell.try_lock() {
            Some(server) => has_end(server.history(), ticket),
            None => false,
        }
    }

    /// The other worker tells the server that this write is done.
    fn tell(&self, ticket: &Ticket) {
        if let Some(mut server) = self.cell.try_lock() {
            if let Some(mut other) = self.other.try_lock() {
                tell_from(&mut server, &mut other, ticket);
            }
        }
    }
}

impl Gate for Watching<'_> {
    fn may_write(&self, ticket: &Ticket) -> bool {
        if self.holding.lets == Lets::ToldBefore {
            self.tell(ticket);
        }
        self.holding.may_write(ticket)
    }

    fn written(&self, ticket: &Ticket) {
        if !self.is_known(ticket) {
            self.holding.early.store(true, Ordering::SeqCst);
        }
        self.holding.written(ticket);
    }
}

fn tell_from(server: &mut Server, seat: &mut Option<Seat>, ticket: &Ticket) {
    if let Some(seat) = seat {
        let _ = server.apply(seat, ServerTask::WriteDone(*ticket, WriteEnd::Done));
    }
}

/// Whether the history has the end of this write.
fn has_end(history: &History, ticket: &Ticket) -> bool {
    for at in 0..history.len() {
        if is_end(history.at(at).as_entry(), ticket) {
            return true;
        }
    }
    false
}

fn is_end(entry: &HistoryEntry, ticket: &Ticket) -> bool {
    match &entry.came {
        NodeInput::WriteDone(ended, _) => ended == ticket,
        _ => false,
    }
}
