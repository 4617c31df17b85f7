//! Gates and triggers of fleets.

use engine::Ticket;
use node_threads::{Gate, Trigger};
use std::sync::atomic::{AtomicBool, Ordering};

/// A write: its server and its number.
pub type Write = (u32, u64);

/// A gate that lets the first write of each pair through once the second was written, and all others at
/// once. The pairs are of the writes 0 and 1 of the servers 0 and 1.
#[derive(Drop)]
pub struct Behind {
    pairs: &'static [(Write, Write)],
    written: [AtomicBool; 4],
}

impl Behind {
    /// Nothing was written yet.
    pub fn new(pairs: &'static [(Write, Write)]) -> Behind {
        Behind {
            pairs,
            written: [
                AtomicBool::new(false),
                AtomicBool::new(false),
                AtomicBool::new(false),
                AtomicBool::new(false),
            ],
        }
    }

    fn was_written(&self, write: Write) -> bool {
        match self.written.get(place_of(write)) {
            Some(flag) => flag.load(Ordering::SeqCst),
            None => false,
        }
    }
}

/// The place of a write's flag; that of no flag where the write is none of the four.
fn place_of(write: Write) -> usize {
    match write {
        (0, 0) => 0,
        (0, 1) => 1,
        (1, 0) => 2,
        (1, 1) => 3,
        _ => 4,
    }
}

/// The write of a ticket.
fn write_of(ticket: &Ticket) -> Write {
    (ticket.key.server.0, ticket.seq.0)
}

impl Gate for Behind {
    fn may_write(&self, ticket: &Ticket) -> bool {
        let write = write_of(ticket);
        for (behind, before) in self.pairs {
            if *behind == write && !self.was_written(*before) {
                return false;
            }
        }
        true
    }

    fn written(&self, ticket: &Ticket) {
        if let Some(flag) = self.written.get(place_of(write_of(ticket))) {
            flag.store(true, Ordering::SeqCst);
        }
    }
}

/// A trigger that is pulled from the start, or never.
#[derive(Clone, Copy)]
pub struct Always(pub bool);

impl Trigger for Always {
    fn pulled(&mut self) -> bool {
        self.0
    }
}
