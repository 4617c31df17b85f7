//! The nodes of a play, which one thread opens and asks.

use super::play::Play;
use disk_model::{FaultNotes, MemNotes};
use fc_base::{Fault, ServerNo};
use node_threads::{ClientCell, Receipt, Seat, ServerCell, ServerTask};
use server_core::Server as Core;
use std::alloc::Global;

type Client = ClientCell<FaultNotes>;

type Server = ServerCell<FaultNotes>;

/// The place of the first twin among the servers.
pub const TWINS: usize = 2;

/// The two servers that play, and behind them their twins, which do nothing but elsewhere; and the one seat
/// of each.
pub struct Cells {
    pub servers: Vec<Server>,
    pub seats: Vec<Seat>,
}

/// Each drop by hand is one function, which calls that of each field: where it is derived, the proof of each
/// function that drops a node goes through all that it holds.
impl Drop for Cells {
    fn drop(self) {
        let Cells { servers, seats } = self;
        drop(servers);
        drop(seats);
    }
}

impl Cells {
    /// All four, of which the first that plays has the notes of the play.
    pub fn open(alloc: Global, play: &Play) -> Result<Cells, Fault> {
        let mut cells = Cells {
            servers: Vec::new(alloc),
            seats: Vec::new(alloc),
        };
        cells.open_all(alloc, play)?;
        Ok(cells)
    }

    fn open_all(&mut self, alloc: Global, play: &Play) -> Result<(), Fault> {
        self.open_one(alloc, 0, notes_of(alloc, play)?)?;
        for place in 1..4 {
            self.open_one(alloc, place % 2, blank(alloc))?;
        }
        Ok(())
    }

    fn open_one(&mut self, alloc: Global, number: u32, notes: FaultNotes) -> Result<(), Fault> {
        if number >= 8 {
            return Err(Fault::NoServer);
        }
        match ServerCell::new(alloc, ServerNo(number), notes, 1) {
            Ok((server, seats)) => self.add(server, seats),
            Err((notes, fault)) => {
                drop(notes);
                Err(fault)
            }
        }
    }

    /// Adds a server and its one seat.
    fn add(&mut self, server: Server, seats: Vec<Seat>) -> Result<(), Fault> {
        let has_server = push(&mut self.servers, server);
        let has_seat = push_first(&mut self.seats, seats);
        has_server.and(has_seat)
    }

    /// What a server is asked from its seat.
    pub fn apply(&mut self, number: u32, task: ServerTask) -> Result<Receipt, Fault> {
        let place = number as usize;
        let Some(server) = self.servers.get_mut(place) else {
            return Err(Fault::NoServer);
        };
        match self.seats.get_mut(place) {
            Some(seat) => server.apply(seat, task),
            None => Err(Fault::NoServer),
        }
    }
}

/// Adds the first of these seats.
fn push_first(list: &mut Vec<Seat>, seats: Vec<Seat>) -> Result<(), Fault> {
    let mut seats = seats;
    let first = seats.pop();
    drop(seats);
    match first {
        Some(seat) => push(list, seat),
        None => Err(Fault::WrongSeat),
    }
}

fn push<T: Drop>(list: &mut Vec<T>, item: T) -> Result<(), Fault> {
    match list.push(item) {
        Ok(()) => Ok(()),
        Err(_) => Err(Fault::NoMemory),
    }
}

/// A client and its rival, which begins elsewhere.
pub struct Clients {
    pub client: Client,
    pub rival: Client,
}

impl Drop for Clients {
    fn drop(self) {
        let Clients { client, rival } = self;
        drop(client);
        drop(rival);
    }
}

/// Two clients, over blank notes.
pub fn two_clients(alloc: Global, servers: u32) -> Result<Clients, Fault> {
    let client = client_of(alloc, servers)?;
    match client_of(alloc, servers) {
        Ok(rival) => Ok(Clients { client, rival }),
        Err(fault) => {
            drop(client);
            Err(fault)
        }
    }
}

/// A client over a blank note.
fn client_of(alloc: Global, servers: u32) -> Result<Client, Fault> {
    if servers == 0 || servers > 8 {
        return Err(Fault::NoServer);
    }
    match ClientCell::new(alloc, servers, blank(alloc)) {
        Ok(cell) => Ok(cell),
        Err((notes, fault)) => {
            drop(notes);
            Err(fault)
        }
    }
}

/// Blank notes that don't fail.
fn blank(alloc: Global) -> FaultNotes {
    FaultNotes::new(MemNotes::new(Vec::new(alloc)), u64::MAX, false)
}

/// Notes that fail as the play has it, after a server was opened over them if they were used.
fn notes_of(alloc: Global, play: &Play) -> Result<FaultNotes, Fault> {
    let (at, landed) = play.failing;
    let notes = FaultNotes::new(MemNotes::new(Vec::new(alloc)), at, landed);
    if play.is_used {
        used(alloc, notes)
    } else {
        Ok(notes)
    }
}

fn used(alloc: Global, notes: FaultNotes) -> Result<FaultNotes, Fault> {
    match Core::restart(alloc, ServerNo(0), notes) {
        Ok(server) => Ok(server.off()),
        Err((notes, fault)) => {
            drop(notes);
            Err(fault)
        }
    }
}
