//! A server that writes a run, its files, and the client.

ghost use Rattle.std.specs.Prelude.{◌<◌};

use super::gates::{Holding, Lets, Watching};
use super::hands::{Ended, Hand};
use super::step::{Taken, taken_of};
use disk_model::{FaultDisk, MemDisk, MemNotes};
use fc_base::{Fault, JobNo, MAX_TEXT, RunNo, ServerNo};
use messages::{Act, Text};
use node_threads::{
    ClientCell, ClientCommand, ClientRequest, History, HistoryEntry, Hub, Node, NodeInput, Receipt,
    Seat, ServerCell, ServerTask, assemble,
};
use server_core::WriteEnd;
use std::alloc::Global;
use std::sync::{Mutex, Wait};
use std::thread::Threads;
use std::{slice, thread};

pub type Server = ServerCell<MemNotes>;

type Client = ClientCell<MemNotes>;

/// The number of a call that no disk comes to: none fails.
pub const NONE: u64 = u64::MAX;

/// How many workers a server has.
#[derive(Clone, Copy)]
pub enum Workers {
    One,
    Two,
}

/// A client, its one server with the seats and files of that and the gate of its workers, and the network
/// between them.
pub struct Site {
    alloc: Global,
    gate: Holding,
    hub: Hub,
    client: Client,
    cell: Mutex<Server>,
    seats: Vec<Seat>,
    files: Vec<Mutex<FaultDisk>>,
}

/// It is written by hand so that it is one function, which calls that of each field: where it is derived, the
/// proof of each function that drops a site goes through all that a site holds.
impl Drop for Site {
    fn drop(self) {
        let Site {
            alloc: _,
            gate: _,
            hub,
            client,
            cell,
            seats,
            files,
        } = self;
        drop(hub);
        drop(client);
        drop(cell);
        drop(seats);
        drop(files);
    }
}

impl Site {
    /// All are in their first boot, and there is a file for each of these calls, which fails there.
    pub fn new(
        alloc: Global,
        workers: Workers,
        failing: &[u64],
        lets: Lets,
    ) -> Result<Site, Fault> {
        let files = files(alloc, failing)?;
        let (cell, seats) = server(alloc, ServerNo(0), workers)?;
        let client = client(alloc)?;
        Ok(Site {
            alloc,
            gate: Holding::new(lets),
            hub: Hub::new(alloc),
            client,
            cell,
            seats,
            files,
        })
    }

    /// The client is asked for a run of these jobs.
    pub fn begin(&mut self, jobs: &[u8]) -> Result<Receipt, Fault> {
        let request = ClientRequest::Begin(text(self.alloc, jobs)?);
        self.client
            .post(&mut self.hub, ClientCommand::Request(request))
    }

    /// The client is asked for the trigger of run 1.
    pub fn trigger(&mut self) -> Result<Receipt, Fault> {
        let request = ClientRequest::Trigger(RunNo(1), Act::None);
        self.client
            .post(&mut self.hub, ClientCommand::Request(request))
    }

    /// A frame comes to the client.
    pub fn hear(&mut self, frame: u64) -> Result<Receipt, Fault> {
        self.client.deliver(&mut self.hub, frame)
    }

    /// A frame comes to the server.
    pub fn serve<R: Wait>(&mut self, rt: &R, frame: u64) -> Result<Receipt, Fault> {
        self.cell.lock(rt).deliver(&mut self.hub, frame)
    }

    /// The server loses its power.
    pub fn cut<R: Wait>(&mut self, rt: &R) -> Result<Receipt, Fault> {
        match self.seats.first_mut() {
            Some(seat) => self.cell.lock(rt).apply(seat, ServerTask::Cut),
            None => Err(Fault::WrongSeat),
        }
    }

    /// How one worker ends, and how much its seat has applied. The seat comes back.
    pub fn work<R: Wait>(&mut self, rt: &R) -> Result<(Ended, u64), Fault> {
        let seat = self.seats.pop();
        self.work_from(rt, Hand::new(seat))
    }

    /// The same of a worker with a seat of another server.
    pub fn stranger_works<R: Wait>(&mut self, rt: &R) -> Result<(Ended, u64), Fault> {
        let seat = stranger(self.alloc, ServerNo(1))?;
        self.work_from(rt, Hand::new(Some(seat)))
    }

    /// A gate that was told of a write before the server was, is none that a worker may have: then it has gone
    /// astray.
    fn work_from<R: Wait>(&mut self, rt: &R, hand: Hand) -> Result<(Ended, u64), Fault> {
        let mut hand = hand;
        let other = Mutex::new(self.seats.pop());
        let gate = Watching {
            holding: &self.gate,
            cell: &self.cell,
            other: &other,
        };
        hand.work(rt, self.alloc, &self.cell, &self.files, &gate);
        give_back(&mut self.seats, other.into_inner())?;
        let ended = end(&mut self.seats, &mut hand)?;
        if self.gate.was_told_early() {
            return Ok((Ended::Astray, 0));
        }
        Ok(ended)
    }

    /// How two workers end, each in a thread of its own. The seats come back.
    pub fn work_both<R: Threads + Wait + Sync>(&mut self, rt: &R) -> Result<[Ended; 2], Fault> {
        let mut hands = [Hand::new(self.seats.pop()), Hand::new(self.seats.pop())];
        let (alloc, cell, files, gate) = (self.alloc, &self.cell, &self.files, &self.gate);
        thread::for_each_mut(
            rt,
            &mut hands,
            2,
            &|_, hand| hand.work(rt, alloc, cell, files, gate),
        );
        end_both(&mut self.seats, &mut hands)
    }

    /// What was taken of a job of run 1, with the check of its file.
    pub fn taken<R: Wait>(&self, rt: &R, job: u32) -> Result<Taken, Fault> {
        match self.files.get(job as usize) {
            Some(file) => taken_of(
                self.alloc,
                &self.cell.lock(rt),
                JobNo(job),
                &mut file.lock(rt),
            ),
            None => Err(Fault::NoWrite),
        }
    }

    /// How many writes are done, as the server has heard.
    pub fn done_writes<R: Wait>(&self, rt: &R) -> usize {
        count_done(self.cell.lock(rt).history())
    }

    /// How many events there are, in one list of all that has happened.
    pub fn events<R: Wait>(&self, rt: &R) -> Result<usize, Fault> {
        let server = self.cell.lock(rt);
        let servers = slice::from_ref(&*server);
        match assemble(self.alloc, &self.hub, &self.client, servers, &self.seats) {
            Ok(assembled) => Ok(assembled.order.len()),
            Err(fault) => Err(fault.fault()),
        }
    }
}

/// How two workers have ended. The seats come back.
fn end_both(seats: &mut Vec<Seat>, hands: &mut [Hand; 2]) -> Result<[Ended; 2], Fault> {
    let (first, _) = end(seats, &mut hands[0])?;
    let (second, _) = end(seats, &mut hands[1])?;
    Ok([first, second])
}

/// How a worker has ended, and how much its seat has applied. The seat comes back.
fn end(seats: &mut Vec<Seat>, hand: &mut Hand) -> Result<(Ended, u64), Fault> {
    give_back(seats, hand.give_back())?;
    Ok((hand.ended?, hand.applied))
}

/// A seat comes back, where there is one.
fn give_back(seats: &mut Vec<Seat>, seat: Option<Seat>) -> Result<(), Fault> {
    match seat {
        Some(seat) => seats.push(seat).or(Err(Fault::NoMemory)),
        None => Ok(()),
    }
}

/// How many writes of this history are done.
fn count_done(history: &History) -> usize {
    let mut count: usize = 0;
    for at in 0..history.len() {
        if is_done(history.at(at).as_entry()) {
            count = count.saturating_add(1);
        }
    }
    count
}

fn is_done(entry: &HistoryEntry) -> bool {
    matches!(entry.came, NodeInput::WriteDone(_, WriteEnd::Done)) && entry.answer.is_ok()
}

/// A client of one server, over a blank note.
fn client(alloc: Global) -> Result<Client, Fault> {
    match ClientCell::new(alloc, 1, MemNotes::new(Vec::new(alloc))) {
        Ok(client) => Ok(client),
        Err((_, fault)) => Err(fault),
    }
}

/// A seat of a server that is no more.
fn stranger(alloc: Global, me: ServerNo) -> Result<Seat, Fault>
    requires { me < 8 }
{
    let (_cell, mut seats) = server(alloc, me, Workers::One)?;
    seats.pop().ok_or(Fault::WrongSeat)
}

/// A server in its first boot, under its lock, with its seats.
fn server(
    alloc: Global,
    me: ServerNo,
    workers: Workers,
) -> Result<(Mutex<Server>, Vec<Seat>), Fault>
    requires { me < 8 }
{
    let count = match workers {
        Workers::One => 1,
        Workers::Two => 2,
    };
    match ServerCell::new(alloc, me, MemNotes::new(Vec::new(alloc)), count) {
        Ok((server, seats)) => Ok((Mutex::new(server), seats)),
        Err((_, fault)) => Err(fault),
    }
}

/// A file for each of these calls.
fn files(alloc: Global, failing: &[u64]) -> Result<Vec<Mutex<FaultDisk>>, Fault> {
    let mut files = Vec::new(alloc);
    for call in failing {
        if files.push(Mutex::new(disk(alloc, *call))).is_err() {
            return Err(Fault::NoMemory);
        }
    }
    Ok(files)
}

/// A disk of the first boot, one of whose calls fails.
fn disk(alloc: Global, failing: u64) -> FaultDisk {
    let mut disk = MemDisk::new(alloc);
    disk.power_on(1);
    FaultDisk::new(disk, failing)
}

/// The text of these bytes, of which there are few.
fn text(alloc: Global, bytes: &[u8]) -> Result<Text, Fault> {
    if bytes.len() > MAX_TEXT {
        return Err(Fault::OutOfLimits);
    }
    Text::copied(alloc, bytes).or(Err(Fault::NoMemory))
}
