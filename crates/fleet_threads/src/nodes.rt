//! The nodes of a fleet.

ghost use Rattle.std.specs.Prelude.{◌≡◌, ◌<◌, ◌≤◌, ◌+◌, ◌++◌, ◌∷◌, [], length, IfOk, OnOk};

use crate::crew::WorkerSeat;
use crate::fault::FleetFault;
use cells::{ClientCell, Seat, ServerCell};
use disk_model::{MemDisk, MemNotes};
use fc_base::{Fault, MAX_JOBS, MAX_SERVERS, MAX_WORKERS, ServerNo};
use messages::Hub;
use std::alloc::Global;
use std::sync::Mutex;

/// The client, with its notes in memory.
pub type Client = ClientCell<MemNotes>;

/// A server, with its notes in memory.
pub type Server = ServerCell<MemNotes>;

/// The nodes of a fleet and the network between them, each under its lock, and the files of each server,
/// each under a lock of its own.
#[derive(Drop)]
pub struct Nodes {
    pub hub: Mutex<Hub>,
    pub client: Mutex<Client>,
    pub servers: Vec<Mutex<Server>>,
    pub files: Vec<Vec<Mutex<MemDisk>>>,
}

/// Nodes that have just been opened, with their seats: one of each server for the post, and one in the
/// hand of each worker.
#[derive(Drop)]
pub struct OpenFleet {
    pub nodes: Nodes,
    pub posts: Vec<Seat>,
    pub hands: Vec<WorkerSeat>,
}

/// A client and so many servers, of so many workers each, over blank notes and blank files: 1 to 8 servers,
/// 1 to 16 workers. `NoMemory` is want of memory.
pub fn open(alloc: Global, servers: u32, workers: u32) -> Result<OpenFleet, FleetFault>
    requires some { 1 ≤ servers }
    requires few { servers ≤ MAX_SERVERS }
    requires crew { workers ≤ MAX_WORKERS }
    ensures servers { IfOk result (λ opened. length opened.nodes.servers.items ≡ servers) }
    ensures files { IfOk result (λ opened. length opened.nodes.files.items ≡ servers) }
    ensures posts { IfOk result (λ opened. length opened.posts.items ≡ servers) }
{
    let mut opened = OpenFleet::new(alloc, open_client(alloc, servers)?);
    for number in 0..servers {
        opened.add_server(alloc, number, workers)?;
    }
    Ok(opened)
}

impl OpenFleet {
    /// A client without servers.
    fn new(alloc: Global, client: Client) -> OpenFleet
        ensures servers { length result.nodes.servers.items ≡ 0 }
        ensures files { length result.nodes.files.items ≡ 0 }
        ensures posts { length result.posts.items ≡ 0 }
    {
        let nodes = Nodes {
            hub: Mutex::new(Hub::new(alloc)),
            client: Mutex::new(client),
            servers: Vec::new(alloc),
            files: Vec::new(alloc),
        };
        OpenFleet {
            nodes,
            posts: Vec::new(alloc),
            hands: Vec::new(alloc),
        }
    }

    /// Opens one server more, of this number.
    fn add_server(&mut self, alloc: Global, number: u32, workers: u32) -> Result<(), FleetFault>
        requires server { number < MAX_SERVERS }
        requires crew { workers ≤ MAX_WORKERS }
        ensures servers { OnOk result
            (length self.new.nodes.servers.items ≡ length self.old.nodes.servers.items + 1) }
        ensures files { OnOk result
            (length self.new.nodes.files.items ≡ length self.old.nodes.files.items + 1) }
        ensures posts { OnOk result
            (length self.new.posts.items ≡ length self.old.posts.items + 1) }
    {
        let (cell, seats) = open_server(alloc, number, workers)?;
        let boot = boot_of(&cell);
        add(&mut self.nodes.servers, Mutex::new(cell))?;
        deal(number as usize, seats, &mut self.posts, &mut self.hands)?;
        add_files(alloc, boot?, &mut self.nodes.files)?;
        Ok(())
    }
}

/// A client of so many servers, over a blank note.
fn open_client(alloc: Global, servers: u32) -> Result<Client, Fault>
    requires some { 1 ≤ servers }
    requires few { servers ≤ MAX_SERVERS }
{
    match ClientCell::new(alloc, servers, MemNotes::new(Vec::new(alloc))) {
        Ok(client) => Ok(client),
        Err((_, fault)) => Err(fault),
    }
}

/// A server over a blank note, with its seats: one for each worker, and the last for the post.
fn open_server(alloc: Global, number: u32, workers: u32) -> Result<(Server, Vec<Seat>), Fault>
    requires server { number < MAX_SERVERS }
    requires crew { workers ≤ MAX_WORKERS }
{
    let notes = MemNotes::new(Vec::new(alloc));
    match ServerCell::new(alloc, ServerNo(number), notes, workers + 1) {
        Ok(opened) => Ok(opened),
        Err((_, fault)) => Err(fault),
    }
}

/// The boot of a server that is on.
fn boot_of(server: &Server) -> Result<u64, FleetFault> {
    match server.server() {
        Some(server) => Ok(server.status().boot),
        None => Err(FleetFault::NodeOff),
    }
}

/// Adds the files of a server, which are on in this boot.
fn add_files(alloc: Global, boot: u64, files: &mut Vec<Vec<Mutex<MemDisk>>>) -> Result<(), Fault>
    ensures { OnOk result (length files.new.items ≡ length files.old.items + 1) }
{
    let more = blank_files(alloc, boot)?;
    add(files, more)
}

/// A file for each job that a run can have, on which nothing was written, and which is on in this boot.
fn blank_files(alloc: Global, boot: u64) -> Result<Vec<Mutex<MemDisk>>, Fault> {
    let mut files = Vec::new(alloc);
    for _ in 0..MAX_JOBS {
        let mut disk = MemDisk::new(alloc);
        disk.power_on(boot);
        add(&mut files, Mutex::new(disk))?;
    }
    Ok(files)
}

/// Puts the seats of a server where they belong: the last to those of the post, and each other into the
/// hand of a worker.
fn deal(
    server: usize,
    mut seats: Vec<Seat>,
    posts: &mut Vec<Seat>,
    hands: &mut Vec<WorkerSeat>,
) -> Result<(), FleetFault>
    ensures { OnOk result (length posts.new.items ≡ length posts.old.items + 1) }
{
    let Some(post) = seats.pop() else {
        return Err(FleetFault::NoServer);
    };
    add(posts, post)?;
    for seat in seats {
        add(hands, WorkerSeat::new(server, seat))?;
    }
    Ok(())
}

/// Adds an item to a list. `NoMemory`: there was no room, and the list is as before.
pub fn add<T: Drop>(list: &mut Vec<T>, item: T) -> Result<(), Fault>
    ensures { OnOk result (list.new.items ≡ list.old.items ++ item ∷ []) }
{
    match list.push(item) {
        Ok(()) => Ok(()),
        Err(_) => Err(Fault::NoMemory),
    }
}
