//! A client and two servers, with the hub between them, as one thread uses them.

use super::play::{Handed, Play, Step};
use super::players::{Cells, Clients, TWINS, two_clients};
use engine::Ticket;
use fc_base::{Fault, JobNo, Key, MAX_TEXT, RunNo, Seq, ServerNo};
use messages::{Frames, Node as Name, Text};
use node_threads::{
    AssembleFault, Assembled, ClientCommand, ClientRequest, ClientTask, Hub, Node, Receipt,
    ServerTask, assemble,
};
use server_core::WriteEnd;
use std::alloc::Global;
use std::slice;

const WRITING: &[u8] = b"[a]\nrw=write\nbs=512\nsize=1k\niodepth=2\n";

const LONGER: &[u8] = b"[a]\nrw=write\nbs=512\nsize=2k\niodepth=2\n";

/// What is assembled: the order that was wanted, or another; or what isn't alike.
#[derive(Clone, Copy)]
pub enum Shown {
    Order,
    Other,
    Unlike(u32, u64),
}

impl Shown {
    pub fn is_order(self) -> bool {
        matches!(self, Shown::Order)
    }

    /// Whether this node is unlike, at this place.
    pub fn is_unlike(self, node: u32, at: u64) -> bool {
        match self {
            Shown::Unlike(unlike, place) => unlike == node && place == at,
            _ => false,
        }
    }
}

/// The nodes, and the hubs.
struct Stage {
    alloc: Global,
    hub: Hub,
    elsewhere: Hub,
    clients: Clients,
    cells: Cells,
}

impl Drop for Stage {
    fn drop(self) {
        let Stage {
            alloc: _,
            hub,
            elsewhere,
            clients,
            cells,
        } = self;
        drop(hub);
        drop(elsewhere);
        drop(clients);
        drop(cells);
    }
}

/// What is assembled after a play; played anew where memory runs out once.
pub fn outcome_of(alloc: Global, play: &Play, order: &[(u32, u64)]) -> Shown {
    for _ in 0..2 {
        if let Ok(shown) = played(alloc, play, order) {
            return shown;
        }
    }
    Shown::Other
}

fn played(alloc: Global, play: &Play, order: &[(u32, u64)]) -> Result<Shown, Fault> {
    let mut stage = Stage::new(alloc, play)?;
    let shown = stage.play(play, order);
    drop(stage);
    shown
}

impl Stage {
    fn new(alloc: Global, play: &Play) -> Result<Stage, Fault> {
        let clients = two_clients(alloc, play.servers)?;
        match Cells::open(alloc, play) {
            Ok(cells) => Ok(Stage {
                alloc,
                hub: Hub::new(alloc),
                elsewhere: Hub::new(alloc),
                clients,
                cells,
            }),
            Err(fault) => {
                drop(clients);
                Err(fault)
            }
        }
    }

    /// What is assembled after the steps of a play.
    fn play(&mut self, play: &Play, order: &[(u32, u64)]) -> Result<Shown, Fault> {
        self.take_all(play.steps)?;
        self.hand_in(play.handed, order)
    }

    fn take_all(&mut self, steps: &[Step]) -> Result<(), Fault> {
        for step in steps {
            self.take_step(*step)?;
        }
        Ok(())
    }

    /// One step of a play. What the nodes answer is tested elsewhere: only want of memory ends a play.
    fn take_step(&mut self, step: Step) -> Result<(), Fault> {
        let answer = match step {
            Step::Begin => self.begin(),
            Step::Tick => self.clients.client.post(&mut self.hub, ClientCommand::Tick),
            Step::ToClient => self.to_client(),
            Step::ToServer(number) => self.to_server(number),
            Step::CutClient => self.clients.client.apply(ClientTask::Cut),
            Step::RestartClient => self.clients.client.apply(ClientTask::Restart),
            Step::Issue(number) => self.ask(number, ServerTask::Issue(JobNo(0))),
            Step::Done(number) => self.ask(number, done(number)),
            Step::Cut(number) => self.ask(number, ServerTask::Cut),
            Step::Restart(number) => self.ask(number, ServerTask::Restart),
            Step::Forged(node, at, frame) => return self.forge(node, at, frame),
            elsewhere => self.take_elsewhere(elsewhere),
        };
        match answer {
            Err(Fault::NoMemory) => Err(Fault::NoMemory),
            _ => Ok(()),
        }
    }

    /// One step at the hub elsewhere.
    fn take_elsewhere(&mut self, step: Step) -> Result<Receipt, Fault> {
        match step {
            Step::TickElsewhere => self
                .clients
                .client
                .post(&mut self.elsewhere, ClientCommand::Tick),
            Step::RivalBegins => self.rival_begins(LONGER),
            Step::RivalBeginsAlike => self.rival_begins(WRITING),
            Step::ToTwinElsewhere => self.to_twin_elsewhere(),
            Step::ToClientElsewhere(position) => {
                self.clients.client.deliver(&mut self.elsewhere, position)
            }
            _ => Err(Fault::NoFrame),
        }
    }

    fn begin(&mut self) -> Result<Receipt, Fault> {
        let request = begin(self.alloc, WRITING)?;
        self.clients.client.post(&mut self.hub, request)
    }

    fn rival_begins(&mut self, text: &[u8]) -> Result<Receipt, Fault> {
        let request = begin(self.alloc, text)?;
        self.clients.rival.post(&mut self.elsewhere, request)
    }

    fn to_client(&mut self) -> Result<Receipt, Fault> {
        match self.hub.pick(Name::Client, 0) {
            Some(position) => self.clients.client.deliver(&mut self.hub, position),
            None => Err(Fault::NoFrame),
        }
    }

    fn to_server(&mut self, number: u32) -> Result<Receipt, Fault> {
        let Some(server) = self.cells.servers.get_mut(number as usize) else {
            return Err(Fault::NoServer);
        };
        match self.hub.pick(Name::Server(ServerNo(number)), 0) {
            Some(position) => server.deliver(&mut self.hub, position),
            None => Err(Fault::NoFrame),
        }
    }

    fn to_twin_elsewhere(&mut self) -> Result<Receipt, Fault> {
        match self.cells.servers.get_mut(TWINS) {
            Some(server) => server.deliver(&mut self.elsewhere, 0),
            None => Err(Fault::NoServer),
        }
    }

    fn ask(&mut self, number: u32, task: ServerTask) -> Result<Receipt, Fault> {
        self.cells.apply(number, task)
    }

    fn forge(&mut self, node: u32, at: u64, frame: u64) -> Result<(), Fault> {
        if frame >= self.hub.len() as u64 || self.hub.reserve(0, 0).is_err() {
            return Err(Fault::NoMemory);
        }
        let node = if node == 8 {
            Name::Client
        } else {
            Name::Server(ServerNo(node))
        };
        self.hub
            .note(node, at, Some(frame), &Frames::new(self.alloc));
        Ok(())
    }

    fn hand_in(&self, handed: Handed, order: &[(u32, u64)]) -> Result<Shown, Fault> {
        let hub = if handed.elsewhere {
            &self.elsewhere
        } else {
            &self.hub
        };
        let (from, to) = handed.servers;
        let Some(servers) = self.cells.servers.get(from..to) else {
            return Err(Fault::NoServer);
        };
        let Some(seat) = self.cells.seats.get(handed.seat) else {
            return Err(Fault::NoServer);
        };
        show(
            assemble(
                self.alloc,
                hub,
                &self.clients.client,
                servers,
                slice::from_ref(seat),
            ),
            order,
        )
    }
}

/// What is assembled, against an order.
fn show(assembled: Result<Assembled, AssembleFault>, order: &[(u32, u64)]) -> Result<Shown, Fault> {
    match assembled {
        Ok(assembled) => {
            let shown = order_of(&assembled, order);
            drop(assembled);
            Ok(shown)
        }
        Err(AssembleFault::Unlike { node, at }) => Ok(Shown::Unlike(node.number(), at)),
        Err(AssembleFault::NoMemory) => Err(Fault::NoMemory),
    }
}

/// Whether the places are these, and no more.
fn order_of(assembled: &Assembled, order: &[(u32, u64)]) -> Shown {
    for (place, wanted) in assembled.order.iter().zip(order) {
        if (place.node.number(), place.at) != *wanted {
            return Shown::Other;
        }
    }
    if assembled.order.len() == order.len() {
        Shown::Order
    } else {
        Shown::Other
    }
}

fn begin(alloc: Global, bytes: &[u8]) -> Result<ClientCommand, Fault> {
    if bytes.len() > MAX_TEXT {
        return Err(Fault::OutOfLimits);
    }
    match Text::copied(alloc, bytes) {
        Ok(text) => Ok(ClientCommand::Request(ClientRequest::Begin(text))),
        Err(_) => Err(Fault::NoMemory),
    }
}

/// A write is done that was never issued.
fn done(number: u32) -> ServerTask {
    let key = Key {
        run: RunNo(1),
        server: ServerNo(number),
        job: JobNo(0),
    };
    let ticket = Ticket {
        boot: 1,
        key,
        seq: Seq(0),
        block: 0,
    };
    ServerTask::WriteDone(ticket, WriteEnd::Done)
}
