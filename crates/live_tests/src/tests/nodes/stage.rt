//! A client, a server of it, and the hub between them, each under its lock, as one thread uses them.

use super::frames::{JOURNAL, first_unlike_frame, first_unlike_line};
use super::rows::{Row, Said, Step};
use client_core::RequestKind;
use disk_model::{FaultNotes, MemNotes};
use engine::Ticket;
use fc_base::{
    Attempt, Blocks, CheckReport, Fault, JobNo, Key, MAX_TEXT, ReportEnd, ReportParts, RunNo, Seq,
    ServerNo,
};
use messages::{Act, Text};
use node_threads::{
    ClientCell, ClientCommand, ClientRequest, ClientTask, Hub, Node, Receipt, Report, Seat,
    ServerCell, ServerTask, Turn, deliver, post,
};
use server_core::WriteEnd;
use std::alloc::Global;

const WRITING: &[u8] = b"[a]\nrw=write\nbs=512\nsize=1k\niodepth=2\n";

const READING: &[u8] = b"[a]\nrw=read\nbs=512\nsize=1k\nverify_state_load=1\n";

/// The nodes, the hub between them, and the server's seats.
#[derive(Drop)]
pub struct Stage<'a> {
    alloc: Global,
    pub hub: &'a mut Hub,
    pub client: &'a mut Client,
    pub server: &'a mut Server,
    seats: &'a mut [Seat],
}

pub type Client = ClientCell<MemNotes>;

pub type Server = ServerCell<FaultNotes>;

/// A story: at which of its saves the server's notes fail, and what they leave; what is asked, and the
/// frames and the journal's entries that come of it.
#[derive(Clone, Copy)]
pub struct Story<'a> {
    pub failing: (u64, bool),
    pub rows: &'a [Row],
    pub frames: &'a [&'a str],
}

/// How many rows are answered so, and how many frames are these, from the first on; and how long the
/// histories are, and how many entries of the server's each of its two seats has.
#[derive(Clone, Copy, Debug, PartialEq, Eq)]
pub struct Outcome {
    pub rows: usize,
    pub frames: usize,
    pub lines: usize,
    pub histories: (usize, usize),
    pub turns: (u64, u64),
}

/// What becomes of a story that is told to new nodes; told anew where memory runs out once.
pub fn told(alloc: Global, story: Story) -> Option<Outcome> {
    match tell(alloc, story) {
        Ok(outcome) => Some(outcome),
        Err(_) => tell(alloc, story).ok(),
    }
}

fn tell(alloc: Global, story: Story) -> Result<Outcome, Fault> {
    match ClientCell::new(alloc, 1, MemNotes::new(Vec::new(alloc))) {
        Ok(mut client) => tell_server(alloc, &mut client, story),
        Err((_, fault)) => Err(fault),
    }
}

fn tell_server(alloc: Global, client: &mut Client, story: Story) -> Result<Outcome, Fault> {
    let notes = MemNotes::new(Vec::new(alloc));
    let notes = FaultNotes::new(notes, story.failing.0, story.failing.1);
    match ServerCell::new(alloc, ServerNo(0), notes, 2) {
        Ok((mut server, mut seats)) => Ok(tell_both(alloc, client, &mut server, &mut seats, story)),
        Err((_, fault)) => Err(fault),
    }
}

fn tell_both(
    alloc: Global,
    client: &mut Client,
    server: &mut Server,
    seats: &mut [Seat],
    story: Story,
) -> Outcome {
    let mut hub = Hub::new(alloc);
    let mut stage = Stage {
        alloc,
        hub: &mut hub,
        client,
        server,
        seats,
    };
    stage.outcome(story)
}

impl<'a> Stage<'a> {
    fn outcome(&mut self, story: Story) -> Outcome {
        let rows = self.first_unlike(story.rows).unwrap_or(story.rows.len());
        Outcome {
            rows,
            frames: first_unlike_frame(self.hub, story.frames).unwrap_or(story.frames.len()),
            lines: first_unlike_line(self.hub, &JOURNAL).unwrap_or(JOURNAL.len()),
            histories: (self.client.history().len(), self.server.history().len()),
            turns: (turns_of(self.server, 0), turns_of(self.server, 1)),
        }
    }

    /// The first row that is answered otherwise. A row for which memory runs out is asked once more.
    fn first_unlike(&mut self, rows: &[Row]) -> Option<usize> {
        for (i, (step, wanted)) in rows.iter().enumerate() {
            let mut answer = said(self.take(*step));
            if answer == Err(Fault::NoMemory.number()) {
                answer = said(self.take(*step));
            }
            if answer != *wanted {
                return Some(i);
            }
        }
        None
    }

    fn take(&mut self, step: Step) -> Result<Receipt, Fault> {
        match step {
            Step::Asks(kind) => self.request(kind),
            Step::Tick => post(self.hub, self.client, ClientCommand::Tick),
            Step::ToClient(position) => deliver(self.hub, self.client, position),
            Step::ToServer(position) => deliver(self.hub, self.server, position),
            Step::Checked(boot) => self.checked(boot),
            Step::CutClient => self.client.apply(ClientTask::Cut),
            Step::RestartClient => self.client.apply(ClientTask::Restart),
            Step::Issue(seat) => self.ask(seat, ServerTask::Issue(JobNo(0))),
            Step::Done(seat, seq) => self.ask(seat, done(seq)),
            Step::Cut(seat) => self.ask(seat, ServerTask::Cut),
            Step::Restart(seat) => self.ask(seat, ServerTask::Restart),
        }
    }

    /// The client is asked this of its first run.
    fn request(&mut self, kind: RequestKind) -> Result<Receipt, Fault> {
        let request = match kind {
            RequestKind::Begin => ClientRequest::Begin(text(self.alloc, WRITING)?),
            RequestKind::Verify => ClientRequest::Verify(RunNo(1), text(self.alloc, READING)?),
            RequestKind::Trigger => ClientRequest::Trigger(RunNo(1), Act::Cut),
            RequestKind::Stop => ClientRequest::Stop(RunNo(1)),
        };
        post(self.hub, self.client, ClientCommand::Request(request))
    }

    /// The check of the one job in this boot found nothing in its one block.
    fn checked(&mut self, boot: u64) -> Result<Receipt, Fault> {
        let parts = ReportParts {
            checked: 1,
            faults: 0,
            first: Blocks::new(),
            end: ReportEnd::Whole,
        };
        let Ok(report) = CheckReport::make(parts) else {
            return Err(Fault::OutOfLimits);
        };
        let report = Report {
            boot,
            attempt: Attempt(1),
            job: JobNo(0),
            report,
        };
        post(self.hub, self.server, report)
    }

    fn ask(&mut self, seat: usize, task: ServerTask) -> Result<Receipt, Fault> {
        match self.seats.get_mut(seat) {
            Some(seat) => self.server.apply(seat, task),
            None => Err(Fault::WrongSeat),
        }
    }
}

/// The text of these bytes, of which there are few.
fn text(alloc: Global, bytes: &[u8]) -> Result<Text, Fault> {
    if bytes.len() > MAX_TEXT {
        return Err(Fault::OutOfLimits);
    }
    Text::copied(alloc, bytes).or(Err(Fault::NoMemory))
}

/// A write of the first boot is done, which went to the block of its number.
fn done(seq: u32) -> ServerTask {
    let key = Key {
        run: RunNo(1),
        server: ServerNo(0),
        job: JobNo(0),
    };
    let ticket = Ticket {
        boot: 1,
        key,
        seq: Seq(u64::from(seq)),
        block: seq,
    };
    ServerTask::WriteDone(ticket, WriteEnd::Done)
}

/// How many entries of a node's history came from this seat, each with the next number, from 0 on.
fn turns_of<C: Node>(node: &C, seat: u32) -> u64 {
    let mut turns: u64 = 0;
    let history = node.history();
    for at in 0..history.len() {
        if history.at(at).as_entry().by
            == Some(Turn {
                seat,
                number: turns,
            })
        {
            turns = turns.saturating_add(1);
        }
    }
    turns
}

fn said(told: Result<Receipt, Fault>) -> Said {
    match told {
        Ok(told) => Ok((told.answer, told.act, told.first, told.sent)),
        Err(fault) => Err(fault.number()),
    }
}
