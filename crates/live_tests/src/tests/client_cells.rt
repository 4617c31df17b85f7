//! What no clause shows: that each call answers where memory is there, and what it refuses.

use disk_model::{FaultNotes, MemNotes};
use fc_base::{Fault, RunNo};
use messages::{Act, Text};
use node_threads::{
    Answer, ClientCell, ClientCommand, ClientRequest, ClientTask, History, HistoryEntry, Hub, Node,
    NodeInput, Receipt,
};
use std::alloc::{AllocGlobal, Global};
use std::test::Fail;

/// What is asked of a client.
#[derive(Clone, Copy)]
enum Step {
    /// A run of one job.
    Begin,
    /// That run 1 is stopped.
    Stop,
    /// What isn't answered yet is asked again.
    Tick,
    /// The frame at this place is delivered.
    Deliver(u64),
    /// It is cut off, or started again.
    Apply(ClientTask),
}

/// What is told of it.
#[derive(Clone, Copy)]
enum Said {
    /// It is done.
    Done,
    /// A frame was sent to each server, of which this is the first.
    Sent(u64),
    /// The run has begun, whose frames are the first.
    Begun,
    Refused(Fault),
}

/// What is asked, its answer, and whether the client is on then.
type Row = (Step, Said, bool);

/// What becomes of a client over a blank note.
struct Story {
    /// The number of the save that fails, and whether that leaves the new bytes.
    failing: u64,
    landed: bool,
    /// The number of the run that it begins.
    run: u64,
    /// How many events, lines of the journal and frames there are then.
    events: usize,
    lines: usize,
    frames: usize,
}

const CUT: Step = Step::Apply(ClientTask::Cut);

const RESTART: Step = Step::Apply(ClientTask::Restart);

static POWER: [Row; 6] = [
    (RESTART, Said::Refused(Fault::NodeOn), true),
    (CUT, Said::Done, false),
    (CUT, Said::Refused(Fault::NodeOff), false),
    (RESTART, Said::Done, true),
    (RESTART, Said::Refused(Fault::NodeOn), true),
    (CUT, Said::Done, false),
];

/// The save that fails never comes.
const CUTS: Story = Story {
    failing: u64::MAX,
    landed: false,
    run: 1,
    events: 6,
    lines: 0,
    frames: 0,
};

/// The first save fails, and the client is down until it is started again. Then it begins a run, and asks
/// again.
static SAVES: [Row; 11] = [
    (Step::Begin, Said::Refused(Fault::SaveFault), false),
    (Step::Stop, Said::Refused(Fault::NodeOff), false),
    (Step::Deliver(0), Said::Refused(Fault::NodeOff), false),
    (RESTART, Said::Done, true),
    (RESTART, Said::Refused(Fault::NodeOn), true),
    (Step::Deliver(0), Said::Refused(Fault::NoFrame), true),
    (Step::Begin, Said::Begun, true),
    (Step::Deliver(1), Said::Refused(Fault::Misdirected), true),
    (Step::Tick, Said::Sent(2), true),
    (CUT, Said::Done, false),
    (Step::Tick, Said::Refused(Fault::NodeOff), false),
];

const LANDED: Story = Story {
    failing: 0,
    landed: true,
    run: 2,
    events: 6,
    lines: 2,
    frames: 4,
};

const LOST: Story = Story {
    landed: false,
    run: 1,
    ..LANDED
};

impl Said {
    /// It in the cell's own words, where this is the run.
    fn told(self, run: u64) -> Result<Receipt, Fault> {
        let (answer, first, sent) = match self {
            Said::Done => (Answer::Plain, 0, 0),
            Said::Sent(first) => (Answer::Plain, first, 2),
            Said::Begun => (Answer::Run(RunNo(run)), 0, 2),
            Said::Refused(fault) => return Err(fault),
        };
        Ok(Receipt {
            answer,
            first,
            sent,
            act: Act::None,
        })
    }
}

/// A client of two servers, and its network.
struct Site {
    alloc: Global,
    hub: Hub,
    cell: ClientCell<FaultNotes>,
}

/// It is written by hand so that it is one function, which calls that of each field: where it is derived, the
/// proof of each function that drops a site goes through all that a site holds.
impl Drop for Site {
    fn drop(self) {
        let Site {
            alloc: _,
            hub,
            cell,
        } = self;
        drop(hub);
        drop(cell);
    }
}

/// A client over notes with these bytes, whose save number `failing` fails, and leaves the new bytes where
/// `landed`.
fn open(alloc: Global, bytes: &[u8], failing: u64, landed: bool) -> Result<Site, Fault> {
    let notes = notes_of(alloc, bytes)?;
    match ClientCell::new(alloc, 2, FaultNotes::new(notes, failing, landed)) {
        Ok(cell) => Ok(Site {
            alloc,
            hub: Hub::new(alloc),
            cell,
        }),
        Err((_, fault)) => Err(fault),
    }
}

fn notes_of(alloc: Global, bytes: &[u8]) -> Result<MemNotes, Fault> {
    match Vec::from_slice(alloc, bytes) {
        Ok(bytes) => Ok(MemNotes::new(bytes)),
        Err(_) => Err(Fault::NoMemory),
    }
}

impl Site {
    /// It goes through this. The first row that isn't so; the number of rows, if what is left isn't.
    fn lives(&mut self, story: &Story, rows: &[Row]) -> Result<Option<usize>, Fault> {
        for (i, (step, said, is_on)) in rows.iter().enumerate() {
            let is_told = self.answers(*step, said.told(story.run))?;
            if !is_told || self.cell.client().is_some() != *is_on {
                return Ok(Some(i));
            }
        }
        if self.has_left(story) {
            Ok(None)
        } else {
            Ok(Some(rows.len()))
        }
    }

    /// Whether there are as many events, lines and frames.
    fn has_left(&self, story: &Story) -> bool {
        self.cell.servers() == 2
            && self.cell.history().len() == story.events
            && self.hub.journal().len() == story.lines
            && self.hub.len() == story.frames
    }

    /// Whether it answers this step so, and enters it, if it is a task; or memory ran out.
    fn answers(&mut self, step: Step, wanted: Result<Receipt, Fault>) -> Result<bool, Fault> {
        let entries = self.cell.history().len();
        match self.step(step) {
            Err(Fault::NoMemory) => Err(Fault::NoMemory),
            told => Ok(told == wanted && is_entered(step, self.cell.history(), entries)),
        }
    }

    /// What is told of this step.
    fn step(&mut self, step: Step) -> Result<Receipt, Fault> {
        let command = match step {
            Step::Apply(task) => return self.cell.apply(task),
            Step::Deliver(position) => return self.cell.deliver(&mut self.hub, position),
            Step::Begin => ClientCommand::Request(begin(self.alloc)?),
            Step::Stop => ClientCommand::Request(ClientRequest::Stop(RunNo(1))),
            Step::Tick => ClientCommand::Tick,
        };
        self.cell.post(&mut self.hub, command)
    }
}

fn begin(alloc: Global) -> Result<ClientRequest, Fault> {
    match Text::copied(alloc, b"[a]") {
        Ok(text) => Ok(ClientRequest::Begin(text)),
        Err(_) => Err(Fault::NoMemory),
    }
}

/// If the step is a task, it is the one entry behind so many.
fn is_entered(step: Step, history: &History, entries: usize) -> bool {
    match (step, history.get(entries)) {
        (Step::Apply(task), Some(entry)) => {
            history.len() == entries.saturating_add(1) && is_of(entry.as_entry(), task)
        }
        (Step::Apply(_), None) => false,
        _ => true,
    }
}

/// The entry is of this task, which no seat asked and which sent nothing.
fn is_of(entry: &HistoryEntry, task: ClientTask) -> bool {
    let came = match task {
        ClientTask::Cut => matches!(entry.came, NodeInput::Cut),
        ClientTask::Restart => matches!(entry.came, NodeInput::Restart),
    };
    came && entry.by.is_none() && entry.sent.len() == 0
}

/// A new client goes through this.
fn tell(alloc: Global, story: &Story, rows: &[Row]) -> Result<Option<usize>, Fault> {
    let mut site = open(alloc, &[], story.failing, story.landed)?;
    site.lives(story, rows)
}

/// The same, told anew where memory runs out once. It fails by the first row that isn't so.
fn goes(alloc: Global, story: &Story, rows: &[Row]) -> Result<(), Fail> {
    let unlike = match tell(alloc, story, rows) {
        Err(Fault::NoMemory) => tell(alloc, story, rows),
        unlike => unlike,
    };
    match unlike {
        Ok(None) => Ok(()),
        Ok(Some(row)) => Err(Fail::new(row)),
        Err(fault) => Err(Fail::new(fault)),
    }
}

#[test]
fn cuts_and_restarts(rt: HostRuntime) -> Result<(), Fail> {
    goes(rt.alloc(), &CUTS, &POWER)
}

#[test]
fn saves_that_fail(rt: HostRuntime) -> Result<(), Fail> {
    goes(rt.alloc(), &LANDED, &SAVES)?;
    goes(rt.alloc(), &LOST, &SAVES)
}

/// Why a client isn't opened over bytes that are no note.
fn refusal(alloc: Global) -> Option<Fault> {
    open(alloc, b"FCC3", u64::MAX, false).err()
}

#[test]
fn what_is_no_note(rt: HostRuntime) {
    let mut fault = refusal(rt.alloc());
    if fault == Some(Fault::NoMemory) {
        fault = refusal(rt.alloc());
    }
    assert!(rt; fault == Some(Fault::BadNote));
}
