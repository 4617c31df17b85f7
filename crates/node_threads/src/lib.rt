//! Running nodes: the crate to import for whoever runs a client and its servers by threads. The network,
//! each server and the client stand under locks of their own; whatever threads do with them, each node's
//! state is the replay of the history that it keeps, and the hub's journal says who took and sent which
//! frame.
//!
//! ```text
//! let mut hub = Hub::new(alloc);
//! let mut client = ClientCell::new(alloc, 1, notes)?;
//! let (mut server, mut seats) = ServerCell::new(alloc, ServerNo(0), notes, workers)?;
//! let told = post(&mut hub, &mut client, ClientCommand::Request(ClientRequest::Begin(text)))?;
//! if let Some(position) = pick(&hub, server.number(), word) {
//!     deliver(&mut hub, &mut server, position)?;
//! }
//! let told = server.apply(&mut seats[0], ServerTask::Issue(job))?;
//!
//! let ends = run_fleet(rt, alloc, 2, 4, writing, reading, &mut trigger, &OpenGate)?;
//! ```
//!
//! `run_worker`, `run_post` and `check_jobs` are the work of a thread each. `run_fleet` is all of it, over
//! disks in memory, from the text of a run to the reports of its checks; the threads that it has and what
//! they do are in `fleet_threads`. `assemble` makes one list of events of what threads have left.
#![tactic(auto)]

mod asked;
mod calls;
mod ends;
mod fleet;
mod left;

pub use assembly::{AssembleFault, Assembled, Place, assemble};
pub use calls::{deliver, pick, post};
pub use cells::{
    Answer, ClientCell, ClientCommand, ClientRequest, ClientTask, FrameBytes, History,
    HistoryEntry, LentEntry, Node, NodeInput, Receipt, Reply, Report, Seat, ServerCell, ServerTask,
    Turn,
};
pub use ends::CheckEnd;
pub use fleet::{run_and_leave, run_fleet};
pub use fleet_threads::{
    CheckTask, FleetFault, Gate, OpenGate, TURNS, Trigger, check_jobs, run_post, run_worker,
};
pub use left::FleetLeft;
pub use messages::{Hub, Line};
