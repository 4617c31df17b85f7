//! A server and the client, each under its lock, with the history of all that came to it: what it answered
//! and sent, and the rules by which that history is replayed.
//!
//! ```text
//! let mut client = ClientCell::new(alloc, servers, notes)?;
//! let told = client.post(&mut hub, ClientCommand::Request(ClientRequest::Begin(text)))?;
//! let told = client.deliver(&mut hub, position)?;    // as of any `Node`
//! let told = client.apply(ClientTask::Cut)?;
//!
//! let (mut server, seats) = ServerCell::new(alloc, me, notes, workers)?;
//! let told = server.apply(&mut seat, ServerTask::Issue(job))?;
//! let told = server.apply(&mut seat, ServerTask::WriteDone(ticket, WriteEnd::Done))?;
//!
//! if let Some(entry) = server.history().get(0) {
//!     // what came first, and was answered so
//! }
//! ```
//!
//! Begin with `server_cell`, and with `cell` for what both of them do; in `specs/`, `ServerCells` and
//! `ClientCells` say what a cell shows, `Replay` what a history makes, and `Calls` what the calls of a node
//! do.
#![tactic(auto)]

mod answer;
mod at_hub;
mod cell;
mod cell_core;
mod client_cell;
mod compact;
mod entered;
mod entry;
mod history;
mod input;
mod node_cell;
mod server_cell;

pub use answer::{Answer, Receipt, Reply};
pub use at_hub::is_left_out;
pub use cell::Node;
pub use client_cell::{ClientCell, ClientCommand, ClientRequest, ClientTask};
pub use entry::{HistoryEntry, Turn};
pub use history::{History, LentEntry};
pub use input::{FrameBytes, NodeInput};
pub use server_cell::{Report, Seat, ServerCell, ServerTask};
