//! Nodes as filters: a server, the client or a mirror over a reader and a writer. What comes to it is read as
//! records, and what it saves, answers, orders and sends is written as records, in that order.
//!
//! ```text
//! let status = run_server(alloc, me, &mut reader, &mut writer)?;
//! let status = run_client(alloc, servers, Beginning::Alone, &mut reader, &mut writer)?;
//! let status = run_mirror(alloc, &mut reader, &mut writer)?;
//! ```
//!
//! Begin with `specs/Records.antt`, which has the bytes, and with `specs/NodeTells.antt`, which says how what a node
//! answers is spelled.
#![tactic(auto)]

mod asking;
mod beginning;
mod checking;
mod client_filter;
mod command;
mod ending;
mod kinds;
mod law;
mod mirror_filter;
mod names;
mod node_step;
mod note_buffer;
mod output;
mod reading;
mod record;
mod records_node;
mod running;
mod server_filter;
mod server_law;
mod telling;
mod writing;

pub use beginning::Beginning;
pub use client_filter::run_client;
pub use command::{Request, read_words};
pub use kinds::{InRecordKind, OutRecordKind};
pub use law::{cut_law, mirror_cut_law};
pub use mirror_filter::run_mirror;
pub use names::{BLOCK_NAME, BlockName};
pub use note_buffer::NoteBuffer;
pub use record::MAX_BODY;
pub use server_filter::run_server;
pub use server_law::{server_cut_law, server_loss_law};
pub use writing::want_memory;
