//! Scripts of worlds: what they ask for, what comes of it, and what they print.
//!
//! ```text
//! let status = run_script(alloc, &mut reader, &mut writer)?;
//! let event = event_of(alloc, &command, text)?;         // one command, for a world of one's own
//! ```
//!
//! Begin with `running`; `specs/Script.antt` says what the lines of a script come to, `specs/Table.antt`
//! which commands there are.
#![tactic(auto)]

mod arguments;
mod command;
mod happening;
mod line;
mod order;
mod orders;
mod output;
mod running;
mod script_fault;
mod table;
mod told;
mod words;

pub use command::{Command, Saving};
pub use happening::event_of;
pub use line::ScriptLine;
pub use running::{MAX_SCRIPT, run_script};
pub use script_fault::ScriptFault;
pub use table::line_of;
