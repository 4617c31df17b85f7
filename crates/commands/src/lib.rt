//! What fiocut's commands are, and what they do, over readers and writers that are handed in: `jobs` prints the jobs of a job
//! file of fio, `world` runs a script of events, and `live` has threads run a writing and a reading text, and prints the
//! reports of their checks.
//!
//! ```text
//! match read_words(alloc, words) {
//!     Some(Request::Jobs) => run_jobs(alloc, &mut reader, &mut writer),
//!     Some(Request::World) => run_world(alloc, &mut reader, &mut writer),
//!     Some(Request::Live { size, path }) => {
//!         let mut trigger = FileTrigger { files, path };
//!         run_live(rt, alloc, size, &mut trigger, &mut reader, &mut writer)
//!     }
//!     None => program_io::refuse_words(&mut writer),
//! }
//! ```
//!
//! Each answers the exit status, or the error of a write. Begin with `jobs`, `world` and `live`, and with `specs/Answer.antt`
//! and `specs/Live.antt`.
#![tactic(auto)]

mod command;
mod ends;
mod file_trigger;
mod jobs;
mod limits;
mod lines;
mod live;
mod texts;
mod world;

pub use command::{FleetSize, Request, read_words};
pub use file_trigger::FileTrigger;
pub use jobs::run_jobs;
pub use limits::limits_are_as_documented;
pub use live::{MAX_INPUT, run_live};
pub use world::{refuse_script, run_in_blocks, run_world};
