//! Job files of fio, as far as fiocut's profile takes them: a text becomes a set of jobs, or the
//! first of its faults.
//!
//! ```text
//! match parse(alloc, text) {
//!     Ok(set) => for job in set.jobs.as_slice() { .. job.rec .. },
//!     Err(fault) => println!(rt; "refused {} {:?}", fault.fault(), fault.line_or_job())?,
//! }
//! ```
//!
//! Begin with `parser` and `specs/JobSet.antt`; the options are rows in `option` and `settings`.
#![tactic(auto)]

mod bytes;
mod draft;
mod fault;
mod job;
mod law;
mod line;
mod number;
mod option;
mod parser;
mod reader;
mod settings;
mod text;
mod value;

pub use fault::JobFault;
pub use job::{Job, JobSet, Jobs, LineNote, LineNotes, Phase};
pub use law::{examples, jobs_are_within_limits, jobs_fit};
pub use parser::parse;
pub use text::PrintableText;
