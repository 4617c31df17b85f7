//! What every crate of fiocut speaks of: the numbers that name things, the limits, a job's settings
//! within them, the faults with their numbers, the report of a check, and which writes count.
//!
//! ```text
//! let job = JobRecord::make(JobParts { bs: 4096, blocks: 256, .. }).ok_or(Fault::OutOfLimits)?;
//! let counts = is_counted(&completions, job.window(), issued, Seq(7));
//! let mut marks = Marks::NONE;
//! marks.set(7);
//! println!(rt; "refused {} {}", fault.number(), fault)?;
//! ```
//!
//! Begin with `record`, then `counted`; `limits` has every limit, and `specs/Counted.antt` the rule
//! by which a verify state counts writes.
#![tactic(auto)]

mod bytes;
mod counted;
mod fault;
mod law;
mod limits;
mod marks;
mod numbers;
mod record;
mod report;

pub use bytes::{put_u8, put_u32, put_u64, split_u8, split_u32, split_u64};
pub use counted::is_counted;
pub use fault::{Fault, FaultSort};
pub use law::{examples, numbers_law};
pub use limits::{
    MAX_BLOCK_SIZE, MAX_BLOCKS, MAX_DEPTH, MAX_GENERATION, MAX_JOBS, MAX_LISTED, MAX_SEATS,
    MAX_SERVERS, MAX_TEXT, MAX_WINDOW, MAX_WORKERS, MAX_WRITES,
};
pub use marks::Marks;
pub use numbers::{Attempt, Generation, JobNo, Key, RunNo, Seq, ServerNo};
pub use record::{JobParts, JobRecord, Kind, Verify};
pub use report::{Blocks, CheckReport, ReportEnd, ReportParts};
