//! The check after a restart: which blocks of a file hold neither their last completed write nor
//! one that was in flight (fio's manual, "Verification and triggers").
//!
//! ```text
//! let report = check_disk(alloc, &rec, key, Some(&state), false, &mut disk)?;
//! println!(rt; "{} of {} blocks are faulty", report.faults(), report.checked())?;
//! ```
//!
//! Where the blocks come from elsewhere, `Recheck` takes them one by one: `wants`, `feed`,
//! `finish`. Begin with `whole_disk`, and `specs/Faults.antt`, which says what a fault is.
#![tactic(auto)]

mod expected;
mod fit_law;
mod last_write;
mod law;
mod recheck;
mod tally;
mod verdict;
mod whole_disk;

pub use expected::{BlockWrites, Expected};
pub use fit_law::reports_fit;
pub use law::{examples, faults_are_losses, faults_end_checks, same_states_check_alike};
pub use recheck::Recheck;
pub use verdict::Verdict;
pub use whole_disk::check_disk;
