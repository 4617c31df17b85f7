//! A ledger of a place: what each of its blocks has to hold, over any runs and checks.
//!
//! ```text
//! let mut ledger = Ledger::new(alloc, 4096, blocks)?;
//! let ledger = ledger.after_run(alloc, &expected)?;        // behind each run
//! let mut check = LedgerCheck::new(ledger);                // behind each cut
//! if check.wants(block) { verdict = check.feed(block, bytes); }
//! let (report, ledger) = check.finish();
//! ```
//!
//! Begin with `specs/Entries.antt`.
#![tactic(auto)]

mod check;
mod entry;
mod fault;
mod law;
mod ledger;
mod reading;
mod runs;
mod spelling;
mod tally;
mod touched;

pub use check::LedgerCheck;
pub use entry::{Entry, RunWrite};
pub use fault::LedgerFault;
pub use law::{
    examples, holders, one_run, one_run_reports, place_law, rest_law, stays, stays_possible,
};
pub use ledger::Ledger;
