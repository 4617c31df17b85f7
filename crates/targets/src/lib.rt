//! A job whose target is outside, by way of a reader and a writer: the blocks of its writes go out as orders and their
//! ends come in as notices; and after a cut the target's bytes come in, and the check's report goes out.
//!
//! ```text
//! match write_blocks(alloc, key, &rec, &mut reader, &mut writer)? {
//!     RunEnd::Taken(state) => keep(&state),
//!     RunEnd::Refused(fault) => ..
//! }
//! let report = check_blocks(alloc, key, &rec, Some(&state), false, &mut reader)?;
//! ```
//!
//! Begin with `writing` and `specs/Runs.antt`; `checking` and `specs/Checks.antt` have the check, and `law` says what
//! holds of two runs of a job.
#![tactic(auto)]

mod block_verdict;
mod checking;
mod command;
mod drive_check;
mod drive_tour;
mod drive_write;
mod job_setup;
mod kind_counts;
mod law;
mod ledger_check;
mod ledger_found;
mod ledger_input;
mod ledger_lines;
mod ledger_refusal;
mod ledger_steps;
mod ledger_sums;
mod ledger_unchecked;
mod map;
mod map_bytes;
mod map_differences;
mod map_input;
mod map_lines;
mod map_sectors;
mod map_unchecked;
mod notice;
mod order;
mod texts;
mod tile;
mod tour;
mod tour_tiles;
mod tour_word;
mod units;
mod wanted;
mod writing;

pub use checking::check_blocks;
pub use command::{Request, Since, read_words};
pub use drive_check::{MAX_STATE, check_job};
pub use drive_tour::tour_job;
pub use drive_write::{refuse, write_job};
pub use law::{
    examples, front_law, ledger_law, loss_law, tour_law, unit_law, wanted_example, wanted_law,
};
pub use ledger_check::ledger_job;
pub use map::map_job;
pub use notice::Notice;
pub use tile::MAX_OPEN;
pub use tour::{TourEnd, tour_blocks};
pub use tour_word::TourWord;
pub use wanted::wanted_job;
pub use writing::{RunEnd, write_blocks};
