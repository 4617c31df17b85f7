//! Verify states: what a trigger takes of a job, and its bytes; and the table of those that a node
//! keeps, at most one of each key, with the bytes in which its note has them.
//!
//! ```text
//! let state = VerifyState::make_marked(key, &rec, issued, place, marks)?;
//! let bytes = state.encode(alloc)?;
//! let again = VerifyState::decode(&bytes)?;
//! again.fits(key, &rec)?;                  // the job that is to be checked by it
//! if again.counts(Seq(7)) { .. }
//! ```
//!
//! Begin with `state` and `specs/State.antt`; `specs/Spelling.antt` has the bytes,
//! `specs/Reading.antt` the faults of bytes. Of the table begin with `kept` and `specs/Kept.antt`.
#![tactic(auto)]

mod counting;
mod distinct;
mod label;
mod law;
mod layouts;
mod misfit;
mod ranges;
mod reading;
mod same;
mod state;
mod table;
mod table_bytes;
mod table_law;
mod writing;

pub use law::{
    bytes_say_states, examples, no_spelling_begins_another, one_spelling, same_states_fit_alike,
};
pub use state::VerifyState;
pub use table::{KEPT_LIMIT, StateTable};
pub use table_bytes::{put_states, states_in};
pub use table_law::{found_after_a_push, found_states, read_were_spelled, spelled_are_read};
