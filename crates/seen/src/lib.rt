//! The headline, said of what one can see of a world: the events, what each was told, the frames that
//! were sent, and what the client's note shows.
//!
//! ```text
//! let world = watch(alloc, config, &events)?;
//! ```
//!
//! Begin with `watching`; in `specs/`, with `Claims`.
#![tactic(auto)]

mod example;
mod law;
mod watching;

pub use example::examples;
pub use law::{
    acks_are_of_kept, cuts_are_behind_acks, each_is_taken, each_report_is_exact,
    each_report_was_told, ended_is_kept, no_saved_is_of_none, numbers_are_given_once, one_state,
    refusals_change_nothing, unknown_is_refused, what_comes_is_kept,
};
pub use watching::watch;
