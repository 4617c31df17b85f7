//! How an attempt to verify a run ended, as its client knows it: at each place, which is a server
//! and one of its jobs, and in one word for all of them.
//!
//! ```text
//! let asked = places_asked(alloc, &client, servers, run, text)?;   // before it verifies
//! attempts.push(Attempted { attempt, run, asked });
//! let ends = ends_of(alloc, &client, &attempts, run, attempt)?;
//! match attempt_end(ends.as_slice()) { AttemptEnd::Sound => .., .. }
//! ```
//!
//! Begin with `specs/PlaceEnds.antt`, and `specs/AttemptEnds.antt` for the word;
//! `specs/Examples.antt` has rows that can be followed by hand.
#![tactic(auto)]

mod asked;
mod attempts;
mod conclusion;
mod ends;
mod law;
mod lists;
mod place;
mod place_end;

pub use asked::{AskedPlace, AskedPlaces, places_asked};
pub use attempts::{Attempted, Attempts};
pub use conclusion::{AttemptEnd, Sums, attempt_end, sums_of};
pub use ends::{EndAt, Ends, ends_of};
pub use law::{examples, sound_checks_all, states_are_given};
pub use place::{PLACES, Place};
pub use place_end::{Counts, PlaceEnd};
