//! Filters that ran as a fleet, as one list of steps: whatever they read and wrote, wherever they were cut, is a
//! trace of the world, and so the world's verdict holds of them. The functions have nothing to run.
//!
//! Begin with `law`; in `specs/`, with `Fleets`, which says what may happen to a fleet.
#![tactic(auto)]

mod law;

pub use law::{fleet_law, fleets_begin_again_law, fleets_begin_law};
