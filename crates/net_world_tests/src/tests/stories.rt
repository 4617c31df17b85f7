//! Stories: a row for each command, and behind `=>` the lines that it is answered, joined by `+`.
//!
//! The commands are those of a script, as docs/SCRIPTS.md has them: `/` ends a line, so that a text stands behind
//! its `begin` or `verify`, and `#x*3` is `#xxx`. A row without `=>` prints nothing. What a script can't say has
//! rows of its own:
//!
//! - `frame I`: the frame is the one that `frames` has under a name, or has these bytes in hexadecimal, where
//!   `78*3` is a byte three times over; `frames`: so many were sent;
//! - `status S`: what a server shows of itself, or `off`;
//! - `saved R S J`: the state that the client keeps of a job, or `none`;
//! - `barred`, before `cutold` or `cutnew` and a command that makes no save: what the world refuses of it.

pub mod copies;
pub mod disks;
pub mod mirror_refusals;
pub mod mirrors;
pub mod numbers;
pub mod pieces;
pub mod refusals;
pub mod renewals;
pub mod runs;
pub mod saves;
pub mod stops;

/// A story by its rows, with the status of its script.
pub struct Story {
    pub name: &'static str,
    /// Whether the rows of `BEGUN` stand before its own.
    pub is_begun: bool,
    pub rows: &'static str,
    pub status: u8,
}
