//! Stories: a row for each event, behind `=>` what it is answered.
//!
//! An event is a frame from the client to the mirror (`from A to B` stands before other ends; 8 is the
//! client, 9 the mirror), or `restart`, whose answer is what the note said before it, and behind `/` a
//! fault's number where the mirror isn't opened. A note is `-` where there are no bytes, else its generation
//! and its states, or its bytes in hexadecimal. A frame is its kind's name and its numbers in their order,
//! and a text or a state that `shared` names; or stands in hexadecimal; or is `bytes of` one that the
//! `vectors` of `shared` have.
//!
//! An answer has the frames that are sent, from the mirror to the client, joined by `+`; or it is the number
//! of a fault. `would_save` asks of a frame; `on`, `generation` and `kept RUN SERVER JOB` look.

pub mod copies;
pub mod fetches;
pub mod losses;
pub mod refusals;
pub mod worked;

pub use crate::tests::shared::Story;

/// A story in which a save fails.
#[derive(Clone, Copy)]
pub struct LostSave {
    pub name: &'static str,
    /// The number of the save, from 0.
    pub at: u64,
    /// Whether it leaves the new bytes.
    pub landed: bool,
    /// What the note says at first.
    pub note: &'static str,
    pub rows: &'static str,
}
