//! Stories: a row for each event, behind `=>` what it is answered.
//!
//! An event is a frame from the client (`from A to B` stands before other ends), `issue JOB`, `done` or
//! `fail` of a ticket (boot, run, server, job, write, block), `check` of a job (boot, attempt, job, and
//! the numbers of its report), or `restart`, whose answer is what the note said before it: boot and
//! last run, and behind `/` a fault's number where the server isn't opened. A frame is its kind's name and its
//! numbers in their order, and a text or a state that `shared` names, or stands in hexadecimal.
//!
//! An answer has the frames that are sent, the answer about a write, and `cut`, joined by `+`; or it is
//! the number of a fault. `status` shows boot, last run, staged run, present run, stage and attempt;
//! `would_save` asks of a frame, and the other looks are named after the calls.

pub mod checks;
pub mod elsewhere;
pub mod losses;
pub mod pieces;
pub mod runs;
pub mod starts;
pub mod states;
pub mod triggers;

pub use crate::tests::shared::{LostSave, Story};
