//! Stories: a row for each event, behind `=>` what it is answered.
//!
//! An event is `begin TEXT`, `verify RUN TEXT`, `trigger RUN ACT`, `stop RUN`, `tick`, or a frame from server
//! 0 (`from A to B` stands before other ends: the client is 8, its mirror 9). `restart`, `restart mirror`
//! and `renew GENERATION` take the client off and open it; the answer is what the note said before, and
//! behind `/` a fault's number where the client isn't opened. `note NOTE` takes the client off, too, and
//! writes that note; so `note -` loses what it said. A note is `-` where there are no bytes, else its runs,
//! its attempts and its states, behind `of GENERATION` where it has one, or behind `old` where it is from
//! before there were any; or its bytes in hexadecimal. A frame is its kind's name and its numbers in their
//! order, and a text or a state that `shared` names, or stands in hexadecimal.
//!
//! An answer has the number that is given, as `run 1` or `attempt 1`, and the frames that are sent, to
//! server 0 where they don't say `to B`, joined by `+`; or it is the number of a fault. `would_save` asks
//! of a frame, `would_begin` and `would_verify` of a text, and the other looks are named after the calls;
//! `used` shows the runs and the attempts.

pub mod begins;
pub mod copies;
pub mod elsewhere;
pub mod grants;
pub mod losses;
pub mod lost_notes;
pub mod numbers;
pub mod pieces;
pub mod renewals;
pub mod stages;
pub mod states;
pub mod stopped;
pub mod triggers;
pub mod verifies;

pub use crate::tests::shared::{LostSave, Story};
