//! One job of a run, from the issue of its writes to their completion, and the window of its writes:
//! which may be issued, which are in flight, and which last completed.
//!
//! ```text
//! let mut engine = Engine::new(alloc, boot, key, &rec)?;
//! if let Issue::Write(ticket) = engine.issue() {
//!     // the write goes to block `ticket.block`, and when it has landed:
//!     engine.done(ticket)?;
//! }
//! let state = engine.take();
//! ```
//!
//! Begin with `engine`; `specs/Answers.antt` says what `issue` answers, `specs/Taken.antt` what a
//! state is. The rules of a window are in `specs/History.antt` and `specs/WindowRules.antt`.
#![tactic(auto)]

mod engine;
mod in_flight;
mod issue;
mod law;
mod ring;
mod room;
mod window;
mod window_law;
mod writes;

pub use engine::Engine;
pub use issue::{Issue, Ticket};
pub use law::{ended_law, examples, legal_law, overlap_law, progress_law, taken_law};
pub use room::Room;
pub use window::Window;
pub use window_law::{counting_law, in_flight_law, marks_law, room_law, sets_law, window_examples};
