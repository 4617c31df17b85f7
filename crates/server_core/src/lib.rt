//! What a server answers, read from the list of all that came to it: the words of a server, and the
//! laws that hold of every list; and what a server keeps of these words.
//!
//! ```text
//! let mut server = Server::restart(alloc, me, notes)?;
//! let outs = server.step(Input::Deliver(frame))?;    // its frames are to be sent
//! let issue = server.issue(job)?;                    // a worker asks for a write
//! server.end_write(ticket, WriteEnd::Done)?;         // and has carried it out
//! let notes = server.off();                          // the power is cut
//! ```
//!
//! Begin with `server`; `specs/History.antt` says what a list is, `specs/Words.antt` and
//! `specs/Answers.antt` what it says, and `specs/FrameEnds.antt` how a step ends.
#![tactic(auto)]

mod check_law;
mod input;
mod job_run;
mod law;
mod machine;
mod note;
mod open_check;
mod open_law;
mod outs;
mod packet_server;
mod progress;
mod replies;
mod run;
mod sent_law;
mod server;
mod staged;
mod status;
mod texts;

pub use check_law::open_check_is_last;
pub use input::{Input, WriteEnd};
pub use law::{
    counts_the_done, cuts_when_kept, due_starts, examples, few_packets, frames_are_short,
    legal_histories, looks_at_all, numbers_grow, one_taking, packets_are_in_range, quiet,
    refused_stays, starts, the_taken, the_untaken, with_was_heard, words_follow,
};
pub use note::{ServerNote, one_note};
pub use open_law::tickets_tell_origins;
pub use outs::Outs;
pub use progress::Progress;
pub use sent_law::{packets_go_to_client, reports_were_made};
pub use server::Server;
pub use status::{Stage, Status};
