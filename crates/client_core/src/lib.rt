//! What a client answers, read from the list of all that came to it: the words of a client, and the
//! laws that hold of every list.
//!
//! ```text
//! let mut client = Client::restart(alloc, servers, mirror, notes)?;
//! let (run, frames) = client.begin(text)?;
//! let frames = client.deliver(frame)?;               // a state is saved before it is acknowledged
//! let frames = client.trigger(run, Act::Cut)?;
//! let (attempt, frames) = client.verify(run, text)?;
//! ```
//!
//! Begin with `client`; `specs/History.antt` says what a list is, `specs/Words.antt` and
//! `specs/Refusals.antt` what it says, and `specs/FrameEnds.antt` how a call ends.
#![tactic(auto)]

mod again;
mod attempt_asked;
mod beginning;
mod client;
mod frames;
mod generation;
mod input;
mod law;
mod life;
mod mirrored;
mod note;
mod outcome;
mod outs;
mod packet_client;
mod peers;
mod received;
mod refusal;
mod replies;
mod reports;
mod request_status;
mod run_asked;
mod servers;
mod told;

pub use client::{Client, ClientSeed};
pub use input::Input;
pub use law::{
    acks_are_for_kept_states, copies_are_of_states, examples, first_kept_stays, frames_are_short,
    kept_was_sent, looks_at_all, loss_begins_anew, no_saved_is_of_none, notes_keep_ranges,
    numbers_are_fresh, numbers_are_given_once, one_text, packets_are_few, packets_are_in_range,
    packets_go_to_peers, reports_came, saved_is_kept, tick_only_looks, triggers_end_well,
};
pub use note::{ClientNote, notes_are_read_back, one_note};
pub use outcome::{Outcome, RequestKind};
pub use outs::{Answer, Outs};
pub use received::Received;
