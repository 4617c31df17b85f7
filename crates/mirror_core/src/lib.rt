//! What a mirror answers, read from the list of all that came to it: it keeps copies of the client's
//! states, and gives them to a client whose note was lost.
#![tactic(auto)]

mod frames;
mod law;
mod mirror;
mod note;
mod request;

pub use law::{
    copies_are_kept, copy_oks_are_for_kept_states, examples, first_kept_stays, frames_are_short,
    generations_rise, grants_are_noted, kept_was_sent, looks_at_all, notes_keep_ranges,
    packets_are_in_range, packets_go_to_the_client,
};
pub use mirror::Mirror;
pub use note::{MirrorNote, notes_are_read_back, one_note};
