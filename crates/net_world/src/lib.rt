//! A client, its servers and a mirror or none in one list of steps: what was sent, who holds which
//! verify state, and that all who hold one of a job hold the same. And the world of what happens to
//! them and to their files, and what each check tells.
//!
//! ```text
//! let mut world = World::new(alloc, Config { servers: 2, mirror: false })?;
//! let told = world.apply(&WorldEvent::Plain(PlainEvent::Begin { text }))?;
//! let told = world.apply(&WorldEvent::Plain(PlainEvent::Deliver { frame: told.first }))?;
//! let world = play(alloc, config, &events)?;         // the same of a whole list
//! ```
//!
//! Begin with `playing`, whose contract is the headline; `specs/Headline.antt` has its claims,
//! `specs/Happenings.antt` what can happen.
#![tactic(auto)]

mod client_node;
mod config;
mod event;
mod example;
mod frame_law;
mod frame_log;
mod fresh;
mod honest;
mod mirror_node;
mod passes;
mod playing;
mod put_in;
mod ready;
mod reported;
mod server_node;
mod told;
mod verdict;
mod world;
mod world_law;

pub use config::Config;
pub use event::{PlainEvent, WorldEvent};
pub use example::examples;
pub use frame_law::{
    frames_are_of_packets, frames_hold_the_taken, only_sent_is_heard, sent_are_in_range,
    servers_stand, tags_name_one_body,
};
pub use frame_log::FrameLog;
pub use fresh::{ends_are_kept, nothing_differs, numbers_are_given_once, one_text_of_each};
pub use honest::honest_disks;
pub use passes::{
    checked_states_were_sent, held_states_were_sent, saved_states_were_kept, sent_states_were_taken,
};
pub use playing::play;
pub use put_in::{with_cut, with_stop};
pub use reported::shown_reports_were_made;
pub use told::{BoxedReport, Told, WorldAnswer};
pub use verdict::one_state_of_each_job;
pub use world::World;
pub use world_law::{
    checks_are_exact, each_world_is_a_trace, none_is_a_conflict, sent_are_frames,
    sent_frames_are_read,
};
