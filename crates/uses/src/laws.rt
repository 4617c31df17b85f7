//! An instance of each law that has premises: values that meet them, which can be followed by hand,
//! and what the law says of these.

mod cuts;
mod diagnoses;
mod fleets;
mod ledgers;
mod losses;
mod packets;

pub use cuts::{
    examples_of_checks, examples_of_cut_clients, examples_of_cut_mirrors, examples_of_cut_servers,
};
pub use diagnoses::examples_of_diagnosis;
pub use fleets::examples_of_fleets;
pub use ledgers::example_of_ledgers;
pub use losses::examples_of_targets;
pub use packets::{examples_of_frames, examples_of_packets, examples_of_pieces};
