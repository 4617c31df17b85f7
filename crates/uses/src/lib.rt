//! Uses of fiocut's libraries, as a crate of one's own has them: short functions over the calls
//! that each library's page begins with. Their contracts say what such a caller wants, and follow
//! from the contracts of what they call, which so can be used from outside.
//!
//! A job file is read (`jobs`), its writes go to a disk and its state is taken (`writes`), the state
//! is kept as bytes (`states`), a disk is checked by it (`checks`), behind a cut of the power, too
//! (`cuts`), or by the ledger of many runs (`ledgers`), and a faulty block is diagnosed (`diagnoses`);
//! packets go out in frames and come out of them (`packets`), a client begins a run (`clients`), a
//! server takes a frame (`servers`), and events come to a world (`worlds`). The limits of all of them
//! are told as numbers (`limits`), and each law that has premises has an instance (`laws`).
#![tactic(auto)]

mod checks;
mod clients;
mod cuts;
mod diagnoses;
mod jobs;
mod laws;
mod ledgers;
mod limits;
mod packets;
mod servers;
mod states;
mod worlds;
mod writes;

pub use checks::count_losses;
pub use clients::first_run;
pub use cuts::write_cut_check;
pub use diagnoses::older_write;
pub use jobs::first_job;
pub use laws::{
    example_of_ledgers, examples_of_checks, examples_of_cut_clients, examples_of_cut_mirrors,
    examples_of_cut_servers, examples_of_diagnosis, examples_of_fleets, examples_of_frames,
    examples_of_packets, examples_of_pieces, examples_of_targets,
};
pub use ledgers::{Checked, check_by_ledger};
pub use limits::limits_are_as_documented;
pub use packets::{cut_and_join, first_packet};
pub use servers::first_answer;
pub use states::write_and_read;
pub use worlds::kept_state;
pub use writes::write_job;
