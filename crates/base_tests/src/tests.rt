//! What no clause shows of `fc_base`, `job_file`, `write_order`, `verify_state`, `engine`, `disk_model`, `recheck`,
//! `diagnosis`, `ledger` and `messages`.

mod diagnoses;
mod disks;
mod engines;
mod job_files;
mod jobs;
mod ledgers;
mod network;
mod numbers;
mod orders;
mod packets;
mod rechecks;
mod states;
mod windows;
