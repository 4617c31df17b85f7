//! The reports that have come.

use fc_base::{Attempt, CheckReport, JobNo, RunNo, ServerNo};

/// What the check of a job found, and whose it is.
#[derive(Drop)]
pub struct Received {
    pub run: RunNo,
    pub attempt: Attempt,
    pub server: ServerNo,
    pub job: JobNo,
    pub report: CheckReport,
}
