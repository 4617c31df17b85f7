//! What a server is told of a check.

use fc_base::{Attempt, CheckReport, JobNo};

/// The report of a job's check, made in this boot and for this attempt.
#[derive(Clone, Copy)]
pub struct Report {
    pub boot: u64,
    pub attempt: Attempt,
    pub job: JobNo,
    pub report: CheckReport,
}
