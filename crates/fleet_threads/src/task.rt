//! What there is to check.

use fc_base::{JobRecord, Key};
use verify_state::VerifyState;

/// A file that has to be checked, and what it is checked by.
#[derive(Drop)]
pub struct CheckTask<D> {
    /// The job that wrote the file.
    pub rec: JobRecord,
    /// The run, server and number of that job.
    pub key: Key,
    /// The state by which it is checked, or none for a full pass.
    pub state: Option<VerifyState>,
    /// Whether the check ends at the first fault.
    pub fatal: bool,
    /// The disk that has the file.
    pub disk: D,
}
