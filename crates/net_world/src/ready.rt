//! A job whose file is ready to be checked.

use fc_base::{Attempt, JobRecord, Key};
use verify_state::VerifyState;

/// A job of an open check whose file is ready to be checked: in which boot and attempt, and with which
/// state, `None` in a full pass.
#[derive(Clone, Copy)]
pub(crate) struct Ready {
    pub boot: u64,
    pub attempt: Attempt,
    pub key: Key,
    pub rec: JobRecord,
    pub fatal: bool,
    pub state: Option<VerifyState>,
}
