//! How far the check of a job is.

use fc_base::{CheckReport, Fault};
use verify_state::VerifyState;

/// How far the check of a job is.
#[derive(Clone, Copy, Debug)]
pub enum Progress {
    /// It waits for its state.
    Wanting,
    /// It is a full pass.
    Full,
    /// It is made with this state.
    With(VerifyState),
    /// The state that came didn't fit.
    Refused(Fault),
    /// It was made.
    Done(CheckReport),
}
