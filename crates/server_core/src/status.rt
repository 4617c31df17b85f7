//! What a server shows of itself.

use fc_base::{Attempt, RunNo};

/// How far the present run is.
#[derive(Clone, Copy, Debug, PartialEq, Eq)]
pub enum Stage {
    /// There is none.
    Idle,
    /// Its writes are issued.
    Writing,
    /// A trigger has taken its states.
    Taken,
    /// It was stopped.
    Stopped,
}

/// What a server shows of itself.
#[derive(Clone, Copy, Debug, PartialEq, Eq)]
pub struct Status {
    /// How often it was restarted.
    pub boot: u64,
    /// The greatest run that was started, 0 before the first.
    pub last_run: RunNo,
    /// The run whose jobs are staged, 0 where none is.
    pub staged: RunNo,
    /// The present run, 0 where there is none.
    pub run: RunNo,
    /// How far the present run is.
    pub stage: Stage,
    /// The attempt of the open check, 0 where there is none.
    pub attempt: Attempt,
}
