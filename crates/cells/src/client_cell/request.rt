//! What the client is asked by its caller.

ghost use Rattle.std.specs.Prelude.{◌≡◌};
ghost use Rattle.client_core.specs.Answers as core;
ghost use Rattle.cells.specs.ClientTasks.{input_of};

use client_core::Input;
use fc_base::RunNo;
use messages::{Act, Text};

/// What the client is asked by its caller, and asks of its servers.
#[derive(Drop)]
pub enum ClientRequest {
    /// Begin a run with this job file.
    Begin(Text),
    /// Trigger the verify states of a run, and then this act.
    Trigger(RunNo, Act),
    /// Issue no more writes in a run.
    Stop(RunNo),
    /// Check the files of a run by this job file.
    Verify(RunNo, Text),
}

impl ClientRequest {
    /// What its core is asked.
    pub(crate) fn as_input(&self) -> Input<'_>
        ensures { core.input_of result ≡ input_of self.now }
    {
        match self {
            ClientRequest::Begin(text) => Input::Begin(text.as_slice()),
            ClientRequest::Trigger(run, act) => Input::Trigger(*run, *act),
            ClientRequest::Stop(run) => Input::Stop(*run),
            ClientRequest::Verify(run, text) => Input::Verify(*run, text.as_slice()),
        }
    }
}
