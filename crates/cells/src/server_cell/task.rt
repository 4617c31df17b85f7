//! What a server's cell is asked without the network.

ghost use Rattle.std.specs.Prelude.{◌≡◌};
ghost use Rattle.cells.specs.ServerTasks.{came_by};

use crate::input::NodeInput;
use engine::Ticket;
use fc_base::JobNo;
use server_core::WriteEnd;

/// What is asked of a server from one of its seats.
#[derive(Clone, Copy, PartialEq, Eq)]
pub enum ServerTask {
    /// A worker asks for the next write of a job.
    Issue(JobNo),
    /// A worker has carried out a write, or has failed to.
    WriteDone(Ticket, WriteEnd),
    /// The server loses its power.
    Cut,
    /// The server is started again.
    Restart,
}

impl ServerTask {
    /// What comes to the server.
    pub(crate) fn came(&self) -> NodeInput
        ensures { result ≡ came_by self.now }
    {
        match self {
            ServerTask::Issue(job) => NodeInput::Issue(*job),
            ServerTask::WriteDone(ticket, end) => NodeInput::WriteDone(*ticket, *end),
            ServerTask::Cut => NodeInput::Cut,
            ServerTask::Restart => NodeInput::Restart,
        }
    }
}
