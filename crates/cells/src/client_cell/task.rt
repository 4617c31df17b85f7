//! What the client's cell is asked without the network.

ghost use Rattle.std.specs.Prelude.{◌≡◌};
ghost use Rattle.cells.specs.ClientTasks.{came_by};

use crate::input::NodeInput;

/// What happens to the client without the network.
#[derive(Clone, Copy, PartialEq, Eq)]
pub enum ClientTask {
    /// The client loses its power.
    Cut,
    /// The client is started again.
    Restart,
}

impl ClientTask {
    /// What comes to the client.
    pub(crate) fn came(&self) -> NodeInput
        ensures { result ≡ came_by self.now }
    {
        match self {
            ClientTask::Cut => NodeInput::Cut,
            ClientTask::Restart => NodeInput::Restart,
        }
    }
}
