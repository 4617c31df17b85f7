//! What isn't answered is asked for again.

ghost use Rattle.std.specs.Prelude.{List};
ghost use Rattle.node.specs.Steps.{Ends};
ghost use Rattle.client_core.specs.Inputs.{Tick};
ghost use Rattle.client_core.specs.Ends.{steps};
ghost use Rattle.client_core.specs.History.{Opening, Entry};
ghost use Rattle.client_core.specs.Stands.{StandsFor};

use super::PacketClient;
use crate::mirrored::all_again;
use disk_model::Notes;
use fc_base::Fault;
use messages::Frames;

impl<N: Notes> PacketClient<N> {
    /// Asks again for all that isn't answered: the grant of the generation; by run its begin, its trigger
    /// and its stop, each by server; by attempt the verifies; and the copies of states. It changes nothing.
    ///
    /// In this order: `Down`; `NoMemory`.
    pub(crate) fn tick(&self) -> Result<Frames, Fault>
        ensures { (opening : Opening) (past : List Entry) → StandsFor N.note self.now opening past →
            Ends (steps N.note opening) past Tick self.now self.now result }
    {
        if self.durable.is_down() {
            return Err(Fault::Down);
        }
        match all_again(self.alloc, &self.peers, &self.noted, &self.life) {
            Ok(frames) => Ok(frames),
            Err(_) => Err(Fault::NoMemory),
        }
    }
}
