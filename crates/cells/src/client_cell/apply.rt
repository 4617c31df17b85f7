//! What happens to the client without the network.

ghost use Rattle.std.specs.Prelude.{◌≡◌, List};
ghost use Rattle.client_core.specs.Hearing.{FrameEntry};
ghost use Rattle.cells.specs.ClientCells.{IsReplay};
ghost use Rattle.cells.specs.ClientCalls.{logged_by, Applies};

use super::ClientCell;
use super::power::perform;
use super::task::ClientTask;
use crate::answer::{Receipt, Reply};
use crate::at_hub::{lacks_memory, told_at};
use crate::entry::HistoryEntry;
use crate::input::NodeInput;
use disk_model::Notes;
use fc_base::Fault;
use messages::Frames;
use std::alloc::Global;

impl<N: Notes + Drop> ClientCell<N> {
    /// Cuts the client, or starts it again. Each answer but `NoMemory`, for which nothing changes, is
    /// entered in the history.
    ///
    /// `NodeOff`: a cut of a client that isn't on. `NodeOn`: a restart of one that is. `LoadFault`: a
    /// restart whose note wasn't loaded.
    pub fn apply(&mut self, task: ClientTask) -> Result<Receipt, Fault>
        ensures ends { Applies self.old task self.new result }
        ensures replay { (past : List FrameEntry) × IsReplay self.new past }
    {
        if self.cell.history.reserve().is_err() {
            return Err(Fault::NoMemory);
        }
        let (alloc, servers) = (self.cell.alloc, self.servers);
        let came = task.came();
        let answer = perform(&mut self.cell.power, alloc, servers, &task);
        if lacks_memory(&answer) {
            return Err(Fault::NoMemory);
        }
        self.cell.history.push(entry(alloc, came, &answer));
        told_at(0, 0, &answer)
    }
}

/// The entry of what came from no seat and was answered so, which sends nothing.
fn entry(alloc: Global, came: NodeInput, answer: &Result<Reply, Fault>) -> HistoryEntry
    ensures { result ≡ logged_by came answer.now }
{
    HistoryEntry {
        by: None,
        came,
        answer: *answer,
        sent: Frames::new(alloc),
    }
}
