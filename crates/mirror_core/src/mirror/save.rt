//! What is added to the note, which is saved before the client hears of it.

ghost use Rattle.std.specs.Prelude.{◌≡◌, ◌<◌, None, length};
ghost use Rattle.mirror_core.specs.Ends.{Stores, Writes};
ghost use Rattle.mirror_core.specs.Saves.{Grant, Keep};
ghost use Rattle.verify_state.specs.StateTable.{kept_of};

use super::Mirror;
use disk_model::Notes;
use fc_base::Fault;
use verify_state::{KEPT_LIMIT, VerifyState};

impl<N: Notes> Mirror<N> {
    /// This is the greatest generation from now on.
    pub(super) fn raise(&mut self, generation: u64) -> Result<(), Fault>
        ensures { Stores N.note (Grant generation) self.old self.new result }
    {
        let before = self.noted.generation;
        self.noted.generation = generation;
        let saved = self.save();
        if saved.is_err() {
            self.noted.generation = before;
        }
        saved
    }

    /// A state is kept, of a key of which none is.
    pub(super) fn keep(&mut self, state: VerifyState) -> Result<(), Fault>
        requires new { kept_of state.key self.old.noted.kept ≡ None }
        requires room { length self.old.noted.kept < KEPT_LIMIT }
        ensures { Stores N.note (Keep state) self.old self.new result }
    {
        if self.noted.kept.push(state).is_err() {
            return Err(Fault::NoMemory);
        }
        let saved = self.save();
        if saved.is_err() {
            self.noted.kept.pop();
        }
        saved
    }

    /// Makes the note durable that says what is noted.
    fn save(&mut self) -> Result<(), Fault>
        ensures { Writes N.note self.old self.new result }
    {
        let bytes = match self.noted.encode(self.alloc) {
            Ok(bytes) => bytes,
            Err(_) => return Err(Fault::NoMemory),
        };
        self.durable.save(&bytes)
    }
}
