//! What is added to the note, which is saved before it is used.

ghost use Rattle.std.specs.Prelude.{◌≡◌, ◌+◌, ◌<◌, ◌^◌, None, length};
ghost use Rattle.client_core.specs.Ends.{Stores, Writes};
ghost use Rattle.verify_state.specs.StateTable.{kept_of};
ghost use Rattle.client_core.specs.Saves.{NextRun, NextAttempt, Keep};

use super::PacketClient;
use disk_model::Notes;
use fc_base::Fault;
use verify_state::{KEPT_LIMIT, VerifyState};

impl<N: Notes> PacketClient<N> {
    /// One more run is used.
    pub(super) fn use_run(&mut self) -> Result<(), Fault>
        requires { self.old.noted.runs + 1 < 2 ^ 64 }
        ensures { Stores N.note NextRun self.old self.new result }
    {
        self.noted.runs += 1;
        let saved = self.save();
        if saved.is_err() {
            self.noted.runs -= 1;
        }
        saved
    }

    /// One more attempt is used.
    pub(super) fn use_attempt(&mut self) -> Result<(), Fault>
        requires { self.old.noted.attempts + 1 < 2 ^ 64 }
        ensures { Stores N.note NextAttempt self.old self.new result }
    {
        self.noted.attempts += 1;
        let saved = self.save();
        if saved.is_err() {
            self.noted.attempts -= 1;
        }
        saved
    }

    /// A state is kept, of a key of which none is.
    pub(super) fn keep(&mut self, state: VerifyState) -> Result<(), Fault>
        requires new { kept_of state.key self.old.noted.kept ≡ None }
        requires room { length self.old.noted.kept < KEPT_LIMIT }
        ensures { Stores N.note (Keep state) self.old self.new result }
    {
        if self.noted.kept.push(state).is_err() {
            return Err(Fault::NoMemory);
        }
        let saved = self.save();
        if saved.is_err() {
            self.noted.kept.pop();
        }
        saved
    }

    /// Makes the note durable that says what is noted.
    fn save(&mut self) -> Result<(), Fault>
        ensures { Writes N.note self.old self.new result }
    {
        match self.noted.encode(self.alloc) {
            Ok(bytes) => self.durable.save(&bytes),
            Err(_) => Err(Fault::NoMemory),
        }
    }
}
