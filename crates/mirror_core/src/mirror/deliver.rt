//! A frame of the client is delivered.

ghost use Rattle.std.specs.Prelude.{◌≡◌, [], false, List, Some, IsTrue};
ghost use Rattle.node.specs.Steps.{Ends};
ghost use Rattle.messages.specs.Ranges.{is_generation};
ghost use Rattle.messages.specs.declared.frame.Frame.{Frame as SaidFrame};
ghost use Rattle.mirror_core.specs.declared.note.MirrorNote.{MirrorNote as Opening};
ghost use Rattle.mirror_core.specs.declared.request.Request.TheVariants.{Copy, Fetch};
ghost use Rattle.mirror_core.specs.Ends.{steps};
ghost use Rattle.mirror_core.specs.History.{Entry};
ghost use Rattle.mirror_core.specs.Refusals.{faults_of_request};
ghost use Rattle.mirror_core.specs.Requests.{request_in};
ghost use Rattle.mirror_core.specs.Stands.{StandsFor};

use super::Mirror;
use crate::frames::{copy_ok, granted};
use crate::note::notes_are_read_back;
use crate::request::Request;
use disk_model::Notes;
use fc_base::Fault;
use messages::{Frame, Frames};
use verify_state::{VerifyState, found_after_a_push};

impl<N: Notes> Mirror<N> {
    /// Takes a frame, and answers the client. A state of a new key is saved before it is reported as kept,
    /// and a greater generation before it is granted; behind a grant goes a copy of each kept state.
    ///
    /// In this order: `Down`; `Misdirected`, it is neither a Copy nor a Fetch of the client to the mirror;
    /// `Conflict`, another state of the key is kept; `Old`, a greater generation was granted; `TableFull`;
    /// `NoMemory`, and nothing changes; `SaveFault`, and the mirror is down.
    pub fn deliver(&mut self, frame: &Frame) -> Result<Frames, Fault>
        ensures { (opening : Opening) (past : List Entry) → StandsFor N.note self.old opening past →
            Ends (steps N.note opening) past frame.now self.old self.new result }
    {
        let request = self.admit(frame)?;
        match &request {
            Request::Copy(state) => self.copy(state),
            Request::Fetch(generation) => self.fetch(*generation),
        }
    }

    /// Keeps a state, unless it is kept, and reports that. It isn't refused.
    fn copy(&mut self, state: &VerifyState) -> Result<Frames, Fault>
        requires up { self.old.durable.down ≡ false }
        requires free { faults_of_request self.old.noted (Copy state.now) ≡ [] }
        ensures { (opening : Opening) (past : List Entry) (f : SaidFrame) →
            request_in f ≡ Some (Copy state.now) →
            StandsFor N.note self.old opening past →
            Ends (steps N.note opening) past f self.old self.new result }
    {
        notes_are_read_back();
        found_after_a_push();
        state.keeps_its_ranges();
        let Ok(frames) = copy_ok(self.alloc, state.key()) else {
            return Err(Fault::NoMemory);
        };
        if self.noted.kept.has(state.key()) {
            return Ok(frames);
        }
        self.keep(*state)?;
        Ok(frames)
    }

    /// Grants a generation, and sends a copy of each kept state. It isn't refused.
    fn fetch(&mut self, generation: u64) -> Result<Frames, Fault>
        requires range { IsTrue (is_generation generation) }
        requires up { self.old.durable.down ≡ false }
        requires free { faults_of_request self.old.noted (Fetch generation) ≡ [] }
        ensures { (opening : Opening) (past : List Entry) (f : SaidFrame) →
            request_in f ≡ Some (Fetch generation) →
            StandsFor N.note self.old opening past →
            Ends (steps N.note opening) past f self.old self.new result }
    {
        notes_are_read_back();
        let Ok(frames) = granted(self.alloc, generation, self.noted.kept.as_slice()) else {
            return Err(Fault::NoMemory);
        };
        if generation <= self.noted.generation {
            return Ok(frames);
        }
        self.raise(generation)?;
        Ok(frames)
    }
}
