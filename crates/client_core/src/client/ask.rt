//! What a client asks of its servers, and of its mirror.

ghost use Rattle.std.specs.Prelude.{◌≡◌, List, is_some};
ghost use Rattle.node.specs.Steps.{Ends, EndsWithNumber};
ghost use Rattle.client_core.specs.Inputs as inputs;
ghost use Rattle.client_core.specs.History.{Opening};
ghost use Rattle.client_core.specs.Words.{words_noted};
ghost use Rattle.client_core.specs.Hearing.{FrameEntry, packets_heard};
ghost use Rattle.client_core.specs.FrameAnswers.{due};
ghost use Rattle.client_core.specs.FrameEnds.{StandsFor, steps};

use super::Client;
use crate::law::frames_are_short;
use disk_model::Notes;
use fc_base::{Attempt, Fault, RunNo};
use messages::{Act, Frames};

impl<N: Notes> Client<N> {
    /// Begins a run with this job file at each server. Its number is saved before it is used.
    ///
    /// In this order: `Down`; `JobTooLong`; `NumbersSpent`, no number is left, or its generation isn't
    /// granted in this life; `NoMemory`, and nothing changes; `SaveFault`, and the client is down.
    pub fn begin(&mut self, text: &[u8]) -> Result<(RunNo, Frames), Fault>
        ensures { (opening : Opening) (past : List FrameEntry) →
            StandsFor N.note self.old opening past →
            EndsWithNumber (steps N.note opening) past (inputs.Begin text.now)
            (words_noted opening (packets_heard opening past)).runs self.old self.new result }
    {
        frames_are_short();
        self.hearer.core.begin(text)
    }

    /// Whether a run with this job file would be begun, and so make a save.
    pub fn begin_would_save(&self, text: &[u8]) -> bool
        ensures { (opening : Opening) (past : List FrameEntry) →
            StandsFor N.note self.now opening past →
            result ≡ is_some (due opening past (inputs.Begin text.now)) }
    {
        self.hearer.core.begin_would_save(text)
    }

    /// Triggers the verify states of a run at each server, which then is to do this.
    ///
    /// In this order: `Down`; `NoSuchRun`; `NoMemory`, and nothing changes.
    pub fn trigger(&mut self, run: RunNo, act: Act) -> Result<Frames, Fault>
        ensures { (opening : Opening) (past : List FrameEntry) →
            StandsFor N.note self.old opening past →
            Ends (steps N.note opening) past (inputs.Trigger run act) self.old self.new result }
    {
        frames_are_short();
        self.hearer.core.trigger(run, act)
    }

    /// Stops a run at each server, which issues no more writes of it.
    ///
    /// In this order: `Down`; `NoSuchRun`; `NoMemory`, and nothing changes.
    pub fn stop(&mut self, run: RunNo) -> Result<Frames, Fault>
        ensures { (opening : Opening) (past : List FrameEntry) →
            StandsFor N.note self.old opening past →
            Ends (steps N.note opening) past (inputs.Stop run) self.old self.new result }
    {
        frames_are_short();
        self.hearer.core.stop(run)
    }

    /// Checks the files of a run by this job file at each server. The attempt's number is saved before
    /// it is used.
    ///
    /// In this order: `Down`; `NoSuchRun`; `JobTooLong`; `NumbersSpent`, as of a begin; `NoMemory`, and
    /// nothing changes; `SaveFault`, and the client is down.
    pub fn verify(&mut self, run: RunNo, text: &[u8]) -> Result<(Attempt, Frames), Fault>
        ensures { (opening : Opening) (past : List FrameEntry) →
            StandsFor N.note self.old opening past →
            EndsWithNumber (steps N.note opening) past (inputs.Verify run text.now)
            (words_noted opening (packets_heard opening past)).attempts self.old self.new result }
    {
        frames_are_short();
        self.hearer.core.verify(run, text)
    }

    /// Whether a run would be verified by this job file, and so make a save.
    pub fn verify_would_save(&self, run: RunNo, text: &[u8]) -> bool
        ensures { (opening : Opening) (past : List FrameEntry) →
            StandsFor N.note self.now opening past →
            result ≡ is_some (due opening past (inputs.Verify run text.now)) }
    {
        self.hearer.core.verify_would_save(run, text)
    }

    /// Asks again for all that isn't answered: of the mirror the grant of the generation; of the servers, by
    /// run, its begin, its trigger and its stop, each by server, and then by attempt the verifies; and last
    /// come copies for the mirror of the kept states that it isn't known to keep. It changes nothing.
    ///
    /// In this order: `Down`; `NoMemory`.
    pub fn tick(&self) -> Result<Frames, Fault>
        ensures { (opening : Opening) (past : List FrameEntry) →
            StandsFor N.note self.now opening past →
            Ends (steps N.note opening) past inputs.Tick self.now self.now result }
    {
        frames_are_short();
        self.hearer.core.tick()
    }
}
