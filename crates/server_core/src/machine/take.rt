//! What the client asks, and what the workers tell.

ghost use Rattle.std.specs.Prelude.{◌≡◌, IsTrue};
ghost use Rattle.messages.specs.Ranges.{is_attempt as in_range, is_run};
ghost use Rattle.server_core.specs.Request.{ToStage, ToStart, ToTrigger, ToMark, ToStop, ToVerify, ToHold, ToPassFully, ToReport};
ghost use Rattle.server_core.specs.Handles.{Handled, EachUndue};

use super::Machine;
use crate::outs::Outs;
use fc_base::{Attempt, CheckReport, Fault, JobNo, RunNo};
use messages::{Act, Frames, Text};
use verify_state::VerifyState;

impl Machine {
    /// A text for a run.
    pub(super) fn handle_jobs(&mut self, run: RunNo, text: &Text) -> Result<Outs, Fault>
        requires { IsTrue (is_run run) }
        ensures { EachUndue self.old (ToStage run text.now)
            (λ now. Handled now (ToStage run text.now) self.old self.new result) }
    {
        Ok(Outs::sent(self.stage(run, text.as_slice())?))
    }

    /// A Start that isn't due to record a run.
    #[tactic(auto, using(crate::proofs::UndueLemmas::start_stays, crate::proofs::UndueLemmas::no_act))]
    pub(super) fn handle_start(&mut self, run: RunNo) -> Result<Outs, Fault>
        requires { IsTrue (is_run run) }
        ensures { EachUndue self.old (ToStart run)
            (λ now. Handled now (ToStart run) self.old self.new result) }
    {
        Ok(Outs::sent(self.start_frames(run)?))
    }

    /// A Trigger.
    pub(super) fn handle_trigger(&mut self, run: RunNo, act: Act) -> Result<Outs, Fault>
        requires { IsTrue (is_run run) }
        ensures { EachUndue self.old (ToTrigger run act)
            (λ now. Handled now (ToTrigger run act) self.old self.new result) }
    {
        match self.trigger(run, act) {
            Ok(frames) => Ok(Outs::sent(frames)),
            Err(_) => Err(Fault::NoMemory),
        }
    }

    /// A Stop.
    pub(super) fn handle_stop(&mut self, run: RunNo) -> Result<Outs, Fault>
        requires { IsTrue (is_run run) }
        ensures { EachUndue self.old (ToStop run)
            (λ now. Handled now (ToStop run) self.old self.new result) }
    {
        match self.stop(run) {
            Ok(frames) => Ok(Outs::sent(frames)),
            Err(_) => Err(Fault::NoMemory),
        }
    }

    /// A mark.
    pub(super) fn handle_mark(&mut self, run: RunNo, job: JobNo) -> Result<Outs, Fault>
        ensures { EachUndue self.old (ToMark run job)
            (λ now. Handled now (ToMark run job) self.old self.new result) }
    {
        let act = self.mark(run, job);
        Ok(Outs {
            frames: Frames::new(self.alloc),
            issue: None,
            act,
        })
    }

    /// A Verify.
    pub(super) fn handle_verify(
        &mut self,
        run: RunNo,
        attempt: Attempt,
        text: &Text,
    ) -> Result<Outs, Fault>
        requires run { IsTrue (is_run run) }
        requires attempt { IsTrue (in_range attempt) }
        ensures { EachUndue self.old (ToVerify run attempt text.now)
            (λ now. Handled now (ToVerify run attempt text.now) self.old self.new result) }
    {
        Ok(Outs::sent(self.verify(run, attempt, text.as_slice())?))
    }

    /// A state for the check of its job.
    pub(super) fn handle_state(
        &mut self,
        attempt: Attempt,
        state: &VerifyState,
    ) -> Result<Outs, Fault>
        ensures { EachUndue self.old (ToHold attempt state.now)
            (λ now. Handled now (ToHold attempt state.now) self.old self.new result) }
    {
        Ok(Outs::sent(self.hold(attempt, state)?))
    }

    /// That the client keeps no state for the check of a job.
    pub(super) fn handle_no_state(&mut self, attempt: Attempt, job: JobNo) -> Result<Outs, Fault>
        ensures { EachUndue self.old (ToPassFully attempt job)
            (λ now. Handled now (ToPassFully attempt job) self.old self.new result) }
    {
        self.pass(attempt, job);
        Ok(Outs::sent(Frames::new(self.alloc)))
    }

    /// A worker tells what a check found.
    pub(super) fn handle_report(
        &mut self,
        boot: u64,
        attempt: Attempt,
        job: JobNo,
        report: CheckReport,
    ) -> Result<Outs, Fault>
        ensures { EachUndue self.old (ToReport boot attempt job report)
            (λ now. Handled now (ToReport boot attempt job report) self.old self.new result) }
    {
        Ok(Outs::sent(self.report(boot, attempt, job, report)?))
    }
}
