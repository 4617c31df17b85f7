//! A check is opened, and made.

ghost use Rattle.std.specs.Prelude.{◌≡◌, IfOk, OnErr, MatchOption, Err, true};
ghost use Rattle.fc_base.specs.declared.fault.Fault.TheVariants.{NoMemory};
ghost use Rattle.server_core.specs.Request.{ToHold, ToPassFully, ToReport};
ghost use Rattle.server_core.specs.Replies.{replies};
ghost use Rattle.std.specs.Option.{option_map};
ghost use Rattle.server_core.specs.KeptCheck.{progress_of, has_job, judgement_now, ready_now, with_progress};
ghost use Rattle.server_core.specs.Framed.{frames_to_client};
ghost use Rattle.server_core.specs.Stands.{MachineIs, EachNow, EachOpen, OpenIs};
ghost use Rattle.server_core.specs.WordsAfter.{words_after};
ghost use Rattle.server_core.specs.InnerCalls.{IsAnswer, frame_now};
ghost use Rattle.server_core.specs.Check.{check_goes_on};

use super::Machine;
use crate::open_check::OpenCheck;
use crate::progress::Progress;
use crate::replies::say_if;
use fc_base::{Attempt, CheckReport, Fault, JobNo, ServerNo};
use messages::Frames;
use verify_state::VerifyState;

impl Machine {
    /// Keeps the report of a check that was made, and tells the client. A report of another boot is
    /// refused, and then one of a job whose check may not be made. Where it is refused, or memory runs
    /// out, nothing changes.
    pub(crate) fn report(
        &mut self,
        boot: u64,
        attempt: Attempt,
        job: JobNo,
        report: CheckReport,
    ) -> Result<Frames, Fault>
        ensures answer { EachNow self.old
            (λ now. IsAnswer now (ToReport boot attempt job report) result) }
        ensures sent { EachNow self.old (λ now. IfOk result
            (λ frames. frames ≡ frames_to_client now.server
            (replies now (ToReport boot attempt job report)))) }
        ensures left { EachNow self.old (λ now. IfOk result
            (λ frames. MachineIs self.new (words_after now (ToReport boot attempt job report)))) }
        ensures same { OnErr result (self.new ≡ self.old) }
    {
        if boot != self.boot {
            return Err(Fault::OldBoot);
        }
        if !is_ready(&self.check, attempt, job) {
            return Err(Fault::NotInFlight);
        }
        let progress = Progress::Done(report);
        let frames = self.frames_of(job, &progress)?;
        note(&mut self.check, job, progress);
        Ok(frames)
    }

    /// The frames of what is said of a job of the open check that is so far.
    fn frames_of(&self, job: JobNo, progress: &Progress) -> Result<Frames, Fault>
        requires { has_job self.now.check job ≡ true }
        ensures sent { EachNow self.now (λ now. IfOk result (λ frames.
            frames ≡ frames_to_client now.server
            (frame_now job (progress_of progress.now) now.check))) }
        ensures memory { OnErr result (result ≡ Err NoMemory) }
    {
        let mut frames = Frames::new(self.alloc);
        if let Some(check) = &self.check {
            let body = check.body_of(job, progress);
            if say_if(self.alloc, self.me, body, &mut frames).is_err() {
                return Err(Fault::NoMemory);
            }
        }
        Ok(frames)
    }

    /// Holds a state for the check of its job, where that waits for it in this attempt; where the state
    /// doesn't fit, the client is told. Where memory runs out nothing changes.
    pub(crate) fn hold(&mut self, attempt: Attempt, state: &VerifyState) -> Result<Frames, Fault>
        ensures sent { EachNow self.old (λ now. IfOk result
            (λ frames. frames ≡ frames_to_client now.server
            (replies now (ToHold attempt state.now)))) }
        ensures left { EachNow self.old (λ now. IfOk result
            (λ frames. MachineIs self.new (words_after now (ToHold attempt state.now)))) }
        ensures same { OnErr result (self.new ≡ self.old) }
        ensures memory { OnErr result (result ≡ Err NoMemory) }
    {
        let Some(progress) = judge(&self.check, self.me, attempt, state) else {
            return Ok(Frames::new(self.alloc));
        };
        let job = state.key().job;
        let frames = self.frames_of(job, &progress)?;
        note(&mut self.check, job, progress);
        Ok(frames)
    }

    /// Makes the check of a job a full pass, where it waits for its state in this attempt.
    pub(crate) fn pass(&mut self, attempt: Attempt, job: JobNo)
        ensures { EachNow self.old
            (λ now. MachineIs self.new (words_after now (ToPassFully attempt job))) }
    {
        pass(&mut self.check, attempt, job);
    }
}

/// Makes the check of a job a full pass, where it waits for its state in this attempt.
fn pass(check: &mut Option<OpenCheck>, attempt: Attempt, job: JobNo)
    ensures { EachOpen check.old
        (λ me now_boot c. OpenIs me now_boot check.new
        (check_goes_on (ToPassFully attempt job) c)) }
{
    if let Some(check) = check {
        check.pass(attempt, job);
    }
}

/// Whether the check of a job may be made, in this attempt.
fn is_ready(check: &Option<OpenCheck>, attempt: Attempt, job: JobNo) -> bool
    ensures value { result ≡ ready_now check.now attempt job }
    ensures there { result ≡ true → has_job check.now job ≡ true }
{
    match check {
        Some(check) => check.is_ready(attempt, job),
        None => false,
    }
}

/// What a state makes of the job that it is for, where that waits for one in this attempt.
fn judge(
    check: &Option<OpenCheck>,
    me: ServerNo,
    attempt: Attempt,
    state: &VerifyState,
) -> Option<Progress>
    ensures value { option_map progress_of result ≡ judgement_now me check.now attempt state.now }
    ensures there { MatchOption result (Unit {0})
        (λ progress. has_job check.now state.now.key.job ≡ true) }
{
    match check {
        Some(check) => check.judge(me, attempt, state),
        None => None,
    }
}

/// Notes how far the check of a job is.
fn note(check: &mut Option<OpenCheck>, job: JobNo, progress: Progress)
    requires { has_job check.old job ≡ true }
    ensures { check.new ≡ option_map (with_progress job (progress_of progress)) check.old }
{
    if let Some(check) = check {
        check.set(job, progress);
    }
}
