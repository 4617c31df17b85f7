//! A Verify opens a check.

ghost use Rattle.std.specs.Prelude.{◌≡◌, ◌<◌, IsTrue, IfOk, OnErr, Err, None, true};
ghost use Rattle.std.specs.Option.{option_map, option_or};
ghost use Rattle.fc_base.specs.declared.fault.Fault.TheVariants.{NoMemory};
ghost use Rattle.messages.specs.Ranges.{is_attempt as in_range, is_run};
ghost use Rattle.messages.specs.declared.refusal.RefusedRequest.TheVariants.{Verify};
ghost use Rattle.server_core.specs.Request.{ToVerify};
ghost use Rattle.server_core.specs.Check.{opens};
ghost use Rattle.server_core.specs.KeptCheck.{CheckKept};
ghost use Rattle.server_core.specs.Replies.{refuse, replies, reply_to_new_check};
ghost use Rattle.server_core.specs.Laws.{IsSet};
ghost use Rattle.server_core.specs.Framed.{frames_to_client};
ghost use Rattle.server_core.specs.Stands.{MachineIs, EachNow, OpenIs};
ghost use Rattle.server_core.specs.WordsAfter.{words_after, opened_anew};
ghost use Rattle.server_core.specs.InnerCalls.{IsOfText, checked_again, Opened, frames_without_check};

use super::Machine;
use crate::open_check::{OpenCheck, progress_of_jobs};
use crate::replies::only;
use crate::texts::jobs_for;
use fc_base::{Attempt, Fault, JobNo, RunNo};
use job_file::{Jobs, Phase};
use messages::{Body, Frames, Reason, Refusal, RefusedRequest};
use std::alloc::AllocError;

impl Machine {
    /// Opens a check of the last run in a new attempt, by a text. That of the same attempt is answered
    /// again. Where memory runs out nothing changes.
    pub(crate) fn verify(
        &mut self,
        run: RunNo,
        attempt: Attempt,
        text: &[u8],
    ) -> Result<Frames, Fault>
        requires run { IsTrue (is_run run) }
        requires attempt { IsTrue (in_range attempt) }
        ensures sent { EachNow self.old (λ now. IfOk result
            (λ frames. frames ≡ frames_to_client now.server
            (replies now (ToVerify run attempt text.now)))) }
        ensures left { EachNow self.old (λ now. IfOk result
            (λ frames. MachineIs self.new (words_after now (ToVerify run attempt text.now)))) }
        ensures same { OnErr result (self.new ≡ self.old) }
        ensures memory { OnErr result (result ≡ Err NoMemory) }
    {
        let VerifyPlan { frames, new } = self.verifying(run, attempt, text)?;
        keep(&mut self.check, new);
        Ok(frames)
    }

    /// What is sent in answer to a Verify, and the check that it opens.
    fn verifying(&self, run: RunNo, attempt: Attempt, text: &[u8]) -> Result<VerifyPlan, Fault>
        requires run { IsTrue (is_run run) }
        requires attempt { IsTrue (in_range attempt) }
        ensures sent { EachNow self.now (λ now. IfOk result
            (λ v. v.frames ≡ frames_to_client now.server
            (replies now (ToVerify run attempt text.now)))) }
        ensures opened { EachNow self.now (λ now. IfOk result
            (λ v. OpenIs now.server now.boot v.new
            (opens true now.server now.boot now.last now.run now.check
            (ToVerify run attempt text.now)))) }
        ensures memory { OnErr result (result ≡ Err NoMemory) }
    {
        if run > self.last_run {
            return self.refuse_verify(Reason::Unknown, run, attempt, self.last_run.0);
        }
        if run < self.last_run {
            return self.refuse_verify(Reason::Overwritten, run, attempt, self.last_run.0);
        }
        match self.attempt() {
            Some(open) if attempt < open => {
                self.refuse_verify(Reason::Old, run, attempt, open.0)
            }
            Some(open) if attempt == open => self.check_again(),
            _ => self.verify_anew(run, attempt, text),
        }
    }

    /// The same of an attempt above that of the open check.
    fn verify_anew(&self, run: RunNo, attempt: Attempt, text: &[u8]) -> Result<VerifyPlan, Fault>
        requires run { IsTrue (is_run run) }
        requires attempt { IsTrue (in_range attempt) }
        ensures sent { EachNow self.now (λ now. IfOk result
            (λ v. v.frames ≡ frames_to_client now.server
            (reply_to_new_check now run attempt text.now))) }
        ensures opened { EachNow self.now (λ now. IfOk result
            (λ v. OpenIs now.server now.boot v.new
            (opened_anew now.server now.boot now.run run attempt text.now))) }
        ensures memory { OnErr result (result ≡ Err NoMemory) }
    {
        if self.is_open() || self.is_unended() {
            return self.refuse_verify(Reason::Busy, run, attempt, 0);
        }
        match jobs_for(self.alloc, Phase::Read, text) {
            Ok(jobs) => self.opened(run, attempt, jobs),
            Err(Fault::NoMemory) => Err(Fault::NoMemory),
            Err(fault) => {
                self.refuse_verify(Reason::BadJobs, run, attempt, u64::from(fault.number()))
            }
        }
    }

    /// A check of these jobs is opened.
    fn opened(&self, run: RunNo, attempt: Attempt, jobs: Jobs) -> Result<VerifyPlan, Fault>
        requires run { IsTrue (is_run run) }
        requires attempt { IsTrue (in_range attempt) }
        requires jobs { IsSet jobs }
        ensures opened { EachNow self.now (λ now. IfOk result
            (λ v. Opened now.server now.boot run attempt jobs v)) }
        ensures memory { OnErr result (result ≡ Err NoMemory) }
    {
        let Ok(progress) = progress_of_jobs(self.alloc, jobs.as_slice()) else {
            return Err(Fault::NoMemory);
        };
        let check = OpenCheck::new(run, attempt, jobs, progress);
        match check.frames(self.alloc, self.me) {
            Ok(frames) => Ok(VerifyPlan {
                frames,
                new: Some(check),
            }),
            Err(_) => Err(Fault::NoMemory),
        }
    }

    /// The attempt of the open check, if there is one.
    fn attempt(&self) -> Option<Attempt>
        ensures { result ≡ option_map (λ (k : CheckKept). k.attempt) self.now.check }
    {
        match &self.check {
            Some(check) => Some(check.attempt()),
            None => None,
        }
    }

    /// The open check is told again.
    fn check_again(&self) -> Result<VerifyPlan, Fault>
        ensures sent { EachNow self.now (λ now. IfOk result
            (λ v. v.frames ≡ frames_to_client now.server (checked_again now.check))) }
        ensures opened { IfOk result (λ v. v.new ≡ None) }
        ensures memory { OnErr result (result ≡ Err NoMemory) }
    {
        match &self.check {
            Some(check) => unopened(check.frames(self.alloc, self.me)),
            None => unopened(Ok(Frames::new(self.alloc))),
        }
    }

    /// A Verify is refused.
    fn refuse_verify(
        &self,
        reason: Reason,
        run: RunNo,
        attempt: Attempt,
        value: u64,
    ) -> Result<VerifyPlan, Fault>
        requires run { IsTrue (is_run run) }
        requires attempt { IsTrue (in_range attempt) }
        requires reason { IsOfText reason }
        ensures sent { IfOk result
            (λ v. v.frames ≡ frames_to_client self.now.me
            (refuse Verify reason run attempt value)) }
        ensures opened { IfOk result (λ v. v.new ≡ None) }
        ensures memory { OnErr result (result ≡ Err NoMemory) }
    {
        let refusal = Refusal {
            asked: RefusedRequest::Verify,
            reason,
            job: JobNo(0),
            jobs: 0,
            run,
            attempt,
            value,
        };
        unopened(only(self.alloc, self.me, Body::Refused(refusal)))
    }
}

/// What a Verify leads to.
struct VerifyPlan {
    frames: Frames,
    /// The check that takes the place of the open one, if one does.
    new: Option<OpenCheck>,
}

/// These frames, and no check is opened.
fn unopened(frames: Result<Frames, AllocError>) -> Result<VerifyPlan, Fault>
    ensures { result ≡ frames_without_check frames }
{
    match frames {
        Ok(frames) => Ok(VerifyPlan { frames, new: None }),
        Err(_) => Err(Fault::NoMemory),
    }
}

/// Keeps a check in place of the open one, if there is one.
fn keep(slot: &mut Option<OpenCheck>, new: Option<OpenCheck>)
    ensures { slot.new ≡ option_or new slot.old }
{
    if let Some(check) = new {
        *slot = Some(check);
    }
}
