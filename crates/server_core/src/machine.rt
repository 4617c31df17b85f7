//! What a server keeps of what came to it since it was restarted, and what each request makes of it.

ghost use Rattle.std.specs.Prelude.{◌≡◌, ◌<◌, IsTrue, IfOk, OnErr};
ghost use Rattle.fc_base.specs.declared.limits.TheConstants.{MAX_SERVERS};
ghost use Rattle.messages.specs.Ranges.{is_run};

mod check;
mod deliver;
mod look;
mod stage;
mod start;
mod take;
mod verify;

use crate::input::WriteEnd;
use crate::job_run::End;
use crate::open_check::OpenCheck;
use crate::replies::only;
use crate::run::Run;
use crate::staged::StagedSet;
use engine::{Issue, Ticket};
use fc_base::{Attempt, Fault, JobNo, RunNo, ServerNo};
use messages::{Act, Body, Frames, Reason, Refusal, RefusedRequest};
use std::alloc::{AllocError, Global};

/// What a server keeps of its words in memory.
#[derive(Drop)]
pub(crate) struct Machine {
    pub alloc: Global,
    pub me: ServerNo,
    pub boot: u64,
    pub last_run: RunNo,
    pub staged: Option<StagedSet>,
    pub run: Option<Run>,
    pub check: Option<OpenCheck>,
    ghost few: { me < MAX_SERVERS },
}

impl Machine {
    ghost use Rattle.server_core.specs.Request.{ToIssue, ToEnd, ToTrigger, ToMark, ToStop};
    ghost use Rattle.server_core.specs.Run.{is_open, is_unended};
    ghost use Rattle.server_core.specs.Answers.{issue_of, act_of, refusal_of};
    ghost use Rattle.server_core.specs.Replies.{replies, refuse, gone_or_unknown};
    ghost use Rattle.server_core.specs.Framed.{frames_to_client};
    ghost use Rattle.server_core.specs.Stands.{MachineIs, EachNow, blank};
    ghost use Rattle.server_core.specs.WordsAfter.{words_after};
    ghost use Rattle.server_core.specs.InnerCalls.{ok_unless_refused, IsOfRun, IsOfText};
    ghost use Rattle.server_core.specs.Memory.{TakesNone};
    ghost use Rattle.messages.specs.declared.refusal.Act.{Act};

    /// That of a server which was just restarted.
    pub(crate) fn new(alloc: Global, me: ServerNo, boot: u64, last_run: RunNo) -> Machine
        requires { me < MAX_SERVERS }
        ensures { MachineIs result (blank me boot last_run) }
    {
        Machine {
            alloc,
            me,
            boot,
            last_run,
            staged: None,
            run: None,
            check: None,
        }
    }

    /// Issues the next write of a job, or says why none is issued.
    pub(crate) fn issue(&mut self, job: JobNo) -> Issue
        ensures answer { EachNow self.old (λ now. result ≡ issue_of job now.run) }
        ensures left { EachNow self.old
            (λ now. MachineIs self.new (words_after now (ToIssue job))) }
    {
        match &mut self.run {
            Some(run) => run.issue(job),
            None => Issue::Stopped,
        }
    }

    /// Notes how a write ended. A ticket of another boot is refused, and then one that names no open
    /// write.
    pub(crate) fn end_write(&mut self, ticket: Ticket, end: WriteEnd) -> Result<(), Fault>
        ensures answer { EachNow self.old
            (λ now. result ≡ ok_unless_refused (refusal_of now (ToEnd ticket end))) }
        ensures left { EachNow self.old
            (λ now. MachineIs self.new (words_after now (ToEnd ticket end))) }
        ensures same { OnErr result (self.new ≡ self.old) }
        ensures memory { TakesNone result }
    {
        if ticket.boot != self.boot {
            return Err(Fault::OldBoot);
        }
        match &mut self.run {
            Some(run) => run.end_write(ticket, end),
            None => Err(Fault::NotInFlight),
        }
    }

    /// Takes the states of this run, where it is the present one and writes. Taken states are sent
    /// again. Where memory runs out nothing changes.
    pub(crate) fn trigger(&mut self, run: RunNo, act: Act) -> Result<Frames, AllocError>
        requires { IsTrue (is_run run) }
        ensures sent { EachNow self.old (λ now. IfOk result
            (λ frames. frames ≡ frames_to_client now.server (replies now (ToTrigger run act)))) }
        ensures left { EachNow self.old
            (λ now. IfOk result (λ frames. MachineIs self.new
            (words_after now (ToTrigger run act)))) }
        ensures same { OnErr result (self.new ≡ self.old) }
    {
        let frames = self.trigger_frames(run)?;
        match &mut self.run {
            Some(now) if now.is_writing(run) => {
                now.take(act);
                Ok(frames)
            }
            _ => Ok(frames),
        }
    }

    /// Stops this run, where it is the present one and writes. Where memory runs out nothing changes.
    pub(crate) fn stop(&mut self, run: RunNo) -> Result<Frames, AllocError>
        requires { IsTrue (is_run run) }
        ensures sent { EachNow self.old (λ now. IfOk result
            (λ frames. frames ≡ frames_to_client now.server (replies now (ToStop run)))) }
        ensures left { EachNow self.old
            (λ now. IfOk result (λ frames. MachineIs self.new (words_after now (ToStop run)))) }
        ensures same { OnErr result (self.new ≡ self.old) }
    {
        let frames = self.stop_frames(run)?;
        match &mut self.run {
            Some(now) if now.is_writing(run) => {
                now.stop();
                Ok(frames)
            }
            _ => Ok(frames),
        }
    }

    /// Marks a job of this run, where it is the present one and was taken. The mark of the last job
    /// asks for the cut, where the Trigger did.
    pub(crate) fn mark(&mut self, run: RunNo, job: JobNo) -> Act
        ensures answer { EachNow self.old (λ now. result ≡ act_of now.run (ToMark run job)) }
        ensures left { EachNow self.old
            (λ now. MachineIs self.new (words_after now (ToMark run job))) }
    {
        match &mut self.run {
            Some(now) if now.is(run) => now.mark(job),
            _ => Act::None,
        }
    }

    /// What is sent in answer to a Trigger.
    fn trigger_frames(&self, run: RunNo) -> Result<Frames, AllocError>
        requires { IsTrue (is_run run) }
        ensures { EachNow self.now (λ now. (act : Act) → IfOk result
            (λ frames. frames ≡ frames_to_client now.server (replies now (ToTrigger run act)))) }
    {
        match &self.run {
            Some(now) if now.is(run) => match now.end() {
                Some(End::Stopped) => self.refuse(
                    RefusedRequest::Trigger,
                    Reason::Gone,
                    run,
                    self.last_run.0,
                ),
                Some(End::Taken(_)) | None => now.state_frames(self.alloc, self.me),
            },
            _ => self.gone_or_unknown(RefusedRequest::Trigger, run),
        }
    }

    /// What is sent in answer to a Stop.
    fn stop_frames(&self, run: RunNo) -> Result<Frames, AllocError>
        requires { IsTrue (is_run run) }
        ensures { EachNow self.now (λ now. IfOk result
            (λ frames. frames ≡ frames_to_client now.server (replies now (ToStop run)))) }
    {
        match &self.run {
            Some(now) if now.is(run) => only(self.alloc, self.me, Body::Stopped { run }),
            _ => self.gone_or_unknown(RefusedRequest::Stop, run),
        }
    }

    /// Whether some write of the present run is open.
    fn is_open(&self) -> bool
        ensures { EachNow self.now (λ now. result ≡ is_open now.run) }
    {
        match &self.run {
            Some(run) => run.has_open(),
            None => false,
        }
    }

    /// Whether the present run writes, and a job of it has yet to end.
    fn is_unended(&self) -> bool
        ensures { EachNow self.now (λ now. result ≡ is_unended now.run) }
    {
        match &self.run {
            Some(run) => run.end().is_none() && !run.have_ended(),
            None => false,
        }
    }

    /// A request for a run that isn't the present one: it is gone, or was never there.
    fn gone_or_unknown(&self, asked: RefusedRequest, run: RunNo) -> Result<Frames, AllocError>
        requires run { IsTrue (is_run run) }
        requires asked { IsOfRun asked }
        ensures { IfOk result
            (λ frames. frames ≡ frames_to_client self.now.me
            (gone_or_unknown asked run self.now.last_run)) }
    {
        let reason = if run <= self.last_run {
            Reason::Gone
        } else {
            Reason::Unknown
        };
        self.refuse(asked, reason, run, self.last_run.0)
    }

    /// A refusal of a request for a run, with a value.
    fn refuse(
        &self,
        asked: RefusedRequest,
        reason: Reason,
        run: RunNo,
        value: u64,
    ) -> Result<Frames, AllocError>
        requires run { IsTrue (is_run run) }
        requires asked { IsOfRun asked }
        requires reason { IsOfText reason }
        ensures { IfOk result
            (λ frames. frames ≡ frames_to_client self.now.me (refuse asked reason run 0 value)) }
    {
        let refusal = Refusal {
            asked,
            reason,
            job: JobNo(0),
            jobs: 0,
            run,
            attempt: Attempt(0),
            value,
        };
        only(self.alloc, self.me, Body::Refused(refusal))
    }
}
