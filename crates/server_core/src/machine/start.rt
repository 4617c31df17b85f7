//! A staged run begins.

ghost use Rattle.std.specs.Prelude.{◌≡◌, IsTrue, IfOk, OnErr, MatchOption, Err, Some, is_some, true};
ghost use Rattle.fc_base.specs.declared.fault.Fault.TheVariants.{NoMemory};
ghost use Rattle.messages.specs.Ranges.{is_run};
ghost use Rattle.server_core.specs.declared.input.Input.TheVariants.{Deliver};
ghost use Rattle.server_core.specs.Request.{ToStart, request_of};
ghost use Rattle.server_core.specs.Words.{Staged, due_by};
ghost use Rattle.server_core.specs.Replies.{present, replies};
ghost use Rattle.server_core.specs.Framed.{frames_to_client};
ghost use Rattle.server_core.specs.Kept.{jobs_kept, new_work};
ghost use Rattle.server_core.specs.Stands.{MachineIs, EachNow};
ghost use Rattle.server_core.specs.WordsAfter.{IsDueFor, begun_by};
ghost use Rattle.server_core.specs.InnerCalls.{lacks};

use super::Machine;
use crate::input::Input;
use crate::job_run::JobRun;
use crate::replies::only;
use fc_base::{Fault, RunNo};
use messages::{Body, Frames, Packet, Reason, RefusedRequest};
use std::alloc::AllocError;

impl Machine {
    /// The run that what comes is due to record, if there is one.
    pub(crate) fn due(&self, input: &Input<Packet>) -> Option<RunNo>
        ensures due { EachNow self.now
            (λ now. IsDueFor now (request_of self.now.me input.now) result) }
        ensures range { MatchOption result (Unit {0}) (λ run. IsTrue (is_run run)) }
    {
        match input {
            Input::Deliver(packet) => self.due_by(packet),
            _ => None,
        }
    }

    /// The run that a packet is due to record, if there is one.
    pub(crate) fn due_by(&self, packet: &Packet) -> Option<RunNo>
        ensures due { EachNow self.now
            (λ now. IsDueFor now (request_of self.now.me (Deliver packet.now)) result) }
        ensures range { MatchOption result (Unit {0}) (λ run. IsTrue (is_run run)) }
    {
        packet.keeps_its_ranges();
        if !packet.from().is_client() || !packet.to().is_server(self.me) {
            return None;
        }
        match packet.body() {
            Body::Start { run } if self.is_due(*run) => Some(*run),
            _ => None,
        }
    }

    /// Whether a Start of this run is due to record it: the run is staged and above the last, and no
    /// write is open.
    pub(crate) fn is_due(&self, run: RunNo) -> bool
        ensures { EachNow self.now
            (λ now. result ≡ is_some (due_by true now.last now.staged now.run (ToStart run))) }
    {
        run > self.last_run && !self.is_open() && self.staged_jobs(run).is_some()
    }

    /// What is sent in answer to a Start.
    pub(crate) fn start_frames(&self, run: RunNo) -> Result<Frames, Fault>
        requires { IsTrue (is_run run) }
        ensures sent { EachNow self.now (λ now. IfOk result
            (λ frames. frames ≡ frames_to_client now.server (replies now (ToStart run)))) }
        ensures memory { OnErr result (result ≡ Err NoMemory) }
    {
        if self.is_present(run) {
            return lacking(only(self.alloc, self.me, Body::Started { run }));
        }
        if run <= self.last_run {
            return lacking(self.refuse(RefusedRequest::Start, Reason::Old, run, self.last_run.0));
        }
        if self.staged_jobs(run).is_none() {
            return lacking(self.refuse(RefusedRequest::Start, Reason::NoJobs, run, 0));
        }
        if self.is_open() {
            return lacking(self.refuse(RefusedRequest::Start, Reason::Busy, run, 0));
        }
        lacking(only(self.alloc, self.me, Body::Started { run }))
    }

    /// The engines of the staged run, for which all its memory is taken.
    pub(crate) fn engines(&self) -> Result<Vec<JobRun>, Fault>
        ensures engines { IfOk result (λ kept. MatchOption self.now.staged (Unit {0})
            (λ (s : Staged). kept.items
            ≡ jobs_kept (new_work self.now.me self.now.boot s) 0 s.jobs)) }
        ensures memory { OnErr result (result ≡ Err NoMemory) }
    {
        let engines = match &self.staged {
            Some(staged) => staged.engines(self.alloc, self.me, self.boot),
            None => Ok(Vec::new(self.alloc)),
        };
        match engines {
            Ok(engines) => Ok(engines),
            Err(_) => Err(Fault::NoMemory),
        }
    }

    /// The staged run begins with these engines. Any check is closed.
    pub(crate) fn begin(&mut self, engines: Vec<JobRun>)
        requires { MatchOption self.old.staged (Unit {0}) (λ (s : Staged).
            engines.items ≡ jobs_kept (new_work self.old.me self.old.boot s) 0 s.jobs) }
        ensures { EachNow self.old (λ now. (s : Staged) → now.staged ≡ Some s →
            MachineIs self.new (begun_by now s)) }
    {
        if let Some(staged) = self.staged.take() {
            self.last_run = staged.run();
            self.run = Some(staged.start(self.me, self.boot, engines));
            self.check = None;
        }
    }

    /// Whether this run is the present one.
    fn is_present(&self, run: RunNo) -> bool
        ensures { EachNow self.now (λ now. result ≡ is_some (present run now.run)) }
    {
        match &self.run {
            Some(now) => now.is(run),
            None => false,
        }
    }
}

/// Want of memory, as a fault.
fn lacking(frames: Result<Frames, AllocError>) -> Result<Frames, Fault>
    ensures { result ≡ lacks frames }
{
    match frames {
        Ok(frames) => Ok(frames),
        Err(_) => Err(Fault::NoMemory),
    }
}
