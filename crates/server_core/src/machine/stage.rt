//! A run is staged, and begins.

ghost use Rattle.std.specs.Prelude.{◌≡◌, IsTrue, IfOk, OnErr, Some, Err, ◌<◌, ◌∷◌, [], length, max, MatchOption};
ghost use Rattle.std.specs.Option.{option_map, option_or};
ghost use Rattle.fc_base.specs.declared.limits.TheConstants.{MAX_SERVERS};
ghost use Rattle.fc_base.specs.declared.fault.Fault.TheVariants.{NoMemory};
ghost use Rattle.messages.specs.Ranges.{is_run, is_jobs};
ghost use Rattle.server_core.specs.Words.{Staged, for_run};
ghost use Rattle.server_core.specs.Replies.{replies, number_staged};
ghost use Rattle.server_core.specs.Request.{ToStage};
ghost use Rattle.server_core.specs.Framed.{frames_to_client};
ghost use Rattle.server_core.specs.Stands.{MachineIs, EachNow};
ghost use Rattle.server_core.specs.WordsAfter.{words_after};
ghost use Rattle.server_core.specs.InnerCalls.{frames_without_staging};
ghost use Rattle.messages.specs.declared.body.Body.TheVariants.{JobsOk};

use super::Machine;
use crate::replies::only;
use crate::staged::StagedSet;
use crate::texts::jobs_for;
use fc_base::{Fault, RunNo, ServerNo};
use job_file::Phase;
use messages::{Body, Frames, Reason, RefusedRequest};
use std::alloc::{AllocError, Global};

impl Machine {
    /// Stages the jobs of a text for a run. The staged run is answered again. Where memory runs out
    /// nothing changes.
    pub(crate) fn stage(&mut self, run: RunNo, text: &[u8]) -> Result<Frames, Fault>
        requires { IsTrue (is_run run) }
        ensures sent { EachNow self.old (λ now. IfOk result
            (λ frames. frames ≡ frames_to_client now.server (replies now (ToStage run text.now)))) }
        ensures left { EachNow self.old
            (λ now. IfOk result (λ frames. MachineIs self.new
            (words_after now (ToStage run text.now)))) }
        ensures same { OnErr result (self.new ≡ self.old) }
        ensures memory { OnErr result (result ≡ Err NoMemory) }
    {
        let StagePlan { frames, new } = self.staging(run, text)?;
        keep(&mut self.staged, new);
        Ok(frames)
    }

    /// What is sent in answer to a text, and what is staged by it.
    fn staging(&self, run: RunNo, text: &[u8]) -> Result<StagePlan, Fault>
        requires { IsTrue (is_run run) }
        ensures sent { EachNow self.now (λ now. IfOk result
            (λ s. s.frames ≡ frames_to_client now.server (replies now (ToStage run text.now)))) }
        ensures staged { EachNow self.now (λ now. IfOk result
            (λ s. option_or s.new now.staged ≡ (words_after now (ToStage run text.now)).staged)) }
        ensures memory { OnErr result (result ≡ Err NoMemory) }
    {
        if run <= self.last_run || run < self.staged_run() {
            return unstaged(self.refuse(
                RefusedRequest::Jobs,
                Reason::Old,
                run,
                self.greatest_run(),
            ));
        }
        if let Some(jobs) = self.staged_jobs(run) {
            return unstaged(only(self.alloc, self.me, Body::JobsOk { run, jobs }));
        }
        if self.is_open() {
            return unstaged(self.refuse(RefusedRequest::Jobs, Reason::Busy, run, 0));
        }
        match jobs_for(self.alloc, Phase::Write, text) {
            Ok(jobs) => staged(self.alloc, self.me, StagedSet::new(run, jobs)),
            Err(Fault::NoMemory) => Err(Fault::NoMemory),
            Err(fault) => {
                unstaged(self.refuse(
                    RefusedRequest::Jobs,
                    Reason::BadJobs,
                    run,
                    u64::from(fault.number()),
                ))
            }
        }
    }

    /// The staged run, 0 where there is none.
    pub(super) fn staged_run(&self) -> RunNo
        ensures { result ≡ number_staged self.now.staged }
    {
        match &self.staged {
            Some(staged) => staged.run(),
            None => RunNo(0),
        }
    }

    /// The greater of the last run and the staged one.
    fn greatest_run(&self) -> u64
        ensures { result ≡ max self.now.last_run (number_staged self.now.staged) }
    {
        self.last_run.0.max(self.staged_run().0)
    }

    /// How many jobs are staged for this run, if it is the staged one.
    pub(super) fn staged_jobs(&self, run: RunNo) -> Option<u32>
        ensures value { result ≡ option_map
            (λ (s : Staged). length s.jobs) (for_run run self.now.staged) }
        ensures range { MatchOption result (Unit {0}) (λ jobs. IsTrue (is_jobs jobs)) }
    {
        match &self.staged {
            Some(staged) if staged.run() == run => Some(staged.len()),
            _ => None,
        }
    }
}

/// What a text leads to.
struct StagePlan {
    frames: Frames,
    /// What is staged in place of what was, if anything.
    new: Option<StagedSet>,
}

/// Keeps a set in place of what was staged, if there is one.
fn keep(slot: &mut Option<StagedSet>, new: Option<StagedSet>)
    ensures { slot.new ≡ option_or new slot.old }
{
    if let Some(set) = new {
        *slot = Some(set);
    }
}

/// These frames, and nothing is staged.
fn unstaged(frames: Result<Frames, AllocError>) -> Result<StagePlan, Fault>
    ensures { result ≡ frames_without_staging frames }
{
    match frames {
        Ok(frames) => Ok(StagePlan { frames, new: None }),
        Err(_) => Err(Fault::NoMemory),
    }
}

/// This set is staged, and the client is told.
fn staged(alloc: Global, me: ServerNo, set: StagedSet) -> Result<StagePlan, Fault>
    requires { me < MAX_SERVERS }
    ensures ok { IfOk result (λ s.
        (s.frames ≡ frames_to_client me (JobsOk set.run (length set.jobs) ∷ []))
        × (s.new ≡ Some set)) }
    ensures memory { OnErr result (result ≡ Err NoMemory) }
{
    let body = Body::JobsOk {
        run: set.run(),
        jobs: set.len(),
    };
    match only(alloc, me, body) {
        Ok(frames) => Ok(StagePlan {
            frames,
            new: Some(set),
        }),
        Err(_) => Err(Fault::NoMemory),
    }
}
