//! What a run says of the states of its jobs.

ghost use Rattle.std.specs.Prelude.{◌≡◌, ◌<◌, ◌≤◌, IsTrue, IfOk, Some, length, slice_get};
ghost use Rattle.fc_base.specs.declared.limits.TheConstants.{MAX_JOBS, MAX_SERVERS};
ghost use Rattle.job_file.specs.declared.job.Job.{Job};
ghost use Rattle.messages.specs.Ranges.{is_body};
ghost use Rattle.server_core.specs.Kept.{EachRun, state_body};
ghost use Rattle.server_core.specs.Framed.{frames_to_client};
ghost use Rattle.server_core.specs.Replies.{state_frame, state_frames};
ghost use Rattle.server_core.specs.Kept.{asked_before};

use super::Run;
use crate::replies::say;
use fc_base::{JobNo, RunNo, ServerNo};
use messages::{Body, Frames};
use std::alloc::{AllocError, Global};
use verify_state::VerifyState;

impl Run {
    /// The frames of the state of each job: the one that was taken, else that of now.
    pub(crate) fn state_frames(&self, alloc: Global, me: ServerNo) -> Result<Frames, AllocError>
        requires { me < MAX_SERVERS }
        ensures { EachRun self.now (λ w. IfOk result
            (λ frames. frames ≡ frames_to_client me (state_frames w (asked_before w) 0 w.jobs))) }
    {
        let mut frames = Frames::new(alloc);
        let mut index = 0;
        while index < self.kept.as_slice().len() {
            say(alloc, me, self.state_body(index), &mut frames)?;
            index += 1;
        }
        Ok(frames)
    }

    /// What is said of the job at an index.
    fn state_body(&self, index: usize) -> Body
        requires { index < length self.now.kept }
        ensures value { EachRun self.now (λ w. (job : Job) → slice_get w.jobs index ≡ Some job →
            result ≡ state_frame w index job (asked_before w)) }
        ensures range { IsTrue (is_body result) }
    {
        let jobs = self.len();
        body_of(
            self.number,
            jobs,
            JobNo(index as u32),
            self.kept[index].state(),
        )
    }

    /// How many jobs it has.
    pub fn len(&self) -> u32
        ensures value { result ≡ length self.now.jobs }
        ensures kept { result ≡ length self.now.kept }
        ensures some { 1 ≤ result }
        ensures few { result ≤ MAX_JOBS }
    {
        self.jobs.as_slice().len() as u32
    }
}

/// A job's state, or that it has none.
fn body_of(run: RunNo, jobs: u32, job: JobNo, state: Option<VerifyState>) -> Body
    ensures { result ≡ state_body run jobs job state }
{
    match state {
        Some(state) => Body::State { jobs, state },
        None => Body::NoState { run, job, jobs },
    }
}
