//! The open check.

ghost use Rattle.std.specs.Prelude.{◌≡◌, ◌<◌, ◌≤◌, ◌==◌, ◌&&◌, ◌∷◌, length, map, set, slice_get, IsTrue, IfOk};
ghost use Rattle.std.specs.Option.{option_copied, option_map};
ghost use Rattle.fc_base.specs.declared.limits.TheConstants.{MAX_JOBS};
ghost use Rattle.messages.specs.Ranges.{is_attempt as in_range, is_run};
ghost use Rattle.server_core.specs.KeptCheck.{progress_of, progress_begun};

mod replies;

use crate::job_run::index_of;
use crate::progress::Progress;
use fc_base::{Attempt, JobNo, Key, RunNo, ServerNo};
use job_file::{Job, Jobs};
use std::alloc::{AllocError, Global};
use std::marker::Model;
use verify_state::VerifyState;

/// The open check: that of the last Verify that was accepted since the server was restarted, with no
/// accepted Start since.
#[derive(Drop)]
pub(crate) struct OpenCheck {
    run: RunNo,
    attempt: Attempt,
    jobs: Jobs,
    progress: Vec<Progress>,
}

impl Model for OpenCheck {
    ghost use Rattle.server_core.specs.KeptCheck.{CheckKept};

    ghost Value = { CheckKept };

    ghost use Rattle.server_core.specs.InsideCheck.{check_in, IsCheck};

    ghost view = { check_in };

    ghost invariant = { IsCheck };
}

impl OpenCheck {
    ghost use Rattle.server_core.specs.Request.{ToPassFully};
    ghost use Rattle.server_core.specs.KeptCheck.{CheckKept, GoesOn, judgement, ready_in, wants_in};

    /// A check that is opened.
    pub(crate) fn new(
        run: RunNo,
        attempt: Attempt,
        jobs: Jobs,
        progress: Vec<Progress>,
    ) -> OpenCheck
        requires run { IsTrue (is_run run) }
        requires attempt { IsTrue (in_range attempt) }
        requires some { 1 ≤ length jobs }
        requires few { length jobs ≤ MAX_JOBS }
        requires progress { length progress.items ≡ length jobs }
        ensures { result ≡ record {
          run = run;
          attempt = attempt;
          jobs = jobs;
          progress = map progress_of progress.items;
        } }
    {
        OpenCheck {
            run,
            attempt,
            jobs,
            progress,
        }
    }

    /// The attempt.
    pub(crate) fn attempt(&self) -> Attempt
        ensures { result ≡ self.now.attempt }
    {
        self.attempt
    }

    /// A job of it.
    pub(crate) fn job(&self, job: JobNo) -> Option<&Job>
        ensures { option_copied result ≡ slice_get self.now.jobs job }
    {
        self.jobs.as_slice().get(index_of(job))
    }

    /// How far the check of a job is, where there is such a job.
    pub(crate) fn progress(&self, job: JobNo) -> Option<&Progress>
        ensures { option_map progress_of (option_copied result) ≡ slice_get self.now.progress job }
    {
        self.progress.get(index_of(job))
    }

    /// Whether a job waits for its state, in this attempt.
    fn wants(&self, attempt: Attempt, job: JobNo) -> bool
        ensures { result ≡ wants_in self.now attempt job }
    {
        attempt == self.attempt && matches!(self.progress(job), Some(Progress::Wanting))
    }

    /// Whether the check of a job may be made, in this attempt: it is a full pass, or has its state.
    pub(crate) fn is_ready(&self, attempt: Attempt, job: JobNo) -> bool
        ensures { result ≡ ready_in self.now attempt job }
    {
        self.attempt == attempt
            && matches!(self.progress(job), Some(Progress::Full | Progress::With(_)))
    }

    /// What a state makes of the job that it is for, where that waits for one in this attempt.
    pub(crate) fn judge(
        &self,
        me: ServerNo,
        attempt: Attempt,
        state: &VerifyState,
    ) -> Option<Progress>
        ensures { option_map progress_of result ≡ judgement me self.now attempt state.now }
    {
        let job = state.key().job;
        if !self.wants(attempt, job) {
            return None;
        }
        let key = Key {
            run: self.run,
            server: me,
            job,
        };
        let rec = &self.jobs.as_slice()[index_of(job)].rec;
        match state.fits(key, rec) {
            Ok(()) => Some(Progress::With(*state)),
            Err(fault) => Some(Progress::Refused(fault)),
        }
    }

    /// Notes how far the check of a job is.
    pub(crate) fn set(&mut self, job: JobNo, progress: Progress)
        requires { job < length self.old.progress }
        ensures { self.new ≡ record self.old {
          progress = set self.old.progress job (progress_of progress);
        } }
    {
        self.progress[index_of(job)] = progress;
    }

    /// Makes the check of a job a full pass, where it waits for its state in this attempt.
    pub(crate) fn pass(&mut self, attempt: Attempt, job: JobNo)
        ensures { GoesOn self.old self.new (ToPassFully attempt job) }
    {
        if self.wants(attempt, job) {
            self.set(job, Progress::Full);
        }
    }
}

/// How far the check of each of these jobs is at first: those that load their state wait for it.
pub(crate) fn progress_of_jobs(alloc: Global, jobs: &[Job]) -> Result<Vec<Progress>, AllocError>
    ensures { IfOk result
        (λ progress. map progress_of progress.items ≡ map progress_begun jobs.now) }
{
    let mut progress = Vec::with_capacity(alloc, jobs.len())?;
    for job in jobs {
        progress.push(if job.load {
            Progress::Wanting
        } else {
            Progress::Full
        })?;
    }
    Ok(progress)
}
