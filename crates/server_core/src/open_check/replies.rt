//! What a check says of its jobs.

ghost use Rattle.std.specs.Prelude.{◌≡◌, ◌<◌, IsTrue, IfOk, length, MatchOption};
ghost use Rattle.fc_base.specs.declared.limits.TheConstants.{MAX_SERVERS};
ghost use Rattle.messages.specs.Ranges.{is_body};
ghost use Rattle.server_core.specs.Framed.{frames_to_client, one_or_none};
ghost use Rattle.server_core.specs.Replies.{progress_frame, check_frames};
ghost use Rattle.server_core.specs.KeptCheck.{EachCheck, progress_of, misfit_of};
ghost use Rattle.fc_base.specs.Fault.{number_of};

use super::OpenCheck;
use crate::progress::Progress;
use crate::replies::say_if;
use fc_base::{Fault, JobNo, ServerNo};
use messages::{Body, Frames, Reason, Refusal, RefusedRequest};
use std::alloc::{AllocError, Global};

impl OpenCheck {
    /// The frames of each job that wants its state, has its report, or whose state didn't fit.
    pub(crate) fn frames(&self, alloc: Global, me: ServerNo) -> Result<Frames, AllocError>
        requires { me < MAX_SERVERS }
        ensures { EachCheck self.now (λ c. IfOk result
            (λ frames. frames ≡ frames_to_client me (check_frames c))) }
    {
        let mut frames = Frames::new(alloc);
        let mut index = 0;
        while index < self.progress.as_slice().len() {
            let body = self.body_of(JobNo(index as u32), &self.progress[index]);
            say_if(alloc, me, body, &mut frames)?;
            index += 1;
        }
        Ok(frames)
    }

    /// What is said of a job whose check is so far.
    pub(crate) fn body_of(&self, job: JobNo, progress: &Progress) -> Option<Body>
        requires { job < length self.now.progress }
        ensures value { EachCheck self.now (λ c.
            one_or_none result ≡ progress_frame c job (progress_of progress.now)) }
        ensures range { MatchOption result (Unit {0}) (λ body. IsTrue (is_body body)) }
    {
        match progress {
            Progress::Wanting => Some(Body::WantState {
                run: self.run,
                attempt: self.attempt,
                job,
            }),
            Progress::Full | Progress::With(_) => None,
            Progress::Refused(fault) => Some(Body::Refused(self.misfit(job, *fault))),
            Progress::Done(report) => {
                let _in_range = report.parts();
                Some(Body::Report {
                    run: self.run,
                    attempt: self.attempt,
                    job,
                    jobs: self.jobs.as_slice().len() as u32,
                    report: *report,
                })
            }
        }
    }

    /// The refusal of a state that doesn't fit a job.
    fn misfit(&self, job: JobNo, fault: Fault) -> Refusal
        ensures { result ≡ misfit_of self.now job (number_of fault) }
    {
        Refusal {
            asked: RefusedRequest::Verify,
            reason: Reason::Misfit,
            job,
            jobs: self.jobs.as_slice().len() as u32,
            run: self.run,
            attempt: self.attempt,
            value: u64::from(fault.number()),
        }
    }
}
