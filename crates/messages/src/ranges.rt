//! The ranges of the numbers in a body.

ghost use Rattle.std.specs.Prelude.{◌≡◌};
ghost use Rattle.messages.specs.Ranges.{is_word, is_run, is_attempt, is_jobs, is_job, is_job_of, is_server_no, is_generation, is_job_refused, is_attempt_refused, is_refusal};

use crate::refusal::{Reason, Refusal, RefusedRequest};
use fc_base::{Attempt, Generation, JobNo, MAX_GENERATION, MAX_JOBS, MAX_SERVERS, RunNo, ServerNo};

/// Every number of eight bytes may go with a reason.
fn is_value(value: u64) -> bool
    ensures { result ≡ is_word value }
{
    value <= u64::MAX
}

pub(crate) fn is_run(run: RunNo) -> bool
    ensures { result ≡ is_run run }
{
    1 <= run.0
}

pub(crate) fn is_attempt(attempt: Attempt) -> bool
    ensures { result ≡ is_attempt attempt }
{
    1 <= attempt.0
}

pub(crate) fn is_jobs(jobs: u32) -> bool
    ensures { result ≡ is_jobs jobs }
{
    1 <= jobs && jobs <= MAX_JOBS
}

pub(crate) fn is_job(job: JobNo) -> bool
    ensures { result ≡ is_job job }
{
    job.0 < MAX_JOBS
}

pub(crate) fn is_job_of(job: JobNo, jobs: u32) -> bool
    ensures { result ≡ is_job_of job jobs }
{
    is_jobs(jobs) && job.0 < jobs
}

pub(crate) fn is_server_no(server: ServerNo) -> bool
    ensures { result ≡ is_server_no server }
{
    server.0 < MAX_SERVERS
}

pub(crate) fn is_generation(generation: Generation) -> bool
    ensures { result ≡ is_generation generation }
{
    1 <= generation.0 && generation.0 <= MAX_GENERATION
}

fn is_job_refused(reason: Reason, job: JobNo, jobs: u32) -> bool
    ensures { result ≡ is_job_refused reason job jobs }
{
    match reason {
        Reason::Misfit => is_job_of(job, jobs),
        _ => job.0 == 0 && jobs == 0,
    }
}

fn is_attempt_refused(asked: RefusedRequest, attempt: Attempt) -> bool
    ensures { result ≡ is_attempt_refused asked attempt }
{
    match asked {
        RefusedRequest::Verify => is_attempt(attempt),
        _ => attempt.0 == 0,
    }
}

pub(crate) fn is_refusal(refusal: &Refusal) -> bool
    ensures { result ≡ is_refusal refusal.now }
{
    is_run(refusal.run)
        && is_value(refusal.value)
        && is_job_refused(refusal.reason, refusal.job, refusal.jobs)
        && is_attempt_refused(refusal.asked, refusal.attempt)
}
