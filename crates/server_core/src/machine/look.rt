//! What a server shows of its words.

ghost use Rattle.std.specs.Prelude.{◌≡◌};
ghost use Rattle.std.specs.Option.{option_copied, option_map};
ghost use Rattle.server_core.specs.Answers.{status_of, stage_of, number_of_run, number_of_check, job_of_run, job_of_check};
ghost use Rattle.server_core.specs.Stands.{EachNow, EachWork, EachOpen};
ghost use Rattle.server_core.specs.Check.{progress_in};
ghost use Rattle.server_core.specs.KeptCheck.{progress_of};
ghost use Rattle.server_core.specs.Taken.{taken_in};
ghost use Rattle.server_core.specs.OpenWrites.{open_ticket};

use super::Machine;
use crate::job_run::End;
use crate::open_check::OpenCheck;
use crate::progress::Progress;
use crate::run::Run;
use crate::status::{Stage, Status};
use engine::Ticket;
use fc_base::{Attempt, JobNo, RunNo, Seq};
use job_file::Job;
use verify_state::VerifyState;

impl Machine {
    /// How far it is.
    pub(crate) fn status(&self) -> Status
        ensures { EachNow self.now (λ now. result ≡ status_of now) }
    {
        Status {
            boot: self.boot,
            last_run: self.last_run,
            staged: self.staged_run(),
            run: number(&self.run),
            stage: stage(&self.run),
            attempt: attempt(&self.check),
        }
    }

    /// A job of the present run.
    pub(crate) fn run_job(&self, job: JobNo) -> Option<&Job>
        ensures { EachNow self.now (λ now. option_copied result ≡ job_of_run now.run job) }
    {
        self.run.as_ref()?.job(job)
    }

    /// The state that was taken of a job of the present run.
    pub(crate) fn taken(&self, job: JobNo) -> Option<&VerifyState>
        ensures { EachNow self.now (λ now. option_copied result ≡ taken_in now.run job) }
    {
        self.run.as_ref()?.taken(job)
    }

    /// The ticket of this write of a job of the present run, where it is open.
    pub(crate) fn open_write(&self, job: JobNo, write: Seq) -> Option<Ticket>
        ensures { EachNow self.now (λ now. result ≡ open_ticket now.run job write) }
    {
        self.run.as_ref()?.open_write(job, write)
    }

    /// A job of the open check.
    pub(crate) fn check_job(&self, job: JobNo) -> Option<&Job>
        ensures { EachNow self.now (λ now. option_copied result ≡ job_of_check now.check job) }
    {
        self.check.as_ref()?.job(job)
    }

    /// How far the check of a job is, where it is one of the open check.
    pub(crate) fn check_progress(&self, job: JobNo) -> Option<&Progress>
        ensures { EachNow self.now (λ now.
            option_map progress_of (option_copied result) ≡ progress_in now.check job) }
    {
        progress(&self.check, job)
    }
}

/// The number of the present run, 0 where there is none.
fn number(run: &Option<Run>) -> RunNo
    ensures { EachWork run.now (λ me now_boot w. result ≡ number_of_run w) }
{
    match run {
        Some(run) => run.number(),
        None => RunNo(0),
    }
}

/// How far the present run is.
fn stage(run: &Option<Run>) -> Stage
    ensures { EachWork run.now (λ me now_boot w. result ≡ stage_of w) }
{
    let Some(run) = run else {
        return Stage::Idle;
    };
    match run.end() {
        None => Stage::Writing,
        Some(End::Taken(_)) => Stage::Taken,
        Some(End::Stopped) => Stage::Stopped,
    }
}

/// The attempt of the open check, 0 where there is none.
fn attempt(check: &Option<OpenCheck>) -> Attempt
    ensures { EachOpen check.now (λ me now_boot c. result ≡ number_of_check c) }
{
    match check {
        Some(check) => check.attempt(),
        None => Attempt(0),
    }
}

/// How far the check of a job is, where it is one of the open check.
fn progress(check: &Option<OpenCheck>, job: JobNo) -> Option<&Progress>
    ensures { EachOpen check.now (λ me now_boot c.
        option_map progress_of (option_copied result) ≡ progress_in c job) }
{
    match check {
        Some(check) => check.progress(job),
        None => None,
    }
}
