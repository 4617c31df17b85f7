//! The present run: its jobs, and how far it is.

ghost use Rattle.std.specs.Prelude.{◌≡◌, ◌<◌, ◌≤◌, ◌==◌, ℕ, true, ◌∷◌, map, length, Some, None, slice_get, nat_lt, OnErr, is_none, is_some, not, ◌&&◌, if◌then◌else◌};
ghost use Rattle.messages.specs.declared.refusal.Act.TheVariants as acts;
ghost use Rattle.std.specs.List.{list_all, list_any};
ghost use Rattle.std.specs.Option.{option_copied};
ghost use Rattle.engine.specs.Answers.{ended_of};
ghost use Rattle.server_core.specs.declared.job_run.JobRun.{JobRun};
ghost use Rattle.server_core.specs.Kept.{taken_kept, stopped_kept, act_of_end};

mod replies;

use crate::input::WriteEnd;
use crate::job_run::{End, JobRun, index_in, index_of};
use engine::{Issue, Ticket};
use fc_base::{Fault, JobNo, RunNo, Seq};
use job_file::{Job, Jobs};
use messages::Act;
use std::marker::Model;
use verify_state::VerifyState;

/// The present run: that of the last Start that was accepted since the server was restarted.
#[derive(Drop)]
pub(crate) struct Run {
    number: RunNo,
    end: Option<End>,
    jobs: Jobs,
    kept: Vec<JobRun>,
}

impl Model for Run {
    ghost use Rattle.server_core.specs.Kept.{Kept};

    ghost Value = { Kept };

    ghost use Rattle.server_core.specs.Inside.{kept_in, IsSomeRun};

    ghost view = { kept_in };

    ghost invariant = { IsSomeRun };
}

impl Run {
    ghost use Rattle.server_core.specs.Run.{Work, has_open, have_ended, is_halted, halt_of};
    ghost use Rattle.server_core.specs.Taken.{taken_by_halt};
    ghost use Rattle.server_core.specs.Answers.{issue_of_job, names_open_of, act_of};
    ghost use Rattle.server_core.specs.OpenWrites.{open_ticket};
    ghost use Rattle.server_core.specs.Request.{Request, ToIssue, ToEnd, ToTrigger, ToMark, ToStop};
    ghost use Rattle.server_core.specs.Kept.{RunIs, EachRun, GoesOn, open_answer, IsBegun, EachBegun};
    ghost use Rattle.server_core.specs.Memory.{TakesNone};

    /// A run that begins: what is kept of its jobs is that of some run with no request yet.
    pub(crate) fn new(number: RunNo, jobs: Jobs, kept: Vec<JobRun>) -> Run
        requires { IsBegun number jobs kept.items }
        ensures { EachBegun number jobs kept.items (RunIs result) }
    {
        Run {
            number,
            end: None,
            jobs,
            kept,
        }
    }

    /// The number of the run.
    pub(crate) fn number(&self) -> RunNo
        ensures { result ≡ self.now.number }
    {
        self.number
    }

    /// How it came to its end, `None` while it writes.
    pub(crate) fn end(&self) -> Option<End>
        ensures { result ≡ self.now.end }
    {
        self.end
    }

    /// A job of it.
    pub(crate) fn job(&self, job: JobNo) -> Option<&Job>
        ensures { option_copied result ≡ slice_get self.now.jobs job }
    {
        self.jobs.as_slice().get(index_of(job))
    }

    /// The state that was taken of a job.
    pub(crate) fn taken(&self, job: JobNo) -> Option<&VerifyState>
        ensures { EachRun self.now
            (λ w. option_copied result ≡ taken_by_halt w job (halt_of w.run w.since)) }
    {
        let index = index_of(job);
        if index < self.kept.as_slice().len() {
            self.kept[index].taken.as_ref()
        } else {
            None
        }
    }

    /// The ticket of this write of a job, where it is open.
    pub(crate) fn open_write(&self, job: JobNo, write: Seq) -> Option<Ticket>
        ensures { EachRun self.now (λ w. result ≡ open_ticket (Some w) job write) }
    {
        let index = index_of(job);
        if index < self.kept.as_slice().len() {
            self.kept[index].engine.open_write(write)
        } else {
            None
        }
    }

    /// Whether it is this run.
    pub(crate) fn is(&self, number: RunNo) -> bool
        ensures { result ≡ (self.now.number == number) }
    {
        self.number == number
    }

    /// Whether it is this run, and writes.
    pub(crate) fn is_writing(&self, number: RunNo) -> bool
        ensures { result ≡ ((self.now.number == number) && is_none self.now.end) }
    {
        self.number == number && self.end.is_none()
    }

    /// Whether some write is open.
    pub(crate) fn has_open(&self) -> bool
        ensures { EachRun self.now (λ w. result ≡ has_open w) }
    {
        any_open(&self.kept)
    }

    /// Whether every job has ended: it has no open write, and issues none any more.
    pub(crate) fn have_ended(&self) -> bool
        ensures { EachRun self.now (λ w. result ≡ have_ended w) }
    {
        all_ended(&self.kept)
    }

    /// Issues the next write of a job, or says why none is issued.
    pub(crate) fn issue(&mut self, job: JobNo) -> Issue
        ensures answer { EachRun self.old
            (λ w. result ≡ issue_of_job w job (slice_get w.jobs job)) }
        ensures left { GoesOn self.old self.new (ToIssue job) }
    {
        crate::law::legal_histories();
        let index = index_of(job);
        if index < self.kept.as_slice().len() {
            self.kept[index].engine.issue()
        } else {
            Issue::Stopped
        }
    }

    /// Notes how a write ended. A ticket that names no open write is refused, and nothing changes.
    pub(crate) fn end_write(&mut self, ticket: Ticket, end: WriteEnd) -> Result<(), Fault>
        ensures answer { EachRun self.old (λ w. w.boot ≡ ticket.boot →
            result ≡ open_answer (names_open_of w ticket (slice_get w.jobs ticket.key.job))) }
        ensures left { GoesOn self.old self.new (ToEnd ticket end) }
        ensures same { OnErr result (self.new ≡ self.old) }
        ensures memory { TakesNone result }
    {
        crate::law::legal_histories();
        let index = index_in(&ticket);
        if index < self.kept.as_slice().len() {
            match end {
                WriteEnd::Done => self.kept[index].engine.done(ticket),
                WriteEnd::Failed => self.kept[index].engine.failed(ticket),
            }
        } else {
            Err(Fault::NotInFlight)
        }
    }

    /// Takes the states of all jobs, and stops them.
    pub(crate) fn take(&mut self, act: Act)
        requires { self.old.end ≡ None }
        ensures { EachRun self.old
            (λ w. RunIs self.new (record w { since = ToTrigger w.run act ∷ w.since })) }
    {
        take_all(&mut self.kept);
        self.end = Some(End::Taken(act));
    }

    /// Stops all jobs.
    pub(crate) fn stop(&mut self)
        requires { self.old.end ≡ None }
        ensures { EachRun self.old
            (λ w. RunIs self.new (record w { since = ToStop w.run ∷ w.since })) }
    {
        stop_all(&mut self.kept);
        self.end = Some(End::Stopped);
    }

    /// Marks a job of a run that was taken: the client has told that its state is kept. The mark of
    /// the last job asks for the cut, where the Trigger did.
    pub(crate) fn mark(&mut self, job: JobNo) -> Act
        ensures answer { EachRun self.old (λ w. result ≡ act_of (Some w) (ToMark w.run job)) }
        ensures left { EachRun self.old (λ w.
            RunIs self.new (record w { since = ToMark w.run job ∷ w.since })) }
    {
        let Some(act) = act_in(self.end) else {
            return Act::None;
        };
        let before = all_marked(&self.kept);
        self.set_mark(index_of(job));
        let after = all_marked(&self.kept);
        act_by(act, before, after)
    }

    /// Marks the job at an index of a run that was taken, where there is one.
    fn set_mark(&mut self, index: usize)
        requires { is_some (act_of_end self.old.end) ≡ true }
        ensures left { EachRun self.old
            (λ w. RunIs self.new (record w { since = ToMark w.run index ∷ w.since })) }
        ensures end { self.new.end ≡ self.old.end }
    {
        if index < self.kept.as_slice().len() {
            self.kept[index].marked = true;
        }
    }
}

/// The act of the Trigger that took a run, if one did.
fn act_in(end: Option<End>) -> Option<Act>
    ensures { result ≡ act_of_end end }
{
    match end {
        Some(End::Taken(act)) => Some(act),
        Some(End::Stopped) | None => None,
    }
}

/// The act of a Trigger, where the last job was marked by now.
fn act_by(act: Act, before: bool, after: bool) -> Act
    ensures { result ≡ (if not before && after then act else acts.None) }
{
    if !before && after { act } else { Act::None }
}

/// Takes the state of each of these jobs, and stops it.
fn take_all(jobs: &mut [JobRun])
    ensures { jobs.new ≡ map taken_kept jobs.old }
{
    for job in jobs.iter_mut() {
        job.take();
    }
}

/// Stops each of these jobs.
fn stop_all(jobs: &mut [JobRun])
    ensures { jobs.new ≡ map stopped_kept jobs.old }
{
    for job in jobs.iter_mut() {
        job.stop();
    }
}

/// Whether all of these jobs are marked.
fn all_marked(jobs: &[JobRun]) -> bool
    ensures { result ≡ list_all (λ (k : JobRun). k.marked) jobs.now }
{
    jobs.iter().all(|job| job.marked)
}

/// Whether some write of these jobs is open.
fn any_open(jobs: &[JobRun]) -> bool
    ensures { result ≡ list_any
        (λ (k : JobRun). nat_lt 0 (length k.engine.kept.open_writes)) jobs.now }
{
    jobs.iter().any(|job| job.engine.open_writes() > 0)
}

/// Whether all of these jobs have ended.
fn all_ended(jobs: &[JobRun]) -> bool
    ensures { result ≡ list_all (λ (k : JobRun). ended_of k.engine) jobs.now }
{
    jobs.iter().all(|job| job.engine.ended())
}
