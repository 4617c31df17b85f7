//! How a trigger, a stop or a verify stands at a server.

ghost use Rattle.std.specs.Prelude.{◌≡◌, [], false, true, IsTrue};
ghost use Rattle.std.specs.List.{list_all};
ghost use Rattle.messages.specs.Ranges.{is_job_of, is_body, is_refusal};
ghost use Rattle.client_core.specs.declared.outcome.Outcome.TheVariants as outcomes;
ghost use Rattle.client_core.specs.Requests.{Request, Unasked, Open, is_open, when_one_tells, when_answered, when_refused, check_refused, trigger_heard, stop_heard, verify_heard};
ghost use Rattle.client_core.specs.Reports.{counts_for};
ghost use Rattle.client_core.specs.RequestStatus.{IsRequestKept, with_answer};

use crate::outcome::Outcome;
use fc_base::{Attempt, MAX_JOBS, RunNo};
use messages::{Body, Reason, Refusal, RefusedRequest};

/// How many jobs a run has at most.
const JOBS: usize = MAX_JOBS as usize;

/// How a trigger, a stop or a verify stands at a server; where it is open, how many jobs there are, 0
/// before the first answer, which of them have an answer, and whether one of these tells of a misfit.
#[derive(Clone, Copy, Debug, PartialEq, Eq)]
pub struct RequestStatus {
    outcome: Outcome,
    jobs: u32,
    told: [bool; JOBS],
    misfit: bool,
}

impl RequestStatus {
    /// There was no request.
    pub fn unasked() -> RequestStatus
        ensures { IsRequestKept result Unasked }
    {
        RequestStatus {
            outcome: Outcome::None,
            jobs: 0,
            told: [false; JOBS],
            misfit: false,
        }
    }

    /// It is open, and has no answer yet.
    pub fn open() -> RequestStatus
        ensures { IsRequestKept result (Open []) }
    {
        RequestStatus {
            outcome: Outcome::Open,
            jobs: 0,
            told: [false; JOBS],
            misfit: false,
        }
    }

    /// How it stands.
    pub fn outcome(&self) -> Outcome
        ensures { result ≡ self.now.outcome }
    {
        self.outcome
    }

    /// Whether it is open.
    pub fn is_open(&self) -> bool
        ensures { (q : Request) → IsRequestKept self.now q → result ≡ is_open q }
    {
        self.outcome == Outcome::Open
    }

    /// Whether an answer for this job, which tells how many jobs there are, counts.
    pub fn counts(&self, job: u32, jobs: u32) -> bool
        ensures { (q : Request) → IsRequestKept self.now q →
            result ≡ counts_for (record { job = job; jobs = jobs; misfit = false }) q }
    {
        let jobs = if self.jobs == 0 { jobs } else { self.jobs };
        self.outcome == Outcome::Open && job < jobs
    }

    /// What the server says, of a run that was triggered or of another.
    pub fn hear_trigger(&mut self, run: RunNo, body: &Body)
        requires { IsTrue (is_body body.now) }
        ensures { (q : Request) → IsRequestKept self.old q →
            IsRequestKept self.new (trigger_heard run body.now q) }
    {
        match body {
            Body::State { jobs, state } if state.key().run.0 == run.0 => {
                self.tell(state.key().job.0, *jobs, false);
            }
            Body::NoState { run: of, job, jobs } if of.0 == run.0 => {
                self.tell(job.0, *jobs, false);
            }
            Body::Refused(refusal)
                if refusal.run.0 == run.0 && refusal.asked == RefusedRequest::Trigger => {
                self.refuse(refusal.reason);
            }
            _ => {}
        }
    }

    /// What the server says, of a run that was stopped or of another.
    pub fn hear_stop(&mut self, run: RunNo, body: &Body)
        ensures { (q : Request) → IsRequestKept self.old q →
            IsRequestKept self.new (stop_heard run body.now q) }
    {
        match body {
            Body::Stopped { run: of } if of.0 == run.0 => self.end(),
            Body::Refused(refusal)
                if refusal.run.0 == run.0 && refusal.asked == RefusedRequest::Stop => {
                self.refuse(refusal.reason);
            }
            _ => {}
        }
    }

    /// What the server says, of an attempt to verify this run or of another.
    pub fn hear_verify(&mut self, run: RunNo, attempt: Attempt, body: &Body)
        requires { IsTrue (is_body body.now) }
        ensures { (q : Request) → IsRequestKept self.old q →
            IsRequestKept self.new (verify_heard run attempt body.now q) }
    {
        match body {
            Body::Report {
                run: of,
                attempt: by,
                job,
                jobs,
                ..
            } if of.0 == run.0 && by.0 == attempt.0 => self.tell(job.0, *jobs, false),
            Body::Refused(refusal)
                if refusal.run.0 == run.0
                    && refusal.attempt.0 == attempt.0
                    && refusal.asked == RefusedRequest::Verify => {
                self.refuse_check(refusal);
            }
            _ => {}
        }
    }

    /// An answer for a job, which tells how many jobs there are, and whether a state didn't fit.
    pub fn tell(&mut self, job: u32, jobs: u32, misfit: bool)
        requires job { IsTrue (is_job_of job jobs) }
        ensures { (q : Request) → IsRequestKept self.old q →
            IsRequestKept self.new
            (when_one_tells (record { job = job; jobs = jobs; misfit = misfit }) q) }
    {
        if let Outcome::Open = self.outcome {
            self.answer(job, jobs, misfit);
        }
    }

    /// An answer to an open request.
    fn answer(&mut self, job: u32, jobs: u32, misfit: bool)
        requires job { IsTrue (is_job_of job jobs) }
        requires still { self.old.outcome ≡ outcomes.Open }
        ensures { self.new
            ≡ with_answer (record { job = job; jobs = jobs; misfit = misfit }) self.old }
    {
        if self.jobs == 0 {
            self.jobs = jobs;
        }
        self.told[job as usize] = true;
        self.misfit = self.misfit || (misfit && job < self.jobs);
        if are_all(&self.told[..JOBS.min(self.jobs as usize)]) {
            self.outcome = if self.misfit {
                Outcome::Refused(Reason::Misfit)
            } else {
                Outcome::Good
            };
        }
    }

    /// The one answer of a request that isn't asked for each job.
    pub fn end(&mut self)
        ensures outcome { (q : Request) → IsRequestKept self.old q →
            IsRequestKept self.new (when_answered q) }
        ensures rest { self.new ≡ record self.old { outcome = self.new.outcome } }
    {
        if self.outcome == Outcome::Open {
            self.outcome = Outcome::Good;
        }
    }

    /// A refusal of a check: a misfit is an answer for its job.
    fn refuse_check(&mut self, refusal: &Refusal)
        requires refusal { IsTrue (is_refusal refusal.now) }
        ensures { (q : Request) → IsRequestKept self.old q →
            IsRequestKept self.new
            (check_refused (record {
              job = refusal.now.job;
              jobs = refusal.now.jobs;
              misfit = true;
            }) refusal.now.reason q) }
    {
        if let Reason::Misfit = refusal.reason {
            self.tell(refusal.job.0, refusal.jobs, true);
        } else {
            self.refuse(refusal.reason);
        }
    }

    /// A refusal: a server that is busy is asked again, and a misfit ends no more than a job.
    pub fn refuse(&mut self, reason: Reason)
        ensures { (q : Request) → IsRequestKept self.old q →
            IsRequestKept self.new (when_refused reason q) }
    {
        if self.outcome == Outcome::Open && reason != Reason::Busy && reason != Reason::Misfit {
            self.outcome = Outcome::Refused(reason);
        }
    }
}

/// Whether each is true.
fn are_all(answers: &[bool]) -> bool
    ensures { result ≡ list_all (λ b. b) answers.now }
{
    answers.iter().all(|answer| *answer)
}
