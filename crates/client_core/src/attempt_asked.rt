//! An attempt to verify of this life, and how it stands at each server.

ghost use Rattle.std.specs.Prelude.{◌≡◌, ◌<◌, ◌∷◌, IsTrue, List};
ghost use Rattle.fc_base.specs.declared.limits.TheConstants.{MAX_SERVERS};
ghost use Rattle.messages.specs.Ranges.{is_attempt, is_body, is_run, is_job_of};

use crate::outcome::Outcome;
use crate::request_status::RequestStatus;
use crate::run_asked::SERVERS;
use fc_base::{Attempt, RunNo};
use messages::{Body, Text};

/// An attempt to verify a run, and how it stands at each server.
#[derive(Drop)]
pub struct AttemptAsked {
    pub run: RunNo,
    pub text: Text,
    pub verifies: [RequestStatus; SERVERS],
}

impl AttemptAsked {
    ghost use Rattle.client_core.specs.Life.{Deed, Verifies, Hears};
    ghost use Rattle.client_core.specs.Lives.{AttemptIs};
    ghost use Rattle.client_core.specs.Requests.{verify_at};
    ghost use Rattle.client_core.specs.Outcomes.{request_outcome};
    ghost use Rattle.client_core.specs.Reports.{report_counts};
    ghost use Rattle.fc_base.specs.declared.report.ReportParts.{ReportParts};
    ghost use Rattle.messages.specs.declared.body.Body.TheVariants.{Report};

    /// The run is verified by this text.
    pub fn new(run: RunNo, text: Text) -> AttemptAsked
        requires { IsTrue (is_run run) }
        ensures asked { (attempt : _) (deeds : List Deed) → IsTrue (is_attempt attempt) →
            AttemptIs attempt (Verifies run attempt text ∷ deeds) result }
        ensures run_is { result.run ≡ run }
        ensures text_is { result.text ≡ text }
    {
        AttemptAsked {
            run,
            text,
            verifies: [RequestStatus::open(); SERVERS],
        }
    }

    /// How it stands at a server.
    pub fn verify_at(&self, server: u32) -> Outcome
        requires { server < MAX_SERVERS }
        ensures { (attempt : _) (deeds : List Deed) → AttemptIs attempt deeds self.now →
            result ≡ request_outcome (verify_at attempt server deeds) }
    {
        self.verifies[server as usize].outcome()
    }

    /// What a server says.
    pub fn hear(&mut self, attempt: Attempt, server: u32, body: &Body)
        requires server { server < MAX_SERVERS }
        requires body { IsTrue (is_body body.now) }
        ensures { (deeds : List Deed) → AttemptIs attempt deeds self.old →
            AttemptIs attempt (Hears server body.now ∷ deeds) self.new }
    {
        self.verifies[server as usize].hear_verify(self.run, attempt, body);
    }

    /// Whether a report of this run and job, which tells how many jobs there are, counts.
    pub fn counts(&self, run: RunNo, server: u32, job: u32, jobs: u32) -> bool
        requires { server < MAX_SERVERS }
        ensures { (attempt : _) (deeds : List Deed) → AttemptIs attempt deeds self.now →
            result ≡ report_counts run attempt server job jobs deeds }
    {
        self.run == run && self.verifies[server as usize].counts(job, jobs)
    }

    /// What a server reports of a run and job, which tells how many jobs there are.
    pub fn hear_report(&mut self, run: RunNo, server: u32, job: u32, jobs: u32)
        requires server { server < MAX_SERVERS }
        requires job { IsTrue (is_job_of job jobs) }
        ensures { (attempt : _) (deeds : List Deed) (report : ReportParts) →
            AttemptIs attempt deeds self.old →
            AttemptIs attempt (Hears server (Report run attempt job jobs report) ∷ deeds) self.new }
    {
        if run == self.run {
            self.verifies[server as usize].tell(job, jobs, false);
        }
    }
}
