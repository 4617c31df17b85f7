//! What a server reports of a check.

ghost use Rattle.std.specs.Prelude.{◌≡◌, ◌<◌, ◌∷◌, IsTrue, List, Some, OnOk, OnErr};
ghost use Rattle.fc_base.specs.declared.limits.TheConstants.{MAX_SERVERS};
ghost use Rattle.fc_base.specs.declared.report.ReportParts.{ReportParts};
ghost use Rattle.messages.specs.Ranges.{is_job_of};
ghost use Rattle.messages.specs.declared.body.Body.TheVariants.{Report};
ghost use Rattle.client_core.specs.Life.{Deed, Hears};
ghost use Rattle.client_core.specs.Lives.{LifeIs, EachLife, AttemptsAre, AttemptFor};
ghost use Rattle.client_core.specs.Reports.{report_counts, reports_heard, report_body};

use crate::attempt_asked::AttemptAsked;
use crate::life::Life;
use crate::received::Received;
use fc_base::{Attempt, JobNo, RunNo, ServerNo};
use std::alloc::AllocError;

impl Life {
    /// What a server reports of a job, which tells how many jobs there are. It is kept where it is the
    /// first of its attempt, server and job that counts. Where memory runs out nothing changes.
    pub fn hear_report(&mut self, received: Received, jobs: u32) -> Result<(), AllocError>
        requires server { received.server < MAX_SERVERS }
        requires job { IsTrue (is_job_of received.job jobs) }
        ensures left { OnOk result (EachLife self.old
            (λ deeds. LifeIs self.new
            (Hears received.server (report_body received jobs) ∷ deeds))) }
        ensures same { OnErr result (EachLife self.old (LifeIs self.new)) }
    {
        let (run, attempt) = (received.run, received.attempt);
        let (server, job) = (received.server, received.job);
        self.keep_report(received, jobs)?;
        self.tell_report(run, attempt, server.0, job.0, jobs);
        Ok(())
    }

    /// Keeps a report where it is the first of its attempt, server and job that counts.
    fn keep_report(&mut self, received: Received, jobs: u32) -> Result<(), AllocError>
        requires { received.server < MAX_SERVERS }
        ensures kept { OnOk result ((deeds : List Deed) → AttemptsAre self.old deeds →
            self.new.reports
            ≡ reports_heard deeds received.server
            (report_body received jobs) self.old.reports) }
        ensures same { OnErr result (self.new.reports ≡ self.old.reports) }
        ensures runs { self.new.runs ≡ self.old.runs }
        ensures attempts { self.new.attempts ≡ self.old.attempts }
        ensures copied { self.new.copied ≡ self.old.copied }
    {
        let (attempt, server, job) = (received.attempt, received.server, received.job);
        let counts = self.counts(received.run, attempt, server, job, jobs);
        if counts {
            self.reports.add(received)?;
        }
        Ok(())
    }

    /// The attempt hears a report.
    fn tell_report(&mut self, run: RunNo, attempt: Attempt, server: u32, job: u32, jobs: u32)
        requires server { server < MAX_SERVERS }
        requires job { IsTrue (is_job_of job jobs) }
        ensures attempts { (deeds : List Deed) (report : ReportParts) → AttemptsAre self.old deeds →
            AttemptsAre self.new (Hears server (Report run attempt job jobs report) ∷ deeds) }
        ensures runs { self.new.runs ≡ self.old.runs }
        ensures reports { self.new.reports ≡ self.old.reports }
        ensures copied { self.new.copied ≡ self.old.copied }
    {
        if let Some(place) = self.attempts.get_mut(&attempt.0) {
            report_at(place, run, server, job, jobs);
        }
    }

    /// Whether a report counts, which tells how many jobs there are.
    fn counts(&self, run: RunNo, attempt: Attempt, server: ServerNo, job: JobNo, jobs: u32) -> bool
        requires { server < MAX_SERVERS }
        ensures { (deeds : List Deed) → AttemptsAre self.now deeds →
            result ≡ report_counts run attempt server job jobs deeds }
    {
        match self.attempts.get(&attempt.0) {
            Some(Some(asked)) => asked.counts(run, server.0, job.0, jobs),
            _ => false,
        }
    }
}

/// An attempt hears a report, where it was made.
fn report_at(place: &mut Option<AttemptAsked>, run: RunNo, server: u32, job: u32, jobs: u32)
    requires server { server < MAX_SERVERS }
    requires job { IsTrue (is_job_of job jobs) }
    ensures { (attempt : _) (deeds : List Deed) (report : ReportParts) →
        AttemptFor attempt deeds (Some place.old) →
        AttemptFor attempt (Hears server (Report run attempt job jobs report) ∷ deeds)
        (Some place.new) }
{
    if let Some(asked) = place {
        asked.hear_report(run, server, job, jobs);
    }
}
