//! How the begin of a run stands at a server.

ghost use Rattle.std.specs.Prelude.{◌≡◌};
ghost use Rattle.client_core.specs.Begins.{when_staged, when_started, jobs_refused, start_refused, begin_refused, begin_heard};
ghost use Rattle.client_core.specs.Outcomes.{begin_outcome};

use crate::outcome::Outcome;
use fc_base::RunNo;
use messages::{Body, Reason, RefusedRequest};

/// How far the begin of a run is at a server.
#[derive(Clone, Copy, PartialEq, Eq)]
pub(crate) enum Beginning {
    /// It was not asked for.
    Unbegun,
    /// Jobs is open.
    Staging,
    /// Start is open.
    Starting,
    /// It ended well.
    Started,
    /// It was refused.
    Denied(Reason),
}

impl Beginning {
    /// How far it is, once the server has said this, of this run or of another.
    pub(crate) fn heard(self, run: RunNo, body: &Body) -> Beginning
        ensures { result ≡ begin_heard run body.now self }
    {
        match body {
            Body::JobsOk { run: of, .. } if of.0 == run.0 => self.staged(),
            Body::Started { run: of } if of.0 == run.0 => self.started(),
            Body::Refused(refusal) if refusal.run.0 == run.0 => {
                self.refused(refusal.asked, refusal.reason)
            }
            _ => self,
        }
    }

    /// How it stands.
    pub(crate) fn outcome(self) -> Outcome
        ensures { result ≡ begin_outcome self }
    {
        match self {
            Beginning::Unbegun => Outcome::None,
            Beginning::Staging | Beginning::Starting => Outcome::Open,
            Beginning::Started => Outcome::Good,
            Beginning::Denied(reason) => Outcome::Refused(reason),
        }
    }

    /// JobsOk answers Jobs.
    fn staged(self) -> Beginning
        ensures { result ≡ when_staged self }
    {
        match self {
            Beginning::Staging => Beginning::Starting,
            other => other,
        }
    }

    /// Started answers Start.
    fn started(self) -> Beginning
        ensures { result ≡ when_started self }
    {
        match self {
            Beginning::Starting => Beginning::Started,
            other => other,
        }
    }

    /// A refusal of Jobs or of Start.
    fn refused(self, asked: RefusedRequest, reason: Reason) -> Beginning
        ensures { result ≡ begin_refused asked reason self }
    {
        match asked {
            RefusedRequest::Jobs => self.jobs_refused(reason),
            RefusedRequest::Start => self.start_refused(reason),
            _ => self,
        }
    }

    fn jobs_refused(self, reason: Reason) -> Beginning
        ensures { result ≡ jobs_refused reason self }
    {
        match (reason, self) {
            (Reason::Busy | Reason::Misfit, _) => self,
            (_, Beginning::Staging) => Beginning::Denied(reason),
            _ => self,
        }
    }

    fn start_refused(self, reason: Reason) -> Beginning
        ensures { result ≡ start_refused reason self }
    {
        match (reason, self) {
            (Reason::Busy | Reason::Misfit, _) => self,
            (Reason::NoJobs, Beginning::Starting) => Beginning::Staging,
            (_, Beginning::Starting) => Beginning::Denied(reason),
            _ => self,
        }
    }
}
