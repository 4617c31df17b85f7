//! What the bodies of servers are about.

ghost use Rattle.std.specs.Prelude.{◌≡◌};
ghost use Rattle.client_core.specs.Told.{run_told, attempt_told};

use fc_base::{Attempt, RunNo};
use messages::Body;

/// The run whose requests a server answers by this, 0 where it answers none.
pub(crate) fn run_told(body: &Body) -> RunNo
    ensures { result ≡ run_told body.now }
{
    match body {
        Body::JobsOk { run, .. } | Body::Started { run } => *run,
        Body::State { state, .. } => state.key().run,
        Body::NoState { run, .. } | Body::Stopped { run } => *run,
        Body::Refused(refusal) => refusal.run,
        _ => RunNo(0),
    }
}

/// The attempt that a server answers by this, 0 where it answers none.
pub(crate) fn attempt_told(body: &Body) -> Attempt
    ensures { result ≡ attempt_told body.now }
{
    match body {
        Body::Report { attempt, .. } => *attempt,
        Body::Refused(refusal) => refusal.attempt,
        _ => Attempt(0),
    }
}
