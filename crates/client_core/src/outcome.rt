//! How the requests of a client stand.

ghost use Rattle.std.specs.Prelude.{◌≡◌};
ghost use Rattle.client_core.specs.Outcomes.{has_ended};

use messages::Reason;

/// The kinds of requests. A run is begun, triggered and stopped; an attempt verifies.
#[derive(Clone, Copy, Debug, PartialEq, Eq)]
pub enum RequestKind {
    Begin,
    Trigger,
    Stop,
    Verify,
}

/// How a request stands at a server.
#[derive(Clone, Copy, Debug, PartialEq, Eq)]
pub enum Outcome {
    /// There is none since the client was restarted.
    None,
    /// It isn't answered yet.
    Open,
    /// It ended well.
    Good,
    /// It was refused.
    Refused(Reason),
}

impl Outcome {
    /// Whether it has ended, well or not.
    pub fn has_ended(self) -> bool
        ensures { result ≡ has_ended self }
    {
        match self {
            Outcome::None | Outcome::Open => false,
            Outcome::Good | Outcome::Refused(_) => true,
        }
    }
}
