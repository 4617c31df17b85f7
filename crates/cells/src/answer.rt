//! What a node answers.

ghost use Rattle.std.specs.Prelude.{◌≡◌};

use client_core::Answer as ClientAnswer;
use engine::Issue;
use fc_base::{Attempt, Fault, RunNo};
use messages::Act;

/// What a node answers to what comes.
#[derive(Clone, Copy, PartialEq, Eq)]
pub enum Answer {
    /// Nothing more.
    Plain,
    /// The number of the run that has begun.
    Run(RunNo),
    /// The number of the attempt to verify.
    Attempt(Attempt),
    /// What a worker is told that asks for a write.
    Issued(Issue),
}

impl Answer {
    ghost use Rattle.cells.specs.ClientRules.{answer_of};

    /// What a client answers, as what a node does.
    pub(crate) fn of_client(answer: ClientAnswer) -> Answer
        ensures { result ≡ answer_of answer }
    {
        match answer {
            ClientAnswer::Plain => Answer::Plain,
            ClientAnswer::Run(run) => Answer::Run(run),
            ClientAnswer::Attempt(attempt) => Answer::Attempt(attempt),
        }
    }
}

/// An answer, and what a server asks of its caller.
#[derive(Clone, Copy, PartialEq, Eq)]
pub struct Reply {
    pub answer: Answer,
    pub act: Act,
}

/// What a caller is told: the answer, how many frames were sent, which the hub numbers from `first` on,
/// and what a server asks of it. Both numbers are 0 for what sends nothing over a hub.
#[derive(Clone, Copy, PartialEq, Eq)]
pub struct Receipt {
    pub answer: Answer,
    pub first: u64,
    pub sent: u64,
    pub act: Act,
}

impl Reply {
    ghost use Rattle.cells.specs.Rules.{plain_reply};
    ghost use Rattle.cells.specs.Powers.{told_of};
    ghost use Rattle.cells.specs.ServerRules.{answer_of};

    /// Nothing but that it was done.
    #[inline(always)]
    pub fn plain() -> Reply
        ensures { result ≡ plain_reply }
    {
        Reply {
            answer: Answer::Plain,
            act: Act::None,
        }
    }

    /// What is said of a cut, or of a start.
    pub(crate) fn of_power(done: Result<(), Fault>) -> Result<Reply, Fault>
        ensures { result ≡ told_of done }
    {
        match done {
            Ok(()) => Ok(Reply::plain()),
            Err(fault) => Err(fault),
        }
    }

    /// What a server says: what it answers of writes, if anything, and what it asks of its caller.
    pub fn of(issue: Option<Issue>, act: Act) -> Reply
        ensures { result ≡ record { answer = answer_of issue; act = act } }
    {
        let answer = match issue {
            Some(issue) => Answer::Issued(issue),
            None => Answer::Plain,
        };
        Reply { answer, act }
    }
}
