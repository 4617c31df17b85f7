//! What a client answers and sends.

ghost use Rattle.std.specs.Prelude.{◌≡◌};
ghost use Rattle.client_core.specs.Answers.{sent_alone};

use fc_base::{Attempt, RunNo};
use messages::Frames;

/// What a client answers to what it is asked.
#[derive(Clone, Copy, Debug, PartialEq, Eq)]
pub enum Answer {
    /// Nothing more than what it sends.
    Plain,
    /// The number of the run that has begun.
    Run(RunNo),
    /// The number of the attempt to verify.
    Attempt(Attempt),
}

/// What a client answers, and the frames that it sends, in their order.
#[derive(Drop)]
pub struct Outs {
    pub answer: Answer,
    pub frames: Frames,
}

impl Outs {
    /// These frames, and no more of an answer.
    pub(crate) fn sent(frames: Frames) -> Outs
        ensures { result ≡ sent_alone frames }
    {
        Outs {
            answer: Answer::Plain,
            frames,
        }
    }
}
