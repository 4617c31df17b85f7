//! What a step hands out.

ghost use Rattle.std.specs.Prelude.{◌≡◌};
ghost use Rattle.server_core.specs.Handles.{sent_alone, outs_of_issue, outs_of_end};

use engine::Issue;
use fc_base::Fault;
use messages::{Act, Frames};
use std::alloc::Global;

/// What a step hands out.
#[derive(Drop)]
pub struct Outs {
    /// The frames to send, in their order.
    pub frames: Frames,
    /// What a request for a write is answered.
    pub issue: Option<Issue>,
    /// What the caller is asked to do.
    pub act: Act,
}

impl Outs {
    /// These frames, and nothing else.
    pub(crate) fn sent(frames: Frames) -> Outs
        ensures { result ≡ sent_alone frames }
    {
        Outs {
            frames,
            issue: None,
            act: Act::None,
        }
    }
    /// What a request for a write is answered, and nothing else.
    #[inline(always)]
    pub(crate) fn issued(alloc: Global, answer: Result<Issue, Fault>) -> Result<Outs, Fault>
        ensures { result ≡ outs_of_issue answer }
    {
        let issue = answer?;
        Ok(Outs {
            frames: Frames::new(alloc),
            issue: Some(issue),
            act: Act::None,
        })
    }

    /// That the end of a write was heard, and nothing else.
    #[inline(always)]
    pub(crate) fn ended(alloc: Global, answer: Result<(), Fault>) -> Result<Outs, Fault>
        ensures { result ≡ outs_of_end answer }
    {
        answer?;
        Ok(Outs::sent(Frames::new(alloc)))
    }
}
