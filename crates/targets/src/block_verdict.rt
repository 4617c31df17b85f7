//! What is told of a block of a target.

ghost use Rattle.std.specs.Prelude.{◌≡◌};
ghost use Rattle.targets.specs.MapLines.{kind_word};

use diagnosis::Holds;

/// What is told of a block.
#[derive(Clone, Copy)]
pub(crate) enum BlockVerdict {
    /// No write to it has completed: it may hold anything.
    Unchecked,
    /// A write to it has completed, and it could not be read.
    Unread,
    /// A write to it has completed, and it holds the last of these or one in flight.
    Sound,
    /// A write to it has completed, and it holds this, which is none of them.
    Fault(Holds),
}

/// The word of what is told.
pub(crate) fn kind_word(told: &BlockVerdict) -> &'static str
    ensures { result.now ≡ kind_word told.now }
{
    match told {
        BlockVerdict::Unchecked => "unchecked",
        BlockVerdict::Unread => "unread",
        BlockVerdict::Sound => "sound",
        BlockVerdict::Fault(Holds::Sound) => "sound",
        BlockVerdict::Fault(Holds::Unwritten) => "unwritten",
        BlockVerdict::Fault(Holds::Filled(_)) => "filled",
        BlockVerdict::Fault(Holds::Lost(_)) => "lost",
        BlockVerdict::Fault(Holds::Unissued(_)) => "unissued",
        BlockVerdict::Fault(Holds::OtherRun(_)) => "other-run",
        BlockVerdict::Fault(Holds::Misdirected(_)) => "misdirected",
        BlockVerdict::Fault(Holds::Torn) => "torn",
        BlockVerdict::Fault(Holds::Corrupt(_)) => "corrupt",
    }
}
