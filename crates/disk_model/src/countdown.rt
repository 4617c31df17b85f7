//! Which call of a failing device fails.

ghost use Rattle.std.specs.Prelude.{◌≡◌, Some, IsTrue, ◌↔◌};
ghost use Rattle.disk_model.specs.Countdown.{left_of, failures_of, one_fewer};

/// A count of calls down to the one that fails.
#[derive(Clone, Copy)]
pub(crate) enum Countdown {
    /// So many calls come before it.
    Left(u64),
    /// It has failed.
    Failed,
    /// It was refused for another reason, and none fails.
    Passed,
}

impl Countdown {
    /// Whether the next call is the one that fails.
    pub(crate) fn is_due(self) -> bool
        ensures due { IsTrue result ↔ (left_of self ≡ Some 0) }
        ensures failures { IsTrue result → failures_of self ≡ 0 }
    {
        matches!(self, Countdown::Left(0))
    }

    /// The count after a call that didn't fail.
    pub(crate) fn next(self) -> Countdown
        ensures left { left_of result ≡ one_fewer (left_of self) }
        ensures failures { failures_of result ≡ failures_of self }
    {
        match self {
            Countdown::Left(0) => Countdown::Passed,
            Countdown::Left(n) => Countdown::Left(n - 1),
            ended => ended,
        }
    }
}
