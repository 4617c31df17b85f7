//! The last completed write to a block.

ghost use Rattle.std.specs.Prelude.{◌≡◌, ◌<◌, None, Some};

use fc_base::{MAX_WRITES, Seq};
use std::marker::Model;

/// The last completed write to a block, if there is one, in four bytes: a check keeps one for each
/// block.
#[derive(Clone, Copy, Debug)]
pub struct LastWrite {
    /// One more than the write's number, 0 for none.
    after: u32,
}

impl Model for LastWrite {
    ghost use Rattle.std.specs.Prelude.{ℕ, Option};
    ghost use Rattle.recheck.specs.LastWrite.{kept_write, keeping};

    ghost Value = { Option ℕ };

    ghost view = { λ w. kept_write w.after };

    ghost inverse = { λ w. record { after = keeping w } };
}

impl LastWrite {
    /// No write.
    pub fn none() -> LastWrite
        ensures { result ≡ None }
    {
        LastWrite { after: 0 }
    }

    /// This write.
    pub fn of(seq: Seq) -> LastWrite
        requires { seq < MAX_WRITES }
        ensures { result ≡ Some seq }
    {
        LastWrite {
            after: seq.0 as u32 + 1,
        }
    }

    /// The write, if there is one.
    pub fn seq(self) -> Option<Seq>
        ensures { result ≡ self }
    {
        match self.after {
            0 => None,
            after => Some(Seq(u64::from(after - 1))),
        }
    }
}
