//! The generation that a note says.

ghost use Rattle.std.specs.Prelude.{◌≡◌, ◌≤◌, nat_le, Some, None, if◌then◌else◌};
ghost use Rattle.messages.specs.Ranges.{is_generation};

use fc_base::{Generation, MAX_GENERATION};
use std::marker::Model;

/// The generation that a note says: 0 where it has none, and at most [`MAX_GENERATION`].
#[derive(Clone, Copy, Debug, PartialEq, Eq)]
pub struct NotedGeneration {
    number: u64,
}

impl Model for NotedGeneration {
    ghost use Rattle.std.specs.Prelude.{ℕ, ◌≤◌};
    ghost use Rattle.fc_base.specs.declared.limits.TheConstants.{MAX_GENERATION};

    ghost Value = { ℕ };

    ghost view = { λ g. g.number };

    ghost invariant = { λ g. g.number ≤ MAX_GENERATION };

    ghost inverse = { λ n. record { number = n } };
}

impl NotedGeneration {
    /// That of a note which has none.
    pub fn none() -> NotedGeneration
        ensures { result ≡ 0 }
    {
        NotedGeneration { number: 0 }
    }

    /// What a note says by this number, `None` where no note says it.
    pub fn of_note(number: u64) -> Option<NotedGeneration>
        ensures { result ≡ (if nat_le number MAX_GENERATION then Some number else None) }
    {
        if number <= MAX_GENERATION {
            Some(NotedGeneration { number })
        } else {
            None
        }
    }

    /// One with which a note begins anew, `None` where that has no such number.
    pub fn of_renewal(generation: Generation) -> Option<NotedGeneration>
        ensures { result ≡ (if is_generation generation then Some generation else None) }
    {
        if 1 <= generation.0 && generation.0 <= MAX_GENERATION {
            Some(NotedGeneration {
                number: generation.0,
            })
        } else {
            None
        }
    }

    /// Its number.
    pub fn number(self) -> u64
        ensures value { result ≡ self }
        ensures range { result ≤ MAX_GENERATION }
    {
        self.number
    }
}
