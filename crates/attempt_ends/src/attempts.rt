//! The attempts of a client's life.

ghost use Rattle.std.specs.Prelude.{◌≡◌, ◌≤◌, [], ◌∷◌, ◌++◌, OnOk};
ghost use Rattle.std.specs.Option.{option_copied};
ghost use Rattle.attempt_ends.specs.Attempts.{attempt_of, is_attempt_of};

use crate::asked::AskedPlaces;
use fc_base::{Attempt, RunNo};
use std::alloc::{AllocError, Global};
use std::marker::Model;

/// An attempt that was made: the run that it verifies, and what it asks for.
pub struct Attempted {
    pub attempt: Attempt,
    pub run: RunNo,
    pub asked: AskedPlaces,
}

/// By hand, so that the crates above need no proof of it.
impl Drop for Attempted {
    fn drop(self) {
        let Attempted {
            attempt: _,
            run: _,
            asked: _,
        } = self;
    }
}

/// The attempts of a life, in the order in which they were made, and room for more.
pub struct Attempts {
    made: Vec<Attempted>,
}

/// By hand, so that the crates above need no proof of it.
impl Drop for Attempts {
    fn drop(self) {
        let Attempts { made: _ } = self;
    }
}

impl Model for Attempts {
    ghost use Rattle.std.specs.Prelude.{◌-◌, vec_len, vec_capacity};
    ghost use Rattle.attempt_ends.specs.Attempts.{AttemptsKept};

    ghost Value = { AttemptsKept };

    ghost view = { λ a. record { made = a.made.items; room = vec_capacity a.made - vec_len a.made } };
}

impl Attempts {
    /// No attempt. It takes no memory.
    pub fn new(alloc: Global) -> Attempts
        ensures { result.made ≡ [] }
    {
        Attempts {
            made: Vec::new(alloc),
        }
    }

    /// Makes room for one more. For want of memory nothing changes.
    pub fn reserve(&mut self) -> Result<(), AllocError>
        ensures room { OnOk result (1 ≤ self.new.room) }
        ensures same { self.new.made ≡ self.old.made }
    {
        self.made.reserve(1)
    }

    /// Adds an attempt, for which there is room.
    pub fn push(&mut self, attempted: Attempted)
        requires { 1 ≤ self.old.room }
        ensures { self.new.made ≡ self.old.made ++ attempted ∷ [] }
    {
        self.made.push_reserved(attempted);
    }

    /// The attempt with this number, where it verifies this run.
    pub fn of(&self, run: RunNo, attempt: Attempt) -> Option<&Attempted>
        ensures { option_copied result ≡ attempt_of run attempt self.now.made }
    {
        self.made
            .iter()
            .find(|made| is_attempt_of(run, attempt, made))
    }
}

/// Whether this is the attempt with this number, and verifies this run.
fn is_attempt_of(run: RunNo, attempt: Attempt, made: &Attempted) -> bool
    ensures { result ≡ is_attempt_of run attempt made.now }
{
    made.attempt == attempt && made.run == run
}
