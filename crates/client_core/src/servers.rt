//! How many servers a client drives.

ghost use Rattle.std.specs.Prelude.{◌≡◌, ◌≤◌};
ghost use Rattle.fc_base.specs.declared.limits.TheConstants.{MAX_SERVERS};

use std::marker::Model;

/// How many servers a client drives: at most 8.
#[derive(Drop)]
pub struct Servers {
    count: u32,
}

impl Model for Servers {
    ghost use Rattle.std.specs.Prelude.{ℕ, ◌≤◌};
    ghost use Rattle.fc_base.specs.declared.limits.TheConstants.{MAX_SERVERS};

    ghost Value = { ℕ };

    ghost view = { λ s. s.count };

    ghost invariant = { λ s. s.count ≤ MAX_SERVERS };
}

impl Servers {
    /// So many.
    pub fn new(count: u32) -> Servers
        requires { count ≤ MAX_SERVERS }
        ensures { result ≡ count }
    {
        Servers { count }
    }

    /// How many.
    pub fn count(&self) -> u32
        ensures count { result ≡ self.now }
        ensures few { result ≤ MAX_SERVERS }
    {
        self.count
    }

    /// They are at most 8. Nothing runs: this is for proofs.
    pub fn are_few(&self)
        ensures { self.now ≤ MAX_SERVERS }
    {
        let _count = self.count();
    }
}
