//! The numbers that name runs, attempts, servers, jobs and writes.

ghost use Rattle.std.specs.Prelude.{◌≡◌};

use crate::limits::{MAX_JOBS, MAX_SERVERS};
use std::marker::Model;

/// The number of a run: the client counts runs from 1, and gives no number twice.
#[derive(Clone, Copy, Debug, PartialEq, Eq, PartialOrd, Ord, Hash)]
pub struct RunNo(pub u64);

impl Model for RunNo {
    ghost use Rattle.std.specs.Prelude.{ℕ};

    ghost Value = { ℕ };

    ghost view = { λ n. n.0 };

    ghost inverse = { λ n. record { 0 = n } };
}

/// The number of a request to check disks: the client counts attempts from 1, over all runs.
#[derive(Clone, Copy, Debug, PartialEq, Eq, PartialOrd, Ord, Hash)]
pub struct Attempt(pub u64);

impl Model for Attempt {
    ghost use Rattle.std.specs.Prelude.{ℕ};

    ghost Value = { ℕ };

    ghost view = { λ n. n.0 };

    ghost inverse = { λ n. record { 0 = n } };
}

/// The number of a client's note: a client that begins anew after its note was lost has a higher one,
/// up to [`MAX_GENERATION`](crate::MAX_GENERATION). It is 0 where there never was one.
#[derive(Clone, Copy, Debug, PartialEq, Eq, PartialOrd, Ord, Hash)]
pub struct Generation(pub u64);

impl Model for Generation {
    ghost use Rattle.std.specs.Prelude.{ℕ};

    ghost Value = { ℕ };

    ghost view = { λ n. n.0 };

    ghost inverse = { λ n. record { 0 = n } };
}

/// The number of a server, from 0.
#[derive(Clone, Copy, Debug, PartialEq, Eq, PartialOrd, Ord, Hash)]
pub struct ServerNo(pub u32);

impl Model for ServerNo {
    ghost use Rattle.std.specs.Prelude.{ℕ};

    ghost Value = { ℕ };

    ghost view = { λ n. n.0 };

    ghost inverse = { λ n. record { 0 = n } };
}

/// The number of a job in its job file, from 0. Job i of a server writes file slot i there.
#[derive(Clone, Copy, Debug, PartialEq, Eq, PartialOrd, Ord, Hash)]
pub struct JobNo(pub u32);

impl Model for JobNo {
    ghost use Rattle.std.specs.Prelude.{ℕ};

    ghost Value = { ℕ };

    ghost view = { λ n. n.0 };

    ghost inverse = { λ n. record { 0 = n } };
}

/// The number of a write of a job, from 0, in the order in which writes are issued.
#[derive(Clone, Copy, Debug, PartialEq, Eq, PartialOrd, Ord, Hash)]
pub struct Seq(pub u64);

impl Model for Seq {
    ghost use Rattle.std.specs.Prelude.{ℕ};

    ghost Value = { ℕ };

    ghost view = { λ n. n.0 };

    ghost inverse = { λ n. record { 0 = n } };
}

/// What names one job of one run: two states are of one job only where their keys are equal.
#[derive(Clone, Copy, Debug, PartialEq, Eq, PartialOrd, Ord, Hash)]
pub struct Key {
    pub run: RunNo,
    pub server: ServerNo,
    pub job: JobNo,
}

impl Key {
    ghost use Rattle.fc_base.specs.Keys.{is_key};

    /// Whether a job can have this key: the run is at least 1, the server below [`MAX_SERVERS`],
    /// the job below [`MAX_JOBS`].
    pub fn is_key(&self) -> bool
        ensures { result ≡ is_key self.now }
    {
        1 <= self.run.0 && self.server.0 < MAX_SERVERS && self.job.0 < MAX_JOBS
    }
}
