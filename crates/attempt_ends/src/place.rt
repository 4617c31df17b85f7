//! The places of a run.

ghost use Rattle.std.specs.Prelude.{◌≡◌, ◌<◌};
ghost use Rattle.attempt_ends.specs.Places.{place_numbered, key_at, is_same_place};

use fc_base::{JobNo, Key, MAX_JOBS, MAX_SERVERS, RunNo, ServerNo};

/// How many places there can be.
pub const PLACES: u32 = MAX_SERVERS * MAX_JOBS;

/// A server, and one of its jobs.
#[derive(Clone, Copy, Debug)]
pub struct Place {
    pub server: ServerNo,
    pub job: JobNo,
}

impl Place {
    /// The place with this number among all that there can be: those of a server stand one behind
    /// the other, by their jobs.
    pub fn numbered(number: u32) -> Place
        ensures { result ≡ place_numbered number }
    {
        Place {
            server: ServerNo(number / MAX_JOBS),
            job: JobNo(number % MAX_JOBS),
        }
    }

    /// The key of what is kept of it in a run.
    pub fn key(&self, run: RunNo) -> Key
        ensures { result ≡ key_at run self.now }
    {
        Key {
            run,
            server: self.server,
            job: self.job,
        }
    }

    /// Whether both are of one server and job.
    pub fn is_same(&self, other: &Place) -> bool
        ensures { result ≡ is_same_place self.now other.now }
    {
        self.server == other.server && self.job == other.job
    }
}
