//! A worker's seat at a server.

ghost use Rattle.std.specs.Prelude.{◌≡◌, ◌<◌, ◌+◌, ◌^◌, Some};
ghost use Rattle.cells.specs.Seated.{new_seat};

use crate::answer::Reply;
use fc_base::{Fault, MAX_SEATS, ServerNo};
use std::marker::Model;

/// A seat: its server, its number there, how many events it has applied, and the answer of the last. It
/// can't be copied, and only a cell makes one and counts its events.
pub struct Seat {
    server: ServerNo,
    number: u32,
    applied: u64,
    last: Option<Result<Reply, Fault>>,
}

/// By hand, so that the crates above need no proof of it.
impl Drop for Seat {
    fn drop(self) {
        let Seat {
            server: _,
            number: _,
            applied: _,
            last: _,
        } = self;
    }
}

impl Model for Seat {
    ghost use Rattle.std.specs.Prelude.{◌<◌};
    ghost use Rattle.fc_base.specs.declared.limits.TheConstants.{MAX_SEATS};
    ghost use Rattle.cells.specs.Seated.{Seated};

    ghost Value = { Seated };

    ghost view = { λ s. record {
      server = s.server;
      number = s.number;
      applied = s.applied;
      last = s.last;
    } };

    ghost invariant = { λ s. s.number < MAX_SEATS };
}

impl Seat {
    /// A seat that has applied nothing.
    pub(crate) fn new(server: ServerNo, number: u32) -> Seat
        requires { number < MAX_SEATS }
        ensures { result ≡ new_seat server number }
    {
        Seat {
            server,
            number,
            applied: 0,
            last: None,
        }
    }

    /// The number of its server.
    pub fn server(&self) -> ServerNo
        ensures { result ≡ self.now.server }
    {
        self.server
    }

    /// Its number, from 0 on.
    pub fn number(&self) -> u32
        ensures value { result ≡ self.now.number }
        ensures few { result < MAX_SEATS }
    {
        self.number
    }

    /// How many events it has applied.
    pub fn applied(&self) -> u64
        ensures { result ≡ self.now.applied }
    {
        self.applied
    }

    /// The answer of its last event; `None` before the first.
    pub fn last(&self) -> Option<Result<Reply, Fault>>
        ensures { result ≡ self.now.last }
    {
        self.last
    }

    /// It has applied one event more, with this answer.
    #[inline(always)]
    pub(crate) fn advance(&mut self, answer: &Result<Reply, Fault>)
        requires { self.old.applied + 1 < 2 ^ 64 }
        ensures { self.new
            ≡ record self.old { applied = self.old.applied + 1; last = Some answer.now } }
    {
        self.applied += 1;
        self.last = Some(*answer);
    }
}
