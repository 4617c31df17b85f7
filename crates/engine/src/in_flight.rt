//! The writes in flight, in bits.

ghost use Rattle.std.specs.Prelude.{◌≡◌, ◌+◌, ◌%◌, ◌<◌, ◌≤◌, [], ◌∷◌, ◌++◌, ◌&&◌, nat_lt, nat_le, length, false, IsTrue};
ghost use Rattle.fc_base.specs.Counted.{has};
ghost use Rattle.engine.specs.Numbers.{without};
ghost use Rattle.fc_base.specs.Marks.{floor_of, word_of, marks_of};
ghost use Rattle.engine.specs.Kept.{is_held, has_completed};

use crate::ring::{around, low_bits};
use fc_base::{MAX_WINDOW, MAX_WRITES, Marks, Seq};
use std::marker::Model;

/// Which of the last writes are in flight, and which of those are open. All lie within one window
/// below the next number, so that number `k` has slot `k % window` for itself.
#[derive(Drop)]
pub(crate) struct InFlight {
    window: u64,
    issued: u64,
    /// How many writes are in flight.
    count: u64,
    /// The slots of the writes in flight.
    marks: Marks,
    /// The slots of the open writes.
    open_marks: Marks,
}

impl Model for InFlight {
    ghost use Rattle.std.specs.Prelude.{◌≡◌, ◌≤◌, length};
    ghost use Rattle.fc_base.specs.declared.limits.TheConstants.{MAX_WINDOW, MAX_WRITES};
    ghost use Rattle.engine.specs.InFlight.{Flights, flights_of, marked_numbers};

    ghost Value = { Flights };

    ghost view = { λ a. flights_of a.window a.issued a.marks a.open_marks };

    ghost invariant = { λ a. (1 ≤ a.window) × (a.window ≤ MAX_WINDOW)
        × (a.count ≡ length (marked_numbers a.marks a.window a.issued))
        × (a.issued ≤ MAX_WRITES) };
}

impl InFlight {
    ghost use Rattle.engine.specs.InFlight.{Flights};

    /// Nothing is issued yet.
    pub(crate) fn new(window: u64) -> Self
        requires least { 1 ≤ window }
        requires most { window ≤ MAX_WINDOW }
        ensures { result
            ≡ record { window = window; issued = 0; in_flight = []; open_writes = [] } }
    {
        InFlight {
            window,
            issued: 0,
            count: 0,
            marks: Marks::NONE,
            open_marks: Marks::NONE,
        }
    }

    pub(crate) fn issued(&self) -> u64
        ensures { result ≡ self.now.issued }
    {
        self.issued
    }

    /// How many writes are in flight.
    pub(crate) fn len(&self) -> u64
        ensures { result ≡ length self.now.in_flight }
    {
        self.count
    }

    /// Whether a write is in flight.
    pub(crate) fn has(&self, seq: Seq) -> bool
        ensures { result ≡ has self.now.in_flight seq }
    {
        let number = seq.0;
        is_last(number, self.issued, self.window) && self.marks.has(slot(number, self.window))
    }

    /// Whether a write is open.
    pub(crate) fn is_open(&self, seq: Seq) -> bool
        ensures { result ≡ has self.now.open_writes seq }
    {
        self.has(seq) && self.open_marks.has(slot(seq.0, self.window))
    }

    /// Whether a write in flight lies a whole window below the next one: only one can.
    pub(crate) fn is_held(&self) -> bool
        ensures { result ≡ is_held self.now.window self.now.issued self.now.in_flight }
    {
        self.issued >= self.window && self.has(Seq(self.issued - self.window))
    }

    /// The marks of the last window of numbers issued: which of them have completed.
    pub(crate) fn completed(&self) -> [u64; 4]
        ensures { result ≡ marks_of (has_completed self.now.issued self.now.in_flight)
            (floor_of self.now.window self.now.issued) }
    {
        let floor = self.issued.saturating_sub(self.window);
        [
            self.completed_from(floor),
            self.completed_from(floor + 64),
            self.completed_from(floor + 128),
            self.completed_from(floor + 192),
        ]
    }

    /// Which of the 64 numbers from this one on have completed, as bits, the lowest first.
    fn completed_from(&self, first: u64) -> u64
        requires { self.now.issued ≤ first + self.now.window }
        ensures { result ≡ word_of (has_completed self.now.issued self.now.in_flight) first }
    {
        if first >= self.issued {
            return 0;
        }
        let slot = slot(first, self.window);
        let flying = around(&self.marks, slot, self.window as usize);
        !flying & low_bits(self.issued - first)
    }

    /// Issues the next write.
    pub(crate) fn issue(&mut self)
        requires clear { is_held self.old.window self.old.issued self.old.in_flight ≡ false }
        requires fewer { self.old.issued < MAX_WRITES }
        ensures { self.new ≡ record self.old {
          issued = self.old.issued + 1;
          in_flight = self.old.in_flight ++ self.old.issued ∷ [];
          open_writes = self.old.open_writes ++ self.old.issued ∷ [];
        } }
    {
        let slot = slot(self.issued, self.window);
        self.marks.set(slot);
        self.open_marks.set(slot);
        self.count += 1;
        self.issued += 1;
    }

    /// Takes a write out of the writes in flight.
    pub(crate) fn complete(&mut self, seq: Seq)
        requires { IsTrue (has self.old.open_writes seq) }
        ensures { self.new ≡ record self.old {
          in_flight = without seq self.old.in_flight;
          open_writes = without seq self.old.open_writes;
        } }
    {
        let slot = slot(seq.0, self.window);
        self.marks.clear(slot);
        self.open_marks.clear(slot);
        self.count -= 1;
    }

    /// Takes a write out of the open ones.
    pub(crate) fn fail(&mut self, seq: Seq)
        requires { IsTrue (has self.old.open_writes seq) }
        ensures { self.new ≡ record self.old { open_writes = without seq self.old.open_writes } }
    {
        self.open_marks.clear(slot(seq.0, self.window));
    }
}

/// Whether a number is among the last of those issued, as many as the window is long.
fn is_last(number: u64, issued: u64, window: u64) -> bool
    ensures { result ≡ (nat_lt number issued && nat_le issued (number + window)) }
{
    number < issued && issued - number <= window
}

/// The slot of a number.
fn slot(number: u64, window: u64) -> usize
    requires least { 1 ≤ window }
    requires most { window ≤ MAX_WINDOW }
    ensures value { result ≡ number % window }
    ensures within { result < MAX_WINDOW }
{
    (number % window) as usize
}
