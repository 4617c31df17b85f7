//! The window of a job.

ghost use Rattle.std.specs.Prelude.{◌≡◌, ◌<◌, ◌≤◌, [], if◌then◌else◌, is_ok, IfOk, OnOk, Ok, Err};
ghost use Rattle.fc_base.specs.Counted.{has};
ghost use Rattle.fc_base.specs.Marks.{floor_of, marks_of};
ghost use Rattle.engine.specs.History.{issue, done, done_marks, fail, in_flight, issued, open_writes, recent};
ghost use Rattle.engine.specs.WindowRules.{HasRoom};
ghost use Rattle.engine.specs.Kept.{StandsFor, EachHistory, Adds, has_completed, room_of, after_issue, after_done, after_fail};

use crate::in_flight::InFlight;
use crate::room::Room;
use circular_buffer::HeapCircularBuffer;
use fc_base::{Fault, MAX_DEPTH, MAX_WINDOW, MAX_WRITES, Seq};
use std::alloc::{AllocError, Global};
use std::marker::Model;

/// Keeps account of the writes of one job: which may be issued, which are in flight, and which
/// last completed.
///
/// Its depth is fio's `iodepth` (manual, "I/O depth"). Its window, the option `x_window` of this
/// profile, is how far writes may run ahead of one that hasn't completed. It keeps the last two
/// windows of completions, the "last so many" of fio's write state (manual, "Verification and
/// triggers"): they suffice to count all completed writes, by
/// [`counting_law`](crate::counting_law). [`marks`](Window::marks) tells the same by a bit for each
/// write, by [`marks_law`](crate::marks_law).
///
/// Only making it and [`recent`](Window::recent) take memory, and only `recent` takes time that
/// grows with the window.
pub struct Window {
    depth: u64,
    in_flight: InFlight,
    completions: HeapCircularBuffer<Seq>,
}

/// By hand, so that the crates above need no proof of it.
impl Drop for Window {
    fn drop(self) {
        let Window {
            depth: _,
            in_flight: _,
            completions: _,
        } = self;
    }
}

impl Model for Window {
    ghost use Rattle.std.specs.Prelude.{◌≡◌, ◌*◌, ◌≤◌};
    ghost use Rattle.engine.specs.Kept.{Kept};

    ghost Value = { Kept };

    ghost view = { λ a. record {
      depth = a.depth;
      window = a.in_flight.window;
      issued = a.in_flight.issued;
      recent = a.completions.items;
      in_flight = a.in_flight.in_flight;
      open_writes = a.in_flight.open_writes;
    } };

    ghost invariant = { λ a. (1 ≤ a.in_flight.window)
        × (a.completions.capacity ≡ 2 * a.in_flight.window) };
}

impl Window {
    /// A window before the first write, with room for two windows of completions.
    pub fn new(alloc: Global, depth: u64, window: u64) -> Result<Window, AllocError>
        requires depth { (1 ≤ depth) × (depth ≤ MAX_DEPTH) }
        requires window { (depth ≤ window) × (window ≤ MAX_WINDOW) }
        ensures { IfOk result (λ made. StandsFor depth window made []) }
    {
        let completions = HeapCircularBuffer::with_capacity(alloc, 2 * window as usize)?;
        Ok(Window {
            depth,
            in_flight: InFlight::new(window),
            completions,
        })
    }

    /// Whether the next write may be issued: `Depth` where as many are in flight as may be, else
    /// `Held` where one that lies a whole window below hasn't completed, else `Open`.
    pub fn room(&self) -> Room
        ensures value { result ≡ room_of self.now }
        ensures history { EachHistory self.now (λ depth window h. HasRoom depth window h result) }
    {
        Room::by(self.in_flight.len(), self.depth, self.in_flight.is_held())
    }

    /// Issues the next write, and answers its number. Numbers start at 0, and a job has at most
    /// [`MAX_WRITES`].
    pub fn issue(&mut self) -> Seq
        requires open { room_of self.old ≡ Room.Open }
        requires fewer { self.old.issued < MAX_WRITES }
        ensures number { result ≡ self.old.issued }
        ensures left { self.new ≡ after_issue self.old }
        ensures history { EachHistory self.old (λ depth window h. result ≡ issued h) }
        ensures added { Adds self.old self.new (issue result) }
    {
        let seq = Seq(self.in_flight.issued());
        self.in_flight.issue();
        seq
    }

    /// Notes that an open write has completed. A write that was not issued, or has completed or
    /// failed already, is refused as [`Fault::NotInFlight`], and nothing changes.
    pub fn complete(&mut self, seq: Seq) -> Result<(), Fault>
        ensures answer { result
            ≡ (if has self.old.open_writes seq then Ok tt else Err Fault.NotInFlight) }
        ensures left { self.new ≡ (if is_ok result then after_done self.old seq else self.old) }
        ensures history { EachHistory self.old
            (λ depth window h. is_ok result ≡ has (open_writes h) seq) }
        ensures added { OnOk result (Adds self.old self.new (done seq)) }
    {
        if !self.in_flight.is_open(seq) {
            return Err(Fault::NotInFlight);
        }
        self.in_flight.complete(seq);
        self.completions.push_back(seq);
        Ok(())
    }

    /// Notes that an open write has failed: it stays in flight, and never completes. A write that
    /// isn't open is refused as [`Fault::NotInFlight`], and nothing changes.
    pub fn fail(&mut self, seq: Seq) -> Result<(), Fault>
        ensures answer { result
            ≡ (if has self.old.open_writes seq then Ok tt else Err Fault.NotInFlight) }
        ensures left { self.new ≡ (if is_ok result then after_fail self.old seq else self.old) }
        ensures history { EachHistory self.old
            (λ depth window h. is_ok result ≡ has (open_writes h) seq) }
        ensures added { OnOk result (Adds self.old self.new (fail seq)) }
    {
        if !self.in_flight.is_open(seq) {
            return Err(Fault::NotInFlight);
        }
        self.in_flight.fail(seq);
        Ok(())
    }

    /// The last two windows of completions, or all where there are fewer, in the order in which the
    /// writes completed.
    pub fn recent(&self) -> Result<Vec<Seq>, AllocError>
        ensures value { IfOk result (λ list. list.items ≡ self.now.recent) }
        ensures history { IfOk result
            (λ list. EachHistory self.now (λ depth window h. list.items ≡ recent window h)) }
    {
        self.completions.to_vec(*self.completions.allocator())
    }

    /// Which of the last writes have completed, a window of them: bit `i % 64` of word `i / 64` is
    /// that of number `floor + i`, where the floor is the number issued less the window, or 0. All
    /// writes below the floor have completed, and the bits of numbers not yet issued are clear.
    pub fn marks(&self) -> [u64; 4]
        ensures value { result ≡ marks_of (has_completed self.now.issued self.now.in_flight)
            (floor_of self.now.window self.now.issued) }
        ensures history { EachHistory self.now
            (λ depth window h. result ≡ done_marks window h) }
    {
        self.in_flight.completed()
    }

    /// Whether a write is issued and hasn't completed. A failed write is in flight.
    pub fn is_in_flight(&self, seq: Seq) -> bool
        ensures value { result ≡ has self.now.in_flight seq }
        ensures history { EachHistory self.now (λ depth window h. result ≡ has (in_flight h) seq) }
    {
        self.in_flight.has(seq)
    }

    /// How many writes were issued, which is also the number of the next one.
    pub fn issued(&self) -> u64
        ensures value { result ≡ self.now.issued }
        ensures history { EachHistory self.now (λ depth window h. result ≡ issued h) }
    {
        self.in_flight.issued()
    }
}
