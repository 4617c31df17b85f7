//! The plain window: it keeps all completions and all failures, and reads each answer from them, as the
//! manual's reader would. The tests run the other beside it.

use engine::Room;
use fc_base::{Fault, Seq};
use std::alloc::{AllocError, Global};

/// A window whose `complete` and `fail` take memory.
#[derive(Drop)]
pub struct PlainWindow {
    alloc: Global,
    depth: u64,
    window: u64,
    issued: u64,
    completions: Vec<Seq>,
    failures: Vec<Seq>,
}

impl PlainWindow {
    pub fn new(alloc: Global, depth: u64, window: u64) -> Self {
        PlainWindow {
            alloc,
            depth,
            window,
            issued: 0,
            completions: Vec::new(alloc),
            failures: Vec::new(alloc),
        }
    }

    pub fn room(&self) -> Room {
        if self.in_flight_count() >= self.depth {
            Room::Depth
        } else if self.is_held() {
            Room::Held
        } else {
            Room::Open
        }
    }

    pub fn issue(&mut self) -> Seq {
        let seq = Seq(self.issued);
        self.issued = self.issued.saturating_add(1);
        seq
    }

    /// Also answers `NoMemory`, and then nothing changes.
    pub fn complete(&mut self, seq: Seq) -> Result<(), Fault> {
        if !self.is_open(seq) {
            return Err(Fault::NotInFlight);
        }
        self.completions.push(seq).or(Err(Fault::NoMemory))
    }

    /// Also answers `NoMemory`, and then nothing changes.
    pub fn fail(&mut self, seq: Seq) -> Result<(), Fault> {
        if !self.is_open(seq) {
            return Err(Fault::NotInFlight);
        }
        self.failures.push(seq).or(Err(Fault::NoMemory))
    }

    pub fn recent(&self) -> Result<Vec<Seq>, AllocError> {
        let all = self.completions.as_slice();
        let first = all
            .len()
            .saturating_sub((self.window as usize).saturating_mul(2));
        Vec::from_slice(self.alloc, &all[first..])
    }

    pub fn is_in_flight(&self, seq: Seq) -> bool {
        seq.0 < self.issued && !self.completions.contains(&seq)
    }

    pub fn issued(&self) -> u64 {
        self.issued
    }

    fn is_open(&self, seq: Seq) -> bool {
        self.is_in_flight(seq) && !self.failures.contains(&seq)
    }

    fn in_flight_count(&self) -> u64 {
        let mut count: u64 = 0;
        for number in 0..self.issued {
            if !self.completions.contains(&Seq(number)) {
                count = count.saturating_add(1);
            }
        }
        count
    }

    /// Whether a write in flight lies a window or more below the next one.
    fn is_held(&self) -> bool {
        for number in 0..self.issued {
            let is_old = self.issued - number >= self.window;
            if is_old && !self.completions.contains(&Seq(number)) {
                return true;
            }
        }
        false
    }
}
