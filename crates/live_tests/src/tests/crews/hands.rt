//! Workers in threads of their own, and how they end.

use super::site::Server;
use disk_model::Disk;
use engine::Issue;
use fc_base::Fault;
use node_threads::{Answer, Gate, Seat, run_worker};
use std::alloc::Global;
use std::sync::{Mutex, Wait};

/// How a worker ends.
#[derive(Clone, Copy, PartialEq, Eq)]
pub enum Ended {
    /// There was nothing more to write.
    Finished,
    /// A write has failed.
    Stopped,
    /// Its server is off.
    Off,
    /// With the fault of this number.
    Refused(u8),
    /// Otherwise.
    Astray,
}

fn last_of(seat: &Seat) -> Ended {
    match seat.last() {
        Some(Ok(said)) => match said.answer {
            Answer::Issued(Issue::Finished) => Ended::Finished,
            Answer::Issued(Issue::Stopped) => Ended::Stopped,
            _ => Ended::Astray,
        },
        Some(Err(Fault::NodeOff)) => Ended::Off,
        _ => Ended::Astray,
    }
}

/// A worker, before and after it works: how it has ended, and how much its seat has applied.
#[derive(Drop)]
pub struct Hand {
    seat: Option<Seat>,
    pub ended: Result<Ended, Fault>,
    pub applied: u64,
}

impl Hand {
    pub fn new(seat: Option<Seat>) -> Hand {
        Hand {
            seat,
            ended: Ok(Ended::Astray),
            applied: 0,
        }
    }

    /// Works at the server with these files. Want of memory is handed on.
    pub fn work<R: Wait, D: Disk, G: Gate>(
        &mut self,
        rt: &R,
        alloc: Global,
        cell: &Mutex<Server>,
        files: &[Mutex<D>],
        gate: &G,
    ) {
        if files.is_empty() {
            return;
        }
        if let Some(seat) = self.seat.take() {
            match run_worker(rt, alloc, cell, seat, files, gate) {
                Ok(seat) => self.rest(seat, None),
                Err((seat, fault)) => self.rest(seat, Some(fault)),
            }
        }
    }

    /// The worker has ended so, with this seat.
    fn rest(&mut self, seat: Seat, fault: Option<Fault>) {
        self.ended = match fault {
            None => Ok(last_of(&seat)),
            Some(Fault::NoMemory) => Err(Fault::NoMemory),
            Some(fault) => Ok(Ended::Refused(fault.number())),
        };
        self.applied = seat.applied();
        self.seat = Some(seat);
    }

    pub fn give_back(&mut self) -> Option<Seat> {
        self.seat.take()
    }
}
