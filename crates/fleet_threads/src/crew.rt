//! The workers of all servers.

ghost use Rattle.std.specs.Prelude.{◌≤◌, length};

use crate::flags::Flags;
use crate::gate::Gate;
use crate::nodes::{Nodes, Server};
use crate::worker::run_worker;
use cells::Seat;
use disk_model::MemDisk;
use std::alloc::Global;
use std::sync::{Mutex, Wait};
use std::thread;
use std::thread::Threads;

/// A worker: the place of its server, and its seat there, unless it is at work.
#[derive(Drop)]
pub struct WorkerSeat {
    server: usize,
    seat: Option<Seat>,
}

impl WorkerSeat {
    /// A worker of the server at this place.
    pub(crate) fn new(server: usize, seat: Seat) -> WorkerSeat {
        WorkerSeat {
            server,
            seat: Some(seat),
        }
    }

    /// Its seat.
    pub fn into_seat(self) -> Option<Seat> {
        let WorkerSeat { seat, .. } = self;
        seat
    }

    /// Works until there is nothing more to write at its server.
    fn work<R: Wait, G: Gate>(
        &mut self,
        rt: &R,
        alloc: Global,
        nodes: &Nodes,
        gate: &G,
        flags: &Flags,
    ) {
        let (Some(cell), Some(files)) = (
            nodes.servers.get(self.server),
            nodes.files.get(self.server),
        ) else {
            return;
        };
        if !files.is_empty() {
            work_from(rt, alloc, cell, &mut self.seat, files, gate, flags);
        }
    }
}

/// Works from a seat, if it is there, which comes back.
fn work_from<R: Wait, G: Gate>(
    rt: &R,
    alloc: Global,
    cell: &Mutex<Server>,
    seat: &mut Option<Seat>,
    files: &[Mutex<MemDisk>],
    gate: &G,
    flags: &Flags,
)
    requires { 1 ≤ length files.now }
{
    *seat = match seat.take() {
        Some(seat) => match run_worker(rt, alloc, cell, seat, files, gate) {
            Ok(seat) => Some(seat),
            Err((seat, fault)) => {
                flags.fail(rt, fault);
                Some(seat)
            }
        },
        None => None,
    };
}

/// Has all workers work, each in a thread of its own, once they may start; none where the fleet stops
/// before. Where no thread can be made, they work one after the other. The seats come back.
pub(crate) fn work_all<R: Threads + Wait + Sync, G: Gate + Sync>(
    rt: &R,
    alloc: Global,
    nodes: &Nodes,
    mut hands: Vec<WorkerSeat>,
    gate: &G,
    flags: &Flags,
) -> Vec<WorkerSeat> {
    if !wait_for_start(rt, flags) {
        return hands;
    }
    let threads = hands.len().max(1);
    thread::for_each_mut(
        rt,
        &mut hands,
        threads,
        &|_, hand| {
            hand.work(rt, alloc, nodes, gate, flags);
        },
    );
    flags.work_ends();
    hands
}

/// Waits until the workers may start. It is false where the fleet stops before.
fn wait_for_start<R: Wait>(rt: &R, flags: &Flags) -> bool {
    for _ in rt.forever() {
        if flags.has_started() {
            return true;
        }
        if flags.has_stopped() {
            return false;
        }
        thread::yield_now();
    }
    unreachable!()
}
