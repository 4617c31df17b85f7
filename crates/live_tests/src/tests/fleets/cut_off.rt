//! A fleet one of whose workers fails while another has much to write.

use super::gates::Always;
use super::story::READING;
use engine::Ticket;
use fc_base::Fault;
use node_threads::{FleetFault, Gate, run_fleet};
use std::alloc::Global;
use std::sync::Wait;
use std::sync::atomic::{AtomicBool, AtomicU64, Ordering};
use std::thread::Threads;

/// 32,768 writes to two blocks.
const WRITING: &[u8] = b"[a]\nrw=write\nbs=512\nsize=1k\nio_size=16m\n";

/// The number of the last.
const LAST: u64 = 32_767;

/// How often the gate is asked for each write that it lets through.
const ASKS: u64 = 1_024;

/// A gate that stays shut for server 0, and opens for others once in 1,024 times: so much is left to write
/// when the worker of server 0 has spent its million turns. It notes whether somebody asked for the last write.
#[derive(Drop)]
struct Starving {
    asks: AtomicU64,
    last: AtomicBool,
}

impl Gate for Starving {
    fn may_write(&self, ticket: &Ticket) -> bool {
        if ticket.key.server.0 == 0 {
            return false;
        }
        if ticket.seq.0 == LAST {
            self.last.store(true, Ordering::SeqCst);
        }
        self.asks.fetch_add(1, Ordering::SeqCst) % ASKS == ASKS - 1
    }

    fn written(&self, _ticket: &Ticket) {}
}

/// Whether the fleet ends with the fault of the worker that has failed, and the other one comes to no end of
/// its writes: its server is cut off before.
pub fn ends_before_all_is_written<R: Threads + Wait + Sync>(rt: &R, alloc: Global) -> bool {
    let gate = Starving {
        asks: AtomicU64::new(0),
        last: AtomicBool::new(false),
    };
    let mut trigger = Always(false);
    let ran = run_fleet(rt, alloc, 2, 1, WRITING, READING, &mut trigger, &gate);
    let refused = matches!(ran, Err(FleetFault::Refused(Fault::TurnsSpent)));
    refused && !gate.last.load(Ordering::SeqCst)
}
