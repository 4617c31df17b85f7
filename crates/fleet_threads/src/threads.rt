//! The threads of a fleet, from their start to their end.

ghost use Rattle.std.specs.Prelude.{◌≡◌, ◌≤◌, length};

use crate::crew::{WorkerSeat, work_all};
use crate::cut::cut_all;
use crate::errand;
use crate::errand::Plan;
use crate::fault::FleetFault;
use crate::flags::Flags;
use crate::gate::Gate;
use crate::nodes::Nodes;
use crate::post::run_post;
use crate::trigger::Trigger;
use cells::Seat;
use fc_base::{Fault, MAX_WORKERS, RunNo};
use std::alloc::Global;
use std::sync::Wait;
use std::thread;
use std::thread::Threads;

/// The seed of the words by which the post picks frames.
const SEED: u64 = 1;

/// How the threads of a fleet have ended, by the first fault of one; and the seats, which come back.
#[derive(Drop)]
pub struct FleetEnd {
    pub ended: Result<RunNo, FleetFault>,
    pub posts: Vec<Seat>,
    pub hands: Vec<WorkerSeat>,
}

/// Runs the threads: one delivers frames, one has the workers work, and the calling one does the errand.
/// All have ended when it returns. `NoMemory`: a thread couldn't be started.
pub fn run_threads<R: Threads + Wait + Sync, T: Trigger, G: Gate + Sync>(
    rt: &R,
    alloc: Global,
    nodes: &Nodes,
    posts: Vec<Seat>,
    hands: Vec<WorkerSeat>,
    plan: Plan<'_, '_>,
    trigger: &mut T,
    gate: &G,
) -> Result<FleetEnd, Fault>
    requires posts { length posts.items ≡ length nodes.now.servers.items }
    requires files { length nodes.now.files.items ≡ length nodes.now.servers.items }
    requires some { 1 ≤ plan.workers }
    requires few { plan.workers ≤ MAX_WORKERS }
{
    let flags = Flags::new();
    let flags = &flags;
    thread::scope(
        thread::scope_env(),
        rt,
        move |scope| -> Result<FleetEnd, Fault>
            requires posts { length posts.items ≡ length nodes.now.servers.items }
            requires files { length nodes.now.files.items ≡ length nodes.now.servers.items }
            requires some { 1 ≤ plan.workers }
            requires few { plan.workers ≤ MAX_WORKERS }
        {
            let post = move || -> Vec<Seat>
                requires posts { length posts.items ≡ length nodes.now.servers.items }
                requires files { length nodes.now.files.items ≡ length nodes.now.servers.items }
            { deliver_all(rt, nodes, posts, flags) };
            let Ok(post) = scope.spawn(post) else {
                return Err(Fault::NoMemory);
            };
            let Ok(crew) = scope.spawn(move || work_all(rt, alloc, nodes, hands, gate, flags))
            else {
                flags.stop();
                return Err(Fault::NoMemory);
            };
            let ended = errand::run(rt, alloc, nodes, flags, plan, trigger);
            flags.stop_after(rt, &ended);
            let (posts, hands) = (post.join(rt), crew.join(rt));
            let ended = flags.or_fault(rt, ended);
            Ok(FleetEnd {
                ended,
                posts,
                hands,
            })
        },
    )
}

/// Delivers frames until the fleet stops. Where a thread has failed, all servers are then cut off, so that
/// no worker goes on. The seats come back.
fn deliver_all<R: Wait>(rt: &R, nodes: &Nodes, mut posts: Vec<Seat>, flags: &Flags) -> Vec<Seat>
    requires posts { length posts.items ≡ length nodes.now.servers.items }
    requires files { length nodes.now.files.items ≡ length nodes.now.servers.items }
{
    let done = run_post(
        rt,
        &nodes.hub,
        &nodes.client,
        &nodes.servers,
        &mut posts,
        &nodes.files,
        flags.stop_flag(),
        SEED,
    );
    if let Err(fault) = done {
        flags.fail(rt, fault);
    }
    if flags.has_failed(rt) {
        cut_all(rt, &nodes.servers, &mut posts, &nodes.files);
    }
    posts
}
