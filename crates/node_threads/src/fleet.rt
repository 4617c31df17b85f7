//! A fleet, from the text of a run to the reports of its checks.

ghost use Rattle.std.specs.Prelude.{◌≤◌, IfOk};
ghost use Rattle.fc_base.specs.declared.limits.TheConstants.{MAX_SERVERS, MAX_WORKERS};
ghost use Rattle.node_threads.specs.Asked.{IsAsked};
ghost use Rattle.node_threads.specs.Heard.{AreHeard, AreOfOneRun};
ghost use Rattle.node_threads.specs.OneRun.{IsOneRun};

use crate::asked::look_for_errand;
use crate::ends::{CheckEnd, ends_of};
use crate::left::{FleetLeft, take_apart};
use fc_base::{Fault, MAX_TEXT, RunNo};
use fleet_threads::{FleetEnd, FleetFault, Gate, OpenFleet, Plan, Trigger, open, run_threads};
use std::alloc::Global;
use std::sync::Wait;
use std::thread::Threads;

/// Runs a client and so many servers of so many workers each, 16 files in memory at each server: the
/// client begins a run by the text `write`; the workers write, each write once `gate` lets it through,
/// until the trigger is pulled or all of them are done; each server sends its states, is cut off and
/// started again; then the run is verified by the text `read`. How the check of each job has ended, by
/// server and job, as the client has heard it.
///
/// `JobTooLong`: a text is too long. A server that refuses a request ends the run with that fault, as
/// `BadJobs` for a text that isn't a job file of its phase. So does a worker or the post that ends with
/// one, as `TurnsSpent` of a gate that doesn't open. `NoMemory` is want of memory, or of a thread.
/// `Unlike`, the nodes' histories and the network's journal aren't one list of events, and what is
/// astray never come of what is here.
pub fn run_fleet<R: Threads + Wait + Sync, T: Trigger, G: Gate + Sync>(
    rt: &R,
    alloc: Global,
    servers: u32,
    workers: u32,
    write: &[u8],
    read: &[u8],
    trigger: &mut T,
    gate: &G,
) -> Result<Vec<CheckEnd>, FleetFault>
    requires servers { (1 ≤ servers) × (servers ≤ MAX_SERVERS) }
    requires workers { (1 ≤ workers) × (workers ≤ MAX_WORKERS) }
    ensures { IfOk result (λ ends. AreOfOneRun servers write.now read.now ends.items) }
{
    let (ends, _left) = run_and_leave(rt, alloc, servers, workers, write, read, trigger, gate)?;
    Ok(ends)
}

/// As [`run_fleet`], with what is left of the fleet, which is one run.
pub fn run_and_leave<R: Threads + Wait + Sync, T: Trigger, G: Gate + Sync>(
    rt: &R,
    alloc: Global,
    servers: u32,
    workers: u32,
    write: &[u8],
    read: &[u8],
    trigger: &mut T,
    gate: &G,
) -> Result<(Vec<CheckEnd>, FleetLeft), FleetFault>
    requires servers { (1 ≤ servers) × (servers ≤ MAX_SERVERS) }
    requires workers { (1 ≤ workers) × (workers ≤ MAX_WORKERS) }
    ensures heard { IfOk result (λ ran. AreHeard ran.1 servers ran.0.items) }
    ensures one_run { IfOk result (λ ran. IsOneRun ran.1) }
    ensures asked { IfOk result (λ ran. IsAsked ran.1.client write.now read.now) }
{
    if write.len() > MAX_TEXT || read.len() > MAX_TEXT {
        return Err(FleetFault::Refused(Fault::JobTooLong));
    }
    let plan = Plan {
        workers,
        write,
        read,
    };
    let (left, ended) = run_to_the_end(rt, alloc, servers, plan, trigger, gate)?;
    let ends = ends_of_run(alloc, &left, ended?, servers, write, read)?;
    Ok((ends, left))
}

/// Opens a fleet, runs its threads, and takes it apart once all have ended: what is left, which is one run,
/// and how the errand has ended.
fn run_to_the_end<R: Threads + Wait + Sync, T: Trigger, G: Gate + Sync>(
    rt: &R,
    alloc: Global,
    servers: u32,
    plan: Plan<'_, '_>,
    trigger: &mut T,
    gate: &G,
) -> Result<(FleetLeft, Result<RunNo, FleetFault>), FleetFault>
    requires servers { (1 ≤ servers) × (servers ≤ MAX_SERVERS) }
    requires workers { (1 ≤ plan.workers) × (plan.workers ≤ MAX_WORKERS) }
    ensures { IfOk result (λ ran. IsOneRun ran.0) }
{
    let OpenFleet {
        nodes,
        posts,
        hands,
    } = open(alloc, servers, plan.workers)?;
    let FleetEnd {
        ended,
        posts,
        hands,
    } = run_threads(rt, alloc, &nodes, posts, hands, plan, trigger, gate)?;
    let left = take_apart(alloc, nodes, posts, hands)?;
    Ok((left, ended))
}

/// The ends of so many servers, from what is left of a run by these texts.
fn ends_of_run(
    alloc: Global,
    left: &FleetLeft,
    run: RunNo,
    servers: u32,
    write: &[u8],
    read: &[u8],
) -> Result<Vec<CheckEnd>, FleetFault>
    ensures heard { IfOk result (λ ends. AreHeard left.now servers ends.items) }
    ensures asked { IfOk result (λ _. IsAsked left.now.client write.now read.now) }
{
    look_for_errand(&left.client, run, write, read)?;
    ends_of(alloc, left, servers)
}
