//! What the calling thread does.

ghost use Rattle.std.specs.Prelude.{◌≤◌};

use crate::answer_status::{AnswerStatus, wait_for};
use crate::checks::check_all;
use crate::fault::FleetFault;
use crate::flags::Flags;
use crate::nodes::Nodes;
use crate::post::post;
use crate::trigger::Trigger;
use cells::{Answer, ClientCommand, ClientRequest};
use fc_base::{Attempt, Fault, MAX_TEXT, MAX_WORKERS, RunNo};
use messages::{Act, Text};
use std::alloc::Global;
use std::sync::Wait;
use std::thread;
use std::thread::Threads;

/// What a fleet is to do: how many workers each of its servers has, and the job files by which it writes
/// and checks.
#[derive(Clone, Copy)]
pub struct Plan<'w, 'r> {
    pub workers: u32,
    pub write: &'w [u8],
    pub read: &'r [u8],
}

/// Begins a run, and lets the workers start once all servers write; triggers it with a cut once the
/// trigger is pulled or all workers are done; verifies it once all servers were started again, and checks
/// their files once they have their states. It ends once the client has heard how each check has ended, and
/// answers the run.
pub(crate) fn run<R: Threads + Wait + Sync, T: Trigger>(
    rt: &R,
    alloc: Global,
    nodes: &Nodes,
    flags: &Flags,
    plan: Plan<'_, '_>,
    trigger: &mut T,
) -> Result<RunNo, FleetFault>
    requires some { 1 ≤ plan.workers }
    requires few { plan.workers ≤ MAX_WORKERS }
{
    let Plan {
        workers,
        write,
        read,
    } = plan;
    let run = begin(rt, nodes, text_of(alloc, write)?)?;
    write_until_cut(rt, nodes, flags, run, trigger)?;
    let attempt = verify(rt, nodes, run, text_of(alloc, read)?)?;
    check_files(rt, alloc, nodes, flags, attempt, workers)?;
    Ok(run)
}

/// The workers of a run may start once all servers write; it is triggered with a cut, and each server is
/// started again.
fn write_until_cut<R: Wait, T: Trigger>(
    rt: &R,
    nodes: &Nodes,
    flags: &Flags,
    run: RunNo,
    trigger: &mut T,
) -> Result<(), FleetFault> {
    wait_for(rt, nodes, flags, &AnswerStatus::Writing(run))?;
    flags.start();
    wait_for_trigger(rt, flags, trigger)?;
    trigger_cuts(rt, nodes, run)?;
    wait_for(rt, nodes, flags, &AnswerStatus::Restarted(run))
}

/// The files of all servers are checked once they have their states, and the client hears of each check.
fn check_files<R: Threads + Wait + Sync>(
    rt: &R,
    alloc: Global,
    nodes: &Nodes,
    flags: &Flags,
    attempt: Attempt,
    workers: u32,
) -> Result<(), FleetFault>
    requires some { 1 ≤ workers }
    requires few { workers ≤ MAX_WORKERS }
{
    wait_for(rt, nodes, flags, &AnswerStatus::Ready(attempt))?;
    check_all(rt, alloc, nodes, attempt, workers)?;
    wait_for(rt, nodes, flags, &AnswerStatus::Reported(attempt))
}

/// The text of a job file.
fn text_of(alloc: Global, bytes: &[u8]) -> Result<Text, Fault> {
    if bytes.len() > MAX_TEXT {
        return Err(Fault::JobTooLong);
    }
    Text::copied(alloc, bytes).or(Err(Fault::NoMemory))
}

/// Waits until the trigger is pulled or all workers are done. A thread that has ended with a fault ends
/// the wait.
fn wait_for_trigger<R: Wait, T: Trigger>(
    rt: &R,
    flags: &Flags,
    trigger: &mut T,
) -> Result<(), FleetFault> {
    for _ in rt.forever() {
        if let Some(fault) = flags.fault(rt) {
            return Err(FleetFault::Refused(fault));
        }
        if trigger.pulled() || flags.has_worked() {
            return Ok(());
        }
        thread::yield_now();
    }
    unreachable!()
}

/// Has the client begin a run.
fn begin<R: Wait>(rt: &R, nodes: &Nodes, text: Text) -> Result<RunNo, FleetFault> {
    match ask(rt, nodes, ClientRequest::Begin(text))? {
        Answer::Run(run) => Ok(run),
        _ => Err(FleetFault::OtherAnswer),
    }
}

/// Has the client trigger the run, and with it the cut of each server.
fn trigger_cuts<R: Wait>(rt: &R, nodes: &Nodes, run: RunNo) -> Result<(), Fault> {
    ask(rt, nodes, ClientRequest::Trigger(run, Act::Cut))?;
    Ok(())
}

/// Has the client verify the run.
fn verify<R: Wait>(rt: &R, nodes: &Nodes, run: RunNo, text: Text) -> Result<Attempt, FleetFault> {
    match ask(rt, nodes, ClientRequest::Verify(run, text))? {
        Answer::Attempt(attempt) => Ok(attempt),
        _ => Err(FleetFault::OtherAnswer),
    }
}

/// Asks this of the client, under its lock and that of the hub.
fn ask<R: Wait>(rt: &R, nodes: &Nodes, request: ClientRequest) -> Result<Answer, Fault> {
    let told = post(
        rt,
        &nodes.hub,
        &nodes.client,
        ClientCommand::Request(request),
    )?;
    Ok(told.answer)
}
