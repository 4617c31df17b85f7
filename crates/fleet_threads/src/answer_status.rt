//! What the calling thread waits for.

use crate::fault::FleetFault;
use crate::flags::Flags;
use crate::nodes::{Client, Nodes, Server};
use client_core::{Outcome, RequestKind};
use disk_model::MemNotes;
use fc_base::{Attempt, JobNo, MAX_JOBS, RunNo, ServerNo};
use messages::Reason;
use server_core::{Progress, Stage};
use std::sync::{Mutex, Wait};
use std::thread;

/// What the calling thread waits for, at every server.
#[derive(Clone, Copy)]
pub(crate) enum AnswerStatus {
    /// The run has started there, and writes.
    Writing(RunNo),
    /// The server was started again behind the run.
    Restarted(RunNo),
    /// The check of this attempt is open, and no job of it waits for its state.
    Ready(Attempt),
    /// The client has heard how each check of this attempt has ended.
    Reported(Attempt),
}

/// Waits until that has come at every server. A thread that has ended with a fault ends the wait, and so
/// does a server that refuses the request.
pub(crate) fn wait_for<R: Wait>(
    rt: &R,
    nodes: &Nodes,
    flags: &Flags,
    awaited: &AnswerStatus,
) -> Result<(), FleetFault> {
    for _ in rt.forever() {
        if let Some(fault) = flags.fault(rt) {
            return Err(FleetFault::Refused(fault));
        }
        if has_come(rt, nodes, awaited)? {
            return Ok(());
        }
        thread::yield_now();
    }
    unreachable!()
}

/// Whether that has come at every server. One lock is taken at a time.
fn has_come<R: Wait>(rt: &R, nodes: &Nodes, awaited: &AnswerStatus) -> Result<bool, FleetFault> {
    let is_told = is_told(&nodes.client.lock(rt), awaited)?;
    Ok(is_told && is_so_everywhere(rt, &nodes.servers, awaited))
}

/// Whether it is so at each server.
fn is_so_everywhere<R: Wait>(rt: &R, servers: &[Mutex<Server>], awaited: &AnswerStatus) -> bool {
    for server in servers {
        if !is_so(&server.lock(rt), awaited) {
            return false;
        }
    }
    true
}

/// Whether it is so at a server.
fn is_so(server: &Server, awaited: &AnswerStatus) -> bool {
    let Some(server) = server.server() else {
        return false;
    };
    let status = server.status();
    match awaited {
        AnswerStatus::Writing(run) => status.run == *run && status.stage == Stage::Writing,
        AnswerStatus::Restarted(run) => status.last_run == *run && status.stage == Stage::Idle,
        AnswerStatus::Ready(attempt) | AnswerStatus::Reported(attempt) => {
            status.attempt == *attempt && !wants(server)
        }
    }
}

/// Whether a job of the open check waits for its state.
fn wants(server: &server_core::Server<MemNotes>) -> bool {
    for job in 0..MAX_JOBS {
        if let Some(Progress::Wanting) = server.check_progress(JobNo(job)) {
            return true;
        }
    }
    false
}

/// Whether the client has heard what it has to hear of it. A server's refusal is the answer, but for a
/// state that doesn't fit, which ends the check of its job.
fn is_told(client: &Client, awaited: &AnswerStatus) -> Result<bool, FleetFault> {
    let Some(core) = client.client() else {
        return Err(FleetFault::NodeOff);
    };
    let (kind, number) = awaited.request();
    let mut told = true;
    for server in 0..client.servers() {
        let outcome = core.outcome(kind, number, ServerNo(server));
        match outcome {
            Outcome::Refused(Reason::Misfit) => {}
            Outcome::Refused(reason) => return Err(FleetFault::Refused(reason.fault())),
            outcome => told = told && outcome.has_ended(),
        }
    }
    Ok(told || !matches!(awaited, AnswerStatus::Reported(_)))
}

impl AnswerStatus {
    /// The client's request that brings it, by the number of its run or attempt.
    fn request(&self) -> (RequestKind, u64) {
        match self {
            AnswerStatus::Writing(run) => (RequestKind::Begin, run.0),
            AnswerStatus::Restarted(run) => (RequestKind::Trigger, run.0),
            AnswerStatus::Ready(attempt) | AnswerStatus::Reported(attempt) => {
                (RequestKind::Verify, attempt.0)
            }
        }
    }
}
