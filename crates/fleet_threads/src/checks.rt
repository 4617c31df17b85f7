//! The checks of all jobs.

ghost use Rattle.std.specs.Prelude.{◌≤◌};

use crate::fault::FleetFault;
use crate::nodes::{Nodes, Server, add};
use crate::parallel::check_jobs;
use crate::post::post;
use crate::task::CheckTask;
use cells::Report;
use disk_model::MemDisk;
use fc_base::{Attempt, CheckReport, Fault, JobNo, JobRecord, Key, MAX_JOBS, MAX_WORKERS};
use server_core::Progress;
use std::alloc::Global;
use std::mem;
use std::sync::{Mutex, Wait};
use std::thread::Threads;
use verify_state::VerifyState;

/// A check that is due: the place of the server and its boot, its job, and whether that is checked with a
/// state.
#[derive(Clone, Copy)]
struct DueCheck {
    place: usize,
    boot: u64,
    rec: JobRecord,
    key: Key,
    has_state: bool,
    fatal: bool,
}

/// Checks the jobs of all servers by so many threads at once, and has each server take its reports. The
/// checks take the files: what is left are blank ones, which are off.
pub(crate) fn check_all<R: Threads + Wait + Sync>(
    rt: &R,
    alloc: Global,
    nodes: &Nodes,
    attempt: Attempt,
    workers: u32,
) -> Result<(), FleetFault>
    requires some { 1 ≤ workers }
    requires few { workers ≤ MAX_WORKERS }
{
    let dues = dues_of(rt, alloc, &nodes.servers)?;
    let tasks = tasks_of(rt, alloc, nodes, &dues)?;
    let reports = check_jobs(rt, alloc, tasks, workers)?;
    tell_all(rt, nodes, attempt, &dues, &reports)
}

/// The checks that are due at all servers.
fn dues_of<R: Wait>(
    rt: &R,
    alloc: Global,
    servers: &[Mutex<Server>],
) -> Result<Vec<DueCheck>, Fault> {
    let mut dues = Vec::new(alloc);
    for (place, server) in servers.iter().enumerate() {
        add_all_due(&server.lock(rt), place, &mut dues)?;
    }
    Ok(dues)
}

/// Adds the checks that are due at a server: of each job of its open check that isn't refused.
fn add_all_due(server: &Server, place: usize, dues: &mut Vec<DueCheck>) -> Result<(), Fault> {
    for job in 0..MAX_JOBS {
        add_due(server, place, JobNo(job), dues)?;
    }
    Ok(())
}

/// Adds the check of a job, if it is due.
fn add_due(
    server: &Server,
    place: usize,
    number: JobNo,
    dues: &mut Vec<DueCheck>,
) -> Result<(), Fault> {
    match due_of(server, place, number) {
        Some(due) => add(dues, due),
        None => Ok(()),
    }
}

/// The check of a job, if it is due.
fn due_of(server: &Server, place: usize, number: JobNo) -> Option<DueCheck> {
    let core = server.server()?;
    let job = core.check_job(number)?;
    let has_state = match core.check_progress(number)? {
        Progress::Full => false,
        Progress::With(_) => true,
        Progress::Wanting | Progress::Refused(_) | Progress::Done(_) => return None,
    };
    let status = core.status();
    Some(DueCheck {
        place,
        boot: status.boot,
        rec: job.rec,
        key: Key {
            run: status.last_run,
            server: server.me(),
            job: number,
        },
        has_state,
        fatal: job.fatal,
    })
}

/// The checks with their files.
fn tasks_of<R: Wait>(
    rt: &R,
    alloc: Global,
    nodes: &Nodes,
    dues: &[DueCheck],
) -> Result<Vec<CheckTask<MemDisk>>, FleetFault> {
    let mut tasks = Vec::new(alloc);
    for due in dues {
        add(&mut tasks, task_of(rt, alloc, nodes, due)?)?;
    }
    Ok(tasks)
}

/// A check with its file.
fn task_of<R: Wait>(
    rt: &R,
    alloc: Global,
    nodes: &Nodes,
    due: &DueCheck,
) -> Result<CheckTask<MemDisk>, FleetFault> {
    let state = if due.has_state {
        Some(state_of(rt, nodes, due)?)
    } else {
        None
    };
    Ok(CheckTask {
        rec: due.rec,
        key: due.key,
        state,
        fatal: due.fatal,
        disk: take_file(rt, alloc, nodes, due)?,
    })
}

/// The state by which a job is checked.
fn state_of<R: Wait>(rt: &R, nodes: &Nodes, due: &DueCheck) -> Result<VerifyState, FleetFault> {
    match nodes.servers.get(due.place) {
        Some(server) => state_at(&server.lock(rt), due.key.job),
        None => Err(FleetFault::NoServer),
    }
}

fn state_at(server: &Server, job: JobNo) -> Result<VerifyState, FleetFault> {
    let Some(core) = server.server() else {
        return Err(FleetFault::NodeOff);
    };
    match core.check_progress(job) {
        Some(Progress::With(state)) => Ok(state.copy()),
        _ => Err(FleetFault::NoState(server.me(), job)),
    }
}

/// Takes the file of a job, and leaves a blank one, which is off.
fn take_file<R: Wait>(
    rt: &R,
    alloc: Global,
    nodes: &Nodes,
    due: &DueCheck,
) -> Result<MemDisk, FleetFault> {
    match file_of(nodes, due) {
        Some(file) => Ok(mem::replace(&mut *file.lock(rt), MemDisk::new(alloc))),
        None => Err(FleetFault::NoServer),
    }
}

/// The file of a job.
fn file_of<'n>(nodes: &'n Nodes, due: &DueCheck) -> Option<&'n Mutex<MemDisk>> {
    nodes.files.get(due.place)?.get(due.key.job.0 as usize)
}

/// Has each server take its reports, one for each check.
fn tell_all<R: Wait>(
    rt: &R,
    nodes: &Nodes,
    attempt: Attempt,
    dues: &[DueCheck],
    reports: &[CheckReport],
) -> Result<(), FleetFault> {
    for (due, report) in dues.iter().zip(reports.iter()) {
        tell(rt, nodes, attempt, due, report)?;
    }
    Ok(())
}

/// Has the server take the report of a job's check, and send it.
fn tell<R: Wait>(
    rt: &R,
    nodes: &Nodes,
    attempt: Attempt,
    due: &DueCheck,
    report: &CheckReport,
) -> Result<(), FleetFault> {
    let Some(server) = nodes.servers.get(due.place) else {
        return Err(FleetFault::NoServer);
    };
    let report = Report {
        boot: due.boot,
        attempt,
        job: due.key.job,
        report: *report,
    };
    post(rt, &nodes.hub, server, report)?;
    Ok(())
}
