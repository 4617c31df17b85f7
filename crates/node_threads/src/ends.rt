//! How the checks of a fleet have ended.

ghost use Rattle.std.specs.Prelude.{◌≡◌, min, length, List, IfOk, OnOk};
ghost use Rattle.fc_base.specs.declared.limits.TheConstants.{MAX_JOBS};
ghost use Rattle.server_core.specs.History.{Opening};
ghost use Rattle.server_core.specs.Answers.{shown_entries};
ghost use Rattle.server_core.specs.Hearing.{FrameEntry, packets_heard};
ghost use Rattle.server_core.specs.FrameEnds.{StandsFor};
ghost use Rattle.disk_model.specs.MemNotes.{note_of};
ghost use Rattle.node_threads.specs.Ends.{AddsEnds, Checks, IsEndAt, Refuses, jobs_checked, place_of, report_of};
ghost use Rattle.node_threads.specs.Heard.{AreHeard};

use crate::left::FleetLeft;
use client_core::Received;
use disk_model::MemNotes;
use fc_base::{Attempt, CheckReport, JobNo, MAX_JOBS, ServerNo};
use fleet_threads::{FleetFault, Server, add};
use server_core::Progress;
use std::alloc::Global;

/// How the check of a job has ended: by its report, or by none, where the job is of another shape than
/// the state that was kept of it (`Misfit`).
#[derive(Clone, Copy)]
pub struct CheckEnd {
    pub server: ServerNo,
    pub job: JobNo,
    pub report: Option<CheckReport>,
}

/// The ends of the last attempt that the client has begun, by server and job, from so many servers which
/// are left with it: of each job of a server's open check the report that the client has heard.
///
/// `NoMemory`; that a node is off, a server isn't there or has no open check of that attempt, or a job of it
/// neither a report nor a refusal, is astray.
pub(crate) fn ends_of(
    alloc: Global,
    left: &FleetLeft,
    servers: u32,
) -> Result<Vec<CheckEnd>, FleetFault>
    ensures { IfOk result (λ ends. AreHeard left.now servers ends.items) }
{
    let Some(core) = left.client.client() else {
        return Err(FleetFault::NodeOff);
    };
    let (attempt, reports) = (Attempt(core.attempts_used()), core.reports());
    let mut ends = Vec::new(alloc);
    for number in 0..servers {
        add_ends(&left.servers, reports, attempt, number, &mut ends)?;
    }
    Ok(ends)
}

/// Adds the ends of a server's jobs.
fn add_ends(
    servers: &[Server],
    reports: &[Received],
    attempt: Attempt,
    number: u32,
    ends: &mut Vec<CheckEnd>,
) -> Result<(), FleetFault>
    ensures { OnOk result
        (AddsEnds servers.now reports.now attempt number ends.old.items ends.new.items) }
{
    let Some(server) = servers.get(number as usize) else {
        return Err(FleetFault::NoServer);
    };
    let jobs = jobs_in(server, attempt)?;
    for job in 0..jobs {
        let end = end_of(server, reports, attempt, ServerNo(number), JobNo(job))?;
        add(ends, end)?;
    }
    Ok(())
}

/// How many jobs the open check of a server has, which is of this attempt.
fn jobs_in(server: &Server, attempt: Attempt) -> Result<u32, FleetFault>
    ensures { IfOk result (λ jobs. Checks attempt jobs server.now) }
{
    let Some(core) = server.server() else {
        return Err(FleetFault::NodeOff);
    };
    let jobs = count_of(core);
    if jobs == 0 || core.status().attempt != attempt {
        return Err(FleetFault::NoCheck(server.me()));
    }
    Ok(jobs)
}

/// How many jobs the open check of a server has.
fn count_of(core: &server_core::Server<MemNotes>) -> u32
    ensures { (opening : Opening) (past : List FrameEntry) →
        StandsFor note_of core.now opening past →
        result ≡ min MAX_JOBS
        (length (jobs_checked opening (shown_entries (packets_heard opening past)))) }
{
    for job in 0..MAX_JOBS {
        if core.check_job(JobNo(job)).is_none() {
            return job;
        }
    }
    MAX_JOBS
}

/// The end of a server's job.
fn end_of(
    server: &Server,
    reports: &[Received],
    attempt: Attempt,
    number: ServerNo,
    job: JobNo,
) -> Result<CheckEnd, FleetFault>
    ensures place { IfOk result (λ end. place_of end ≡ (number, job)) }
    ensures end { IfOk result (IsEndAt server.now reports.now attempt) }
{
    let report = report_of(reports, attempt, number, job);
    if report.is_none() {
        look_for_refusal(server, job)?;
    }
    Ok(CheckEnd {
        server: number,
        job,
        report,
    })
}

/// The report of a job, as the client has heard it.
fn report_of(
    reports: &[Received],
    attempt: Attempt,
    server: ServerNo,
    job: JobNo,
) -> Option<CheckReport>
    ensures { result ≡ report_of reports.now attempt server job }
{
    let received = reports.iter().find(|received| {
        received.attempt == attempt && received.server == server && received.job == job
    })?;
    Some(received.report)
}

/// Looks that a server has refused the state that came for a job.
fn look_for_refusal(server: &Server, job: JobNo) -> Result<(), FleetFault>
    ensures { OnOk result (Refuses job server.now) }
{
    let Some(core) = server.server() else {
        return Err(FleetFault::NodeOff);
    };
    match core.check_progress(job) {
        Some(Progress::Refused(_)) => Ok(()),
        _ => Err(FleetFault::NoEnd(server.me(), job)),
    }
}
