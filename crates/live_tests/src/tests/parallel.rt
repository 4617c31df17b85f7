//! What no clause shows: that the checks answer where memory is there, and that two tasks are
//! checked at the same time.

ghost use Rattle.std.specs.Prelude.{◌≡◌, ◌≤◌, IfOk};

mod meeting;

use disk_model::{FaultDisk, MemDisk};
use fc_base::{
    CheckReport, Fault, JobNo, JobParts, JobRecord, Key, Kind, ReportEnd, RunNo, Seq, ServerNo,
    Verify,
};
use meeting::Meeting;
use node_threads::{CheckTask, check_jobs};
use std::alloc::Global;
use std::process::Abort;
use std::thread::Threads;
use verify_state::VerifyState;
use write_order::{fill_block, place_of};

/// Whose the job is.
const KEY: Key = Key {
    run: RunNo(1),
    server: ServerNo(0),
    job: JobNo(0),
};

/// Four blocks of a sector, each written once, two writes at the same time.
const JOB: JobParts = JobParts {
    kind: Kind::Sequential,
    verify: Verify::Stamp,
    pattern: 0,
    bs: 512,
    blocks: 4,
    total: 4,
    seed: 1,
    depth: 2,
    window: 2,
};

/// A disk on which all four writes have landed, and what its check has to tell.
#[derive(Clone, Copy)]
struct Row {
    /// The blocks that rot.
    rotted: &'static [u32],
    fatal: bool,
    /// The read that fails.
    failing: u64,
    checked: u32,
    faults: &'static [u32],
    end: ReportEnd,
}

const ROWS: [Row; 3] = [
    Row {
        rotted: &[1, 2],
        fatal: false,
        failing: u64::MAX,
        checked: 4,
        faults: &[1, 2],
        end: ReportEnd::Whole,
    },
    Row {
        rotted: &[1, 2],
        fatal: true,
        failing: u64::MAX,
        checked: 2,
        faults: &[1],
        end: ReportEnd::AtFault,
    },
    Row {
        rotted: &[],
        fatal: false,
        failing: 2,
        checked: 2,
        faults: &[],
        end: ReportEnd::ReadFault(2),
    },
];

/// The job as a record.
fn job() -> Result<JobRecord, Fault>
    ensures { IfOk result (λ rec. rec.bs ≡ 512) }
{
    JobRecord::make(JOB).ok_or(Fault::OutOfLimits)
}

/// A disk on which all four writes have landed.
fn landed(alloc: Global) -> Result<MemDisk, Fault> {
    let rec = job()?;
    let mut disk = MemDisk::new(alloc);
    disk.power_on(1);
    let mut bytes = [0; 512];
    for block in 0..4u32 {
        fill_block(KEY, &rec, Seq(u64::from(block)), block, &mut bytes);
        if disk.land(block, &bytes, u128::MAX).is_err() {
            return Err(Fault::NoMemory);
        }
    }
    Ok(disk)
}

/// A disk on which all four writes have landed, and then these blocks have rotted.
fn rotted(alloc: Global, blocks: &[u32]) -> Result<MemDisk, Fault> {
    let mut disk = landed(alloc)?;
    for block in blocks {
        if disk.rot(u64::from(*block), [7; 512]).is_err() {
            return Err(Fault::NoMemory);
        }
    }
    Ok(disk)
}

/// The state of four completed writes.
fn completed(alloc: Global) -> Result<VerifyState, Fault> {
    let rec = job()?;
    let mut list = Vec::new(alloc);
    for seq in 0..4u64 {
        if list.push(Seq(seq)).is_err() {
            return Err(Fault::NoMemory);
        }
    }
    match VerifyState::make(KEY, &rec, 4, place_of(&rec, 4), list) {
        Ok(state) => Ok(state),
        Err((fault, _)) => Err(fault),
    }
}

/// The check of this disk by the state of four completed writes.
fn task<D: Drop>(alloc: Global, fatal: bool, disk: D) -> Result<CheckTask<D>, Fault> {
    Ok(CheckTask {
        rec: job()?,
        key: KEY,
        state: Some(completed(alloc)?),
        fatal,
        disk,
    })
}

/// The tasks of the rows, in their order.
fn tasks(alloc: Global) -> Result<Vec<CheckTask<FaultDisk>>, Fault> {
    let mut tasks = Vec::new(alloc);
    for row in ROWS {
        let disk = FaultDisk::new(rotted(alloc, row.rotted)?, row.failing);
        if tasks.push(task(alloc, row.fatal, disk)?).is_err() {
            return Err(Fault::NoMemory);
        }
    }
    Ok(tasks)
}

/// Whether a report tells what the row has.
fn tells(report: &CheckReport, row: &Row) -> bool {
    report.checked() == row.checked
        && report.faults() as usize == row.faults.len()
        && report.first() == row.faults
        && report.end() == row.end
}

/// Whether so many workers give the reports of the rows, in their order.
fn gives_rows<R: Threads + Sync>(rt: &R, alloc: Global, workers: u32) -> Result<bool, Fault>
    requires some { 1 ≤ workers }
    requires few { workers ≤ 16 }
{
    let reports = check_jobs(rt, alloc, tasks(alloc)?, workers)?;
    let tells_all = reports
        .iter()
        .zip(ROWS.iter())
        .all(|(report, row)| tells(report, row));
    Ok(reports.len() == ROWS.len() && tells_all)
}

#[test]
fn reports_stand_in_the_order_of_the_tasks(rt: HostRuntime) {
    for workers in [1, 2, 3] {
        let alloc = rt.alloc();
        let given = match gives_rows(&rt, alloc, workers) {
            Err(Fault::NoMemory) => gives_rows(&rt, alloc, workers),
            given => given,
        };
        assert!(rt; given == Ok(true), "{workers}: {given:?}");
    }
}

/// Checks, of which some are refused so, and the refusal that is told.
const REFUSALS: [([Option<Fault>; 3], Fault); 3] = [
    ([None, None, Some(Fault::OtherKey)], Fault::OtherKey),
    (
        [None, Some(Fault::OtherKey), Some(Fault::Off)],
        Fault::OtherKey,
    ),
    ([Some(Fault::Off), Some(Fault::OtherKey), None], Fault::Off),
];

/// A check that is refused so: of a disk that is off, or by the state of another run.
fn refused(alloc: Global, fault: Option<Fault>) -> Result<CheckTask<MemDisk>, Fault> {
    let disk = match fault {
        Some(Fault::Off) => MemDisk::new(alloc),
        _ => landed(alloc)?,
    };
    let mut task = task(alloc, false, disk)?;
    if fault == Some(Fault::OtherKey) {
        task.key.run = RunNo(9);
    }
    Ok(task)
}

/// What so many workers tell of the checks.
fn told<R: Threads + Sync>(
    rt: &R,
    alloc: Global,
    checks: &[Option<Fault>],
    workers: u32,
) -> Result<usize, Fault>
    requires some { 1 ≤ workers }
    requires few { workers ≤ 16 }
{
    let mut tasks = Vec::new(alloc);
    for fault in checks {
        if tasks.push(refused(alloc, *fault)?).is_err() {
            return Err(Fault::NoMemory);
        }
    }
    Ok(check_jobs(rt, alloc, tasks, workers)?.len())
}

#[test]
fn the_first_refusal_is_told(rt: HostRuntime) {
    for workers in [1, 2, 3] {
        for (checks, wanted) in &REFUSALS {
            let given = match told(&rt, rt.alloc(), checks, workers) {
                Err(Fault::NoMemory) => told(&rt, rt.alloc(), checks, workers),
                given => given,
            };
            assert!(rt; given == Err(*wanted), "{workers}: {given:?}");
        }
    }
}

/// A check of each of two disks whose first reads wait for each other.
fn meetings(alloc: Global) -> Result<Vec<CheckTask<Meeting>>, Fault> {
    let (one, other) = Meeting::pair(alloc, landed(alloc)?, landed(alloc)?)?;
    let (one, other) = (task(alloc, false, one)?, task(alloc, false, other)?);
    let mut tasks = Vec::new(alloc);
    if tasks.push(one).is_err() || tasks.push(other).is_err() {
        return Err(Fault::NoMemory);
    }
    Ok(tasks)
}

/// Whether two workers check both disks whole.
fn meet<R: Threads + Sync>(rt: &R, alloc: Global) -> Result<bool, Fault> {
    let reports = check_jobs(rt, alloc, meetings(alloc)?, 2)?;
    Ok(
        reports.len() == 2
            && reports
                .iter()
                .all(|report| report.end() == ReportEnd::Whole),
    )
}

/// The first time memory may run out, for a thread too; one thread alone checks one disk after the
/// other, and they don't meet.
#[test]
fn two_tasks_run_at_once(rt: HostRuntime) {
    let met = match meet(&rt, rt.alloc()) {
        Ok(true) => Ok(true),
        _ => meet(&rt, rt.alloc()),
    };
    assert!(rt; met == Ok(true), "{met:?}");
}
