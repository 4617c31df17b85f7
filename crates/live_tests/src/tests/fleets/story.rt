//! A fleet that runs, and what is to come of it.

use super::gates::{Always, Behind, Write};
use fc_base::{CheckReport, Fault, ReportEnd};
use node_threads::{CheckEnd, FleetFault, run_fleet};
use std::alloc::Global;
use std::sync::Wait;
use std::thread::Threads;

/// Two writes to two blocks, at most two at the same time.
pub const WRITING: &[u8] = b"[a]\nrw=write\nbs=512\nsize=1k\niodepth=2\n";

pub const READING: &[u8] = b"[a]\nrw=read\nbs=512\nsize=1k\nverify_state_load=1\n";

/// A fleet: how many servers and workers, the texts, whether its trigger is pulled from the start, and which
/// write waits for which; and what comes of it.
#[derive(Clone, Copy)]
pub struct Story {
    pub name: &'static str,
    pub servers: u32,
    pub workers: u32,
    pub texts: (&'static [u8], &'static [u8]),
    pub pulled: bool,
    pub waits: &'static [(Write, Write)],
    pub wanted: Wanted,
}

/// What is to come of a fleet.
#[derive(Clone, Copy)]
pub enum Wanted {
    /// These ends.
    Ends(&'static [Row]),
    /// So many ends, each of a check of two blocks at most, of which none was faulty.
    Sound(usize),
    /// It is refused so.
    Refused(Fault),
}

/// The end of a check: its server and job, and how many blocks were checked where none was faulty and
/// the check went through; `None` where there is no report.
pub type Row = (u32, u32, Option<u32>);

/// The two jobs of two writes.
pub const STORED: Story = Story {
    name: "the stored run",
    servers: 2,
    workers: 2,
    texts: (WRITING, READING),
    pulled: false,
    waits: &[],
    wanted: Wanted::Ends(&[(0, 0, Some(2)), (1, 0, Some(2))]),
};

/// Whether a story goes as it has to. It is told once more where memory runs out.
pub fn goes_so<R: Threads + Wait + Sync>(rt: &R, alloc: Global, story: &Story) -> bool {
    let told = match tell(rt, alloc, story) {
        Err(FleetFault::Refused(Fault::NoMemory)) => tell(rt, alloc, story),
        told => told,
    };
    match (&told, story.wanted) {
        (Ok(ends), Wanted::Ends(rows)) => are_rows(ends, rows),
        (Ok(ends), Wanted::Sound(count)) => ends.len() == count && ends.iter().all(is_sound),
        (Err(FleetFault::Refused(fault)), Wanted::Refused(wanted)) => *fault == wanted,
        _ => false,
    }
}

fn tell<R: Threads + Wait + Sync>(
    rt: &R,
    alloc: Global,
    story: &Story,
) -> Result<Vec<CheckEnd>, FleetFault> {
    let (write, read) = story.texts;
    run_fleet(
        rt,
        alloc,
        story.servers.clamp(1, 8),
        story.workers.clamp(1, 16),
        write,
        read,
        &mut Always(story.pulled),
        &Behind::new(story.waits),
    )
}

/// How many blocks a check went through without a fault.
fn checked(report: &CheckReport) -> Option<u32> {
    if report.faults() == 0 && report.end() == ReportEnd::Whole {
        Some(report.checked())
    } else {
        None
    }
}

/// No more than two blocks were checked, and none was faulty.
fn is_sound(end: &CheckEnd) -> bool {
    match &end.report {
        Some(report) => checked(report).is_some_and(|blocks| blocks <= 2),
        None => false,
    }
}

/// Whether the ends are these.
fn are_rows(ends: &[CheckEnd], rows: &[Row]) -> bool {
    ends.len() == rows.len() && ends.iter().zip(rows).all(|(end, row)| is_row(end, row))
}

fn is_row(end: &CheckEnd, row: &Row) -> bool {
    let (server, job, wanted) = *row;
    let sound = match (&end.report, wanted) {
        (Some(report), Some(blocks)) => checked(report) == Some(blocks),
        (None, None) => true,
        _ => false,
    };
    end.server.0 == server && end.job.0 == job && sound
}
