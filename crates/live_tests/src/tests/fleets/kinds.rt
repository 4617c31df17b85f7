//! Three jobs of one server whose checks end differently, and a gate that opens once the trigger was asked.

use super::gates::Always;
use engine::Ticket;
use fc_base::ReportEnd;
use node_threads::{CheckEnd, FleetFault, Gate, OpenGate, Trigger, run_fleet};
use std::alloc::Global;
use std::sync::Wait;
use std::sync::atomic::{AtomicBool, Ordering};
use std::thread::Threads;

/// Three jobs of two blocks each.
const WRITING: &[u8] = b"[global]\nrw=write\nbs=512\nsize=1k\n[a]\n[b]\n[c]\n";

/// Job 0 by its state; jobs 1 and 2 in full passes over four blocks, of which two were never written, and the
/// last of these ends at its first fault.
const READING: &[u8] =
    b"[global]\nrw=read\nbs=512\n[a]\nsize=1k\nverify_state_load=1\n[b]\nsize=2k\n[c]\nsize=2k\nverify_fatal=1\n";

/// How many blocks are checked, which are faulty, and how the check ends.
const KINDS: [(u32, &[u32], ReportEnd); 3] = [
    (2, &[], ReportEnd::Whole),
    (4, &[2, 3], ReportEnd::Whole),
    (3, &[2], ReportEnd::AtFault),
];

/// Whether each job of two servers ends as its kind.
pub fn end_by_kind<R: Threads + Wait + Sync>(rt: &R, alloc: Global) -> Result<bool, FleetFault> {
    let mut trigger = Always(false);
    let ends = run_fleet(rt, alloc, 2, 2, WRITING, READING, &mut trigger, &OpenGate)?;
    let all = ends
        .iter()
        .zip(KINDS.iter().chain(KINDS.iter()))
        .all(|(end, kind)| is_kind(end, kind));
    Ok(ends.len() == 6 && all)
}

fn is_kind(end: &CheckEnd, kind: &(u32, &[u32], ReportEnd)) -> bool {
    match &end.report {
        Some(report) => {
            report.checked() == kind.0 && report.first() == kind.1 && report.end() == kind.2
        }
        None => false,
    }
}

/// A gate that opens once the trigger was asked.
#[derive(Drop)]
struct Asked<'a>(&'a AtomicBool);

impl Gate for Asked<'_> {
    fn may_write(&self, _ticket: &Ticket) -> bool {
        self.0.load(Ordering::SeqCst)
    }

    fn written(&self, _ticket: &Ticket) {}
}

/// A trigger that notes that it was asked, and is never pulled.
#[derive(Drop)]
struct Notes<'a>(&'a AtomicBool);

impl Trigger for Notes<'_> {
    fn pulled(&mut self) -> bool {
        self.0.store(true, Ordering::SeqCst);
        false
    }
}

/// Whether all is written behind a gate that the trigger opens.
pub fn is_asked<R: Threads + Wait + Sync>(rt: &R, alloc: Global) -> Result<bool, FleetFault> {
    let asked = AtomicBool::new(false);
    let mut trigger = Notes(&asked);
    let ends = run_fleet(
        rt,
        alloc,
        1,
        1,
        super::story::WRITING,
        super::story::READING,
        &mut trigger,
        &Asked(&asked),
    )?;
    Ok(ends.len() == 1)
}
