//! A job from its first write to the check after the restart, by the engine, a disk and a check.

use super::{Given, JOB, blank_disk, tells};
use disk_model::MemDisk;
use engine::{Engine, Issue, Ticket};
use fc_base::{CheckReport, JobParts, Kind, ReportEnd};
use std::alloc::Global;
use std::test::Fail;

/// An engine that writes its job to a disk.
#[derive(Drop)]
struct Machine<'a> {
    alloc: Global,
    given: Given,
    engine: &'a mut Engine,
    disk: &'a mut MemDisk,
}

impl Machine<'_> {
    fn issue(&mut self) -> Option<Ticket> {
        match self.engine.issue() {
            Issue::Write(ticket) => Some(ticket),
            _ => None,
        }
    }

    /// Lands these sectors of an issued write.
    fn land(&mut self, ticket: &Ticket, sectors: u128) -> Option<()> {
        self.given
            .land(self.alloc, self.disk, ticket.seq.0, ticket.block, sectors)
    }

    /// Notes that a write has landed whole.
    fn complete(&mut self, ticket: Ticket) -> Option<()> {
        self.land(&ticket, u128::MAX)?;
        self.engine.done(ticket).ok()
    }

    /// Issues and completes a pair of writes, the later one first.
    fn write_pair(&mut self) -> Option<()> {
        let first = self.issue()?;
        let second = self.issue()?;
        self.complete(second)?;
        self.complete(first)
    }

    /// Issues two writes of which none is done: the first lands whole, and of the other these
    /// sectors. Answers the block of the other.
    fn leave_two_open(&mut self, sectors: u128) -> Option<u32> {
        let whole = self.issue()?;
        let last = self.issue()?;
        self.land(&whole, u128::MAX)?;
        self.land(&last, sectors)?;
        Some(last.block)
    }

    /// Stops the job, takes its state and cuts the power, and after the restart checks the disk.
    fn cut_and_check(&mut self) -> Option<CheckReport> {
        self.engine.stop();
        let state = self.engine.take();
        self.disk.cut();
        self.disk.power_on(3);
        self.given
            .check(self.alloc, Some(&state), false, self.disk)
            .ok()
    }

    /// Whether just the last write is found torn, or none, after a cut at which each of four blocks was
    /// written once, and its second write was in flight to two of them: one landed whole, and of the other
    /// these sectors.
    fn is_found(&mut self, sectors: u128, is_torn: bool) -> Option<bool> {
        self.write_pair()?;
        self.write_pair()?;
        let last = [self.leave_two_open(sectors)?];
        let torn = if is_torn { last.as_slice() } else { &[] };
        let report = self.cut_and_check()?;
        Some(tells(&report, 4, torn, ReportEnd::Whole))
    }
}

/// An engine of the job, in its first boot.
fn engine_of(alloc: Global, given: &Given) -> Option<Engine> {
    if !given.key.is_key() {
        return None;
    }
    Engine::new(alloc, 1, given.key, &given.job).ok()
}

/// The same of a new machine.
fn is_found(alloc: Global, sectors: u128, is_torn: bool) -> Option<bool> {
    let given = Given::new(JobParts {
        kind: Kind::RandomMap,
        bs: 1024,
        blocks: 4,
        total: 8,
        ..JOB
    })?;
    let mut engine = engine_of(alloc, &given)?;
    let mut disk = blank_disk(alloc);
    let mut machine = Machine {
        alloc,
        given,
        engine: &mut engine,
        disk: &mut disk,
    };
    let found = machine.is_found(sectors, is_torn);
    drop(engine);
    drop(disk);
    found
}

/// Which sectors of the last write landed, and whether that tears it: none, both, and the first alone.
static CUTS: [(u128, bool); 3] = [(0, false), (3, false), (1, true)];

#[test]
fn the_last_write_at_a_cut(rt: HostRuntime) -> Result<(), Fail> {
    for (i, (sectors, is_torn)) in CUTS.iter().enumerate() {
        if is_found(rt.alloc(), *sectors, *is_torn) != Some(true) {
            return Err(Fail::new(i));
        }
    }
    Ok(())
}
