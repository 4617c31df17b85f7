//! Histories of an engine, as data.

use crate::tests::jobs::KEY;
use engine::{Engine, Issue, Ticket};
use fc_base::{Fault, JobParts, JobRecord, Seq};
use std::alloc::Global;
use std::test::Fail;
use verify_state::VerifyState;

/// A call of an engine of boot 3, and what it has to answer.
#[derive(Clone, Copy)]
pub enum Step {
    Issue(Issue),
    Done(Ticket, Result<(), Fault>),
    Failed(Ticket, Result<(), Fault>),
    Stop,
    OpenWrite(Seq, Option<Ticket>),
    OpenWrites(u32),
    Ended(bool),
}

impl Step {
    /// Makes the call, and tells whether the engine answers so.
    fn holds(self, engine: &mut Engine) -> bool {
        match self {
            Step::Issue(answer) => engine.issue() == answer,
            Step::Done(ticket, answer) => engine.done(ticket) == answer,
            Step::Failed(ticket, answer) => engine.failed(ticket) == answer,
            Step::Stop => {
                engine.stop();
                true
            }
            Step::OpenWrite(seq, answer) => engine.open_write(seq) == answer,
            Step::OpenWrites(count) => engine.open_writes() == count,
            Step::Ended(answer) => engine.ended() == answer,
        }
    }
}

fn engine_of(alloc: Global, job: JobParts) -> Option<Engine> {
    let rec = JobRecord::make(job)?;
    Engine::new(alloc, 3, KEY, &rec).ok()
}

/// Takes the engine through the steps, up to the first that it answers otherwise: which one that is.
fn step_through(engine: &mut Engine, steps: &[Step]) -> Option<usize> {
    for (i, step) in steps.iter().enumerate() {
        if !step.holds(engine) {
            return Some(i);
        }
    }
    None
}

/// Which is the first of these steps that a new engine of the job answers otherwise.
pub fn first_unlike(alloc: Global, job: JobParts, steps: &[Step]) -> Result<Option<usize>, Fail> {
    match engine_of(alloc, job) {
        Some(mut engine) => Ok(step_through(&mut engine, steps)),
        None => Err(Fail::new("no engine")),
    }
}

/// Fails by that step.
pub fn goes_so(alloc: Global, job: JobParts, steps: &[Step]) -> Result<(), Fail> {
    match first_unlike(alloc, job, steps)? {
        None => Ok(()),
        Some(i) => Err(Fail::new(i)),
    }
}

/// The state behind these steps, if the engine answers so.
fn state_behind(engine: &mut Engine, steps: &[Step]) -> Result<VerifyState, Fail> {
    match step_through(engine, steps) {
        None => Ok(engine.take()),
        Some(i) => Err(Fail::new(i)),
    }
}

/// The state of the job after these steps.
pub fn state_after(alloc: Global, job: JobParts, steps: &[Step]) -> Result<VerifyState, Fail> {
    match engine_of(alloc, job) {
        Some(mut engine) => state_behind(&mut engine, steps),
        None => Err(Fail::new("no engine")),
    }
}

/// Whether the states that are taken after these steps, so many times, are the same as their copies.
pub fn copies_alike(
    alloc: Global,
    job: JobParts,
    steps: &[Step],
    times: u32,
) -> Result<bool, Fail> {
    match engine_of(alloc, job) {
        Some(mut engine) => {
            Ok(step_through(&mut engine, steps).is_none() && are_alike_now(&engine, times))
        }
        None => Err(Fail::new("no engine")),
    }
}

fn are_alike_now(engine: &Engine, times: u32) -> bool {
    for _ in 0..times {
        if !is_like_its_copy(engine) {
            return false;
        }
    }
    true
}

fn is_like_its_copy(engine: &Engine) -> bool {
    let state = engine.take();
    state.same(&state.copy())
}
