//! What happens at a site, as steps with the answers that have to come.

use super::hands::Ended;
use super::site::{Server, Site};
use disk_model::FaultDisk;
use fc_base::{Fault, JobNo, Key, RunNo, ServerNo};
use node_threads::Receipt;
use recheck::check_disk;
use std::alloc::Global;
use std::sync::Wait;
use std::thread::Threads;

/// What was taken of a job: how many writes were issued and have completed; and how many blocks of its
/// file were checked by that state, and how many of them are faulty.
#[derive(Clone, Copy, PartialEq, Eq)]
pub struct Taken {
    pub issued: u64,
    pub completed: u64,
    pub checked: u32,
    pub faults: u32,
}

/// What happens, or what has to be seen then.
#[derive(Clone, Copy)]
pub enum Step {
    /// Run 1 begins, of these jobs. Frames 0 to 3 are the jobs and their answer, the start and its answer.
    Begin(&'static [u8]),
    /// Frame 4 is the trigger.
    Trigger,
    /// The server loses its power.
    Cut,
    /// A worker ends so, and its seat has then applied so much.
    Works(Ended, u64),
    /// The same of a worker with a seat of another server.
    StrangerWorks(Ended, u64),
    /// Two workers end so, each in a thread of its own.
    WorkBoth(Ended),
    /// This was taken of a job.
    Takes(u32, Taken),
    /// So many writes are done, as the server has heard.
    DoneWrites(usize),
    /// There are so many events at least, in one list of all that has happened.
    HasEvents(usize),
}

impl Site {
    /// Whether each of the steps holds, one after the other.
    pub fn all_hold<R: Threads + Wait + Sync>(
        &mut self,
        rt: &R,
        steps: &[Step],
    ) -> Result<bool, Fault> {
        for step in steps {
            if !self.holds(rt, *step)? {
                return Ok(false);
            }
        }
        Ok(true)
    }

    fn holds<R: Threads + Wait + Sync>(&mut self, rt: &R, step: Step) -> Result<bool, Fault> {
        match step {
            Step::Begin(jobs) => self.begins(rt, jobs),
            Step::Trigger => self.triggers(rt),
            Step::Cut => is_told(self.cut(rt)),
            Step::Works(ended, applied) => Ok(self.work(rt)? == (ended, applied)),
            Step::StrangerWorks(ended, applied) => Ok(self.stranger_works(rt)? == (ended, applied)),
            Step::WorkBoth(ended) => Ok(self.work_both(rt)? == [ended, ended]),
            look => self.shows(rt, look),
        }
    }

    /// Whether this is to be seen.
    fn shows<R: Wait>(&self, rt: &R, step: Step) -> Result<bool, Fault> {
        match step {
            Step::Takes(job, taken) => Ok(self.taken(rt, job)? == taken),
            Step::DoneWrites(count) => Ok(self.done_writes(rt) == count),
            Step::HasEvents(count) => Ok(self.events(rt)? >= count),
            _ => Ok(false),
        }
    }

    fn begins<R: Wait>(&mut self, rt: &R, jobs: &[u8]) -> Result<bool, Fault> {
        is_told(self.begin(jobs))?;
        is_told(self.serve(rt, 0))?;
        is_told(self.hear(1))?;
        is_told(self.serve(rt, 2))?;
        is_told(self.hear(3))
    }

    fn triggers<R: Wait>(&mut self, rt: &R) -> Result<bool, Fault> {
        is_told(self.trigger())?;
        is_told(self.serve(rt, 4))
    }
}

fn is_told(answer: Result<Receipt, Fault>) -> Result<bool, Fault> {
    match answer {
        Ok(_) => Ok(true),
        Err(fault) => Err(fault),
    }
}

/// What was taken of a job of run 1, with the check of its file.
pub fn taken_of(
    alloc: Global,
    server: &Server,
    job: JobNo,
    disk: &mut FaultDisk,
) -> Result<Taken, Fault> {
    let Some(state) = server.server().and_then(|server| server.taken(job)) else {
        return Err(Fault::Unknown);
    };
    let key = Key {
        run: RunNo(1),
        server: ServerNo(0),
        job,
    };
    let report = check_disk(alloc, &state.rec(), key, Some(state), false, disk)?;
    Ok(Taken {
        issued: state.issued(),
        completed: state.completed(),
        checked: report.checked(),
        faults: report.faults(),
    })
}
