//! Jobs that are staged for a run.

ghost use Rattle.std.specs.Prelude.{◌≡◌, ◌<◌, ◌≤◌, length, IfOk, IsTrue};
ghost use Rattle.fc_base.specs.declared.limits.TheConstants.{MAX_JOBS, MAX_SERVERS};
ghost use Rattle.messages.specs.Ranges.{is_run};
ghost use Rattle.server_core.specs.Laws.{IsSet};
ghost use Rattle.server_core.specs.Kept.{new_work, jobs_kept, RunIs};

use crate::job_run::JobRun;
use crate::run::Run;
use engine::Engine;
use fc_base::{JobNo, Key, RunNo, ServerNo};
use job_file::Jobs;
use std::alloc::{AllocError, Global};
use std::marker::Model;

/// A set of writing jobs that is staged for a run: 1 to 16, each within its limits.
#[derive(Drop)]
pub(crate) struct StagedSet {
    run: RunNo,
    jobs: Jobs,
}

impl Model for StagedSet {
    ghost use Rattle.std.specs.Prelude.{IsTrue};
    ghost use Rattle.messages.specs.Ranges.{is_run};
    ghost use Rattle.server_core.specs.Words.{Staged};
    ghost use Rattle.server_core.specs.Laws.{IsSet};

    ghost Value = { Staged };

    ghost view = { λ s. record { run = s.run; jobs = s.jobs } };

    ghost invariant = { λ s. IsTrue (is_run s.run) × IsSet s.jobs };
}

impl StagedSet {
    /// These jobs, staged for a run.
    pub(crate) fn new(run: RunNo, jobs: Jobs) -> StagedSet
        requires run { IsTrue (is_run run) }
        requires jobs { IsSet jobs }
        ensures { result ≡ record { run = run; jobs = jobs } }
    {
        StagedSet { run, jobs }
    }

    /// The run.
    pub(crate) fn run(&self) -> RunNo
        ensures value { result ≡ self.now.run }
        ensures range { IsTrue (is_run result) }
    {
        self.run
    }

    /// How many jobs there are.
    pub(crate) fn len(&self) -> u32
        ensures value { result ≡ length self.now.jobs }
        ensures some { 1 ≤ result }
        ensures few { result ≤ MAX_JOBS }
    {
        self.jobs.as_slice().len() as u32
    }

    /// What is kept of each job once the run begins: an engine that has issued nothing. All memory
    /// that the run is kept in is taken here.
    pub(crate) fn engines(
        &self,
        alloc: Global,
        me: ServerNo,
        boot: u64,
    ) -> Result<Vec<JobRun>, AllocError>
        requires { me < MAX_SERVERS }
        ensures { IfOk result (λ kept. kept.items
            ≡ jobs_kept (new_work me boot self.now) 0 self.now.jobs) }
    {
        let jobs = self.jobs.as_slice();
        let mut kept = Vec::with_capacity(alloc, jobs.len())?;
        let mut index = 0;
        while index < jobs.len() {
            let key = Key {
                run: self.run,
                server: me,
                job: JobNo(index as u32),
            };
            let job = &jobs[index];
            kept.push(JobRun::new(Engine::new(alloc, boot, key, &job.rec)?, job.save))?;
            index += 1;
        }
        Ok(kept)
    }

    /// The run, which begins with these engines. The jobs are moved.
    pub(crate) fn start(self, me: ServerNo, boot: u64, kept: Vec<JobRun>) -> Run
        requires me { me < MAX_SERVERS }
        requires kept { kept.items ≡ jobs_kept (new_work me boot self) 0 self.jobs }
        ensures { RunIs result (new_work me boot self) }
    {
        let StagedSet { run, jobs } = self;
        Run::new(run, jobs, kept)
    }
}
