//! A task with its answer.

ghost use Rattle.std.specs.Prelude.{◌≡◌};
ghost use Rattle.fleet_threads.specs.Slots.{IsAnswered};

use crate::task::CheckTask;
use disk_model::Disk;
use fc_base::{CheckReport, Fault};
use recheck::check_disk;
use std::alloc::Global;

/// A task, and what its check answered, once it has.
#[derive(Drop)]
pub(crate) struct Slot<D> {
    task: CheckTask<D>,
    answer: Option<Result<CheckReport, Fault>>,
}

impl<D> Slot<D> {
    pub fn new(task: CheckTask<D>) -> Slot<D>
        ensures { result.task ≡ task }
    {
        Slot { task, answer: None }
    }

    /// What the check answered.
    pub fn answer(&self) -> Option<Result<CheckReport, Fault>>
        ensures { result ≡ self.now.answer }
    {
        self.answer
    }
}

impl<D: Disk> Slot<D> {
    /// Checks the task, and keeps the answer.
    pub fn check(&mut self, alloc: Global)
        ensures { IsAnswered D.file self.old.task self.new }
    {
        let task = &mut self.task;
        let answer = check_disk(
            alloc,
            &task.rec,
            task.key,
            task.state.as_ref(),
            task.fatal,
            &mut task.disk,
        );
        self.answer = Some(answer);
    }
}
