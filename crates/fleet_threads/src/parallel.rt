//! The checks of a list of tasks.

ghost use Rattle.std.specs.Prelude.{◌≡◌, ◌⊎◌, ◌≤◌, All, map, IsSome, IfOk, IfErr};
ghost use Rattle.fleet_threads.specs.Tasks.{AreReports, IsFirstRefusal};
ghost use Rattle.fleet_threads.specs.Slots.{AreAnswered, ReportsOf, IsFirstRefused};

use crate::slot::Slot;
use crate::task::CheckTask;
use disk_model::Disk;
use fc_base::{CheckReport, Fault, MAX_WORKERS};
use std::alloc::{AllocError, Global};
use std::thread;
use std::thread::Threads;

/// Checks each task as `recheck::check_disk` does, by at most so many threads at once: 1 to 16. The
/// reports come in the order of the tasks. These are cut into equal parts, but for the last: each
/// thread checks the tasks of one part, one after the other. Where no thread can be made, the parts
/// are checked one after the other.
///
/// Where tasks are refused, the answer is the refusal of the first of them in the order of the
/// tasks: [`Fault::OtherKey`], [`Fault::OtherJob`], [`Fault::OtherPlace`] or [`Fault::Off`].
/// [`Fault::NoMemory`] is want of memory, in a check or for the reports. The tasks are dropped.
pub fn check_jobs<R: Threads + Sync, D: Disk + Send + Drop>(
    rt: &R,
    alloc: Global,
    tasks: Vec<CheckTask<D>>,
    workers: u32,
) -> Result<Vec<CheckReport>, Fault>
    requires some { 1 ≤ workers }
    requires few { workers ≤ MAX_WORKERS }
    ensures reports { IfOk result (λ reports. AreReports D.file tasks.items reports.items) }
    ensures refused { IfErr result
        (λ fault. (fault ≡ Fault.NoMemory) ⊎ IsFirstRefusal D.file tasks.items fault) }
{
    let Ok(mut slots) = slots_of(alloc, tasks) else {
        return Err(Fault::NoMemory);
    };
    check_slots(rt, alloc, &mut slots, workers);
    reports_of(alloc, &slots)
}

/// A slot for each task.
fn slots_of<D: Drop>(alloc: Global, tasks: Vec<CheckTask<D>>) -> Result<Vec<Slot<D>>, AllocError>
    ensures { IfOk result (λ slots. map (λ slot. slot.task) slots.items ≡ tasks.items) }
{
    let mut slots = Vec::with_capacity(alloc, tasks.len())?;
    for task in tasks {
        slots.push(Slot::new(task))?;
    }
    Ok(slots)
}

/// Checks the tasks of all slots, by at most so many threads at once.
fn check_slots<R: Threads + Sync, D: Disk + Send + Drop>(
    rt: &R,
    alloc: Global,
    slots: &mut [Slot<D>],
    workers: u32,
)
    requires { 1 ≤ workers }
    ensures answers { AreAnswered D.file (map (λ slot. slot.task) slots.old) slots.new }
    ensures each { All (λ slot. IsSome slot.answer) slots.new }
{
    thread::for_each_mut(rt, slots, workers as usize, &|_, slot| slot.check(alloc));
}

/// The reports of the slots, or the refusal of the first that has one.
fn reports_of<D>(alloc: Global, slots: &[Slot<D>]) -> Result<Vec<CheckReport>, Fault>
    requires { All (λ slot. IsSome slot.answer) slots.now }
    ensures reports { IfOk result (λ reports. ReportsOf slots.now reports.items) }
    ensures refused { IfErr result
        (λ fault. (fault ≡ Fault.NoMemory) ⊎ IsFirstRefused slots.now fault) }
{
    let Ok(mut reports) = Vec::with_capacity(alloc, slots.len()) else {
        return Err(Fault::NoMemory);
    };
    for slot in slots {
        match slot.answer() {
            Some(Ok(report)) => {
                if reports.push(report).is_err() {
                    return Err(Fault::NoMemory);
                }
            }
            Some(Err(fault)) => return Err(fault),
            None => unreachable!(),
        }
    }
    Ok(reports)
}
