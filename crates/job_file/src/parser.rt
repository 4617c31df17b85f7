//! From a text to its set of jobs.

ghost use Rattle.std.specs.Prelude.{◌≡◌, ◌+◌, ◌-◌, ◌^◌, ◌≤◌, min, [], ◌++◌, length, replicate, OnOk, IfOk};
ghost use Rattle.job_file.specs.Draft.{copies_of, count_of, with_copies, jobs_from, faults_from};
ghost use Rattle.job_file.specs.Fault.{Checks, Gives};
ghost use Rattle.job_file.specs.JobSet.{byte_faults, count_faults, same_file, shares_file, file_faults, some_write, some_read, phase_faults, phase_of, Answers};

use crate::bytes::is_text;
use crate::draft::Draft;
use crate::fault::JobFault;
use crate::job::{Job, JobSet, Jobs, LineNotes, Phase};
use crate::reader::{Contents, contents_of};
use crate::text::PrintableText;
use fc_base::{JobNo, MAX_JOBS, MAX_TEXT};
use std::alloc::Global;

/// Reads a job file (fio's manual, "Job file format"): the jobs of the text, or the first of its
/// faults. Faults are looked for in this order: the length of the text, its bytes, its lines one by
/// one, the number of jobs, the jobs one by one, and whether all write or all read.
/// [`JobFault::NoMemory`] may stand for any answer.
pub fn parse(alloc: Global, text: &[u8]) -> Result<JobSet, JobFault>
    ensures { Answers result text.now }
{
    check_bytes(text)?;
    let Contents { drafts, notes } = contents_of(alloc, text)?;
    check_count(&drafts)?;
    let jobs = jobs_of(alloc, &drafts)?;
    check_files(&jobs)?;
    let phase = phase_of(&drafts)?;
    Ok(JobSet {
        phase,
        jobs: Jobs::from_vec(jobs),
        notes: LineNotes::from_vec(notes),
    })
}

fn check_bytes(text: &[u8]) -> Result<(), JobFault>
    ensures faults { Checks result (byte_faults text.now) }
    ensures bound { OnOk result (length text.now ≤ MAX_TEXT) }
{
    if text.len() > MAX_TEXT {
        return Err(JobFault::TooLong);
    }
    if !is_text(text) {
        return Err(JobFault::NotAscii);
    }
    Ok(())
}

fn check_count(drafts: &[Draft]) -> Result<(), JobFault>
    ensures faults { Checks result (count_faults drafts.now) }
    ensures some { OnOk result (1 ≤ count_of drafts.now) }
    ensures few { OnOk result (count_of drafts.now ≤ MAX_JOBS) }
{
    let count = count_of(drafts);
    if count == 0 {
        return Err(JobFault::NoJobs);
    }
    if count > u64::from(MAX_JOBS) {
        return Err(JobFault::TooManyJobs);
    }
    Ok(())
}

/// How many jobs the sections make, as far as 64 bits can tell.
fn count_of(drafts: &[Draft]) -> u64
    ensures { result ≡ min (count_of drafts.now) (2 ^ 64 - 1) }
{
    let mut count = 0u64;
    for draft in drafts {
        count = count.saturating_add(draft.copies());
    }
    count
}

/// The jobs of the sections, the copies of each in a row.
fn jobs_of(alloc: Global, drafts: &[Draft]) -> Result<Vec<Job>, JobFault>
    requires { count_of drafts.now ≤ MAX_JOBS }
    ensures jobs { Gives (λ jobs. jobs.items) result (faults_from 0 (with_copies drafts.now))
        (jobs_from 0 (with_copies drafts.now)) }
    ensures length { IfOk result (λ jobs. length jobs.items ≡ count_of drafts.now) }
{
    let mut jobs = Vec::new(alloc);
    for draft in drafts {
        add_copies(alloc, draft, &mut jobs)?;
    }
    Ok(jobs)
}

/// Adds the copies of one section, numbered on from the jobs that are there.
fn add_copies(alloc: Global, draft: &Draft, jobs: &mut Vec<Job>) -> Result<(), JobFault>
    requires { length jobs.old.items + copies_of draft.now ≤ MAX_JOBS }
    ensures faults { Checks result
        (faults_from (length jobs.old.items) (replicate (copies_of draft.now) draft.now)) }
    ensures jobs { OnOk result
        (jobs.new.items ≡ jobs.old.items
        ++ jobs_from (length jobs.old.items) (replicate (copies_of draft.now) draft.now)) }
    ensures length { OnOk result
        (length jobs.new.items ≡ length jobs.old.items + copies_of draft.now) }
{
    for _ in 0..draft.copies() {
        let number = JobNo(jobs.len() as u32);
        let job = draft.job(alloc, number)?;
        jobs.push(job)?;
    }
    Ok(())
}

/// No two jobs may have one file.
fn check_files(jobs: &[Job]) -> Result<(), JobFault>
    requires { length jobs.now ≤ MAX_JOBS }
    ensures { Checks result (file_faults [] jobs.now) }
{
    for (number, job) in jobs.iter().enumerate() {
        if shares_file(&jobs[..number], job) {
            return Err(JobFault::SharedFile(JobNo(number as u32)));
        }
    }
    Ok(())
}

fn shares_file(earlier: &[Job], job: &Job) -> bool
    ensures { result ≡ shares_file earlier.now job.now }
{
    earlier
        .iter()
        .any(|other| same_file(&other.filename, &job.filename))
}

fn same_file(name: &Option<PrintableText>, other: &Option<PrintableText>) -> bool
    ensures { result ≡ same_file name.now other.now }
{
    match (name, other) {
        (Some(name), Some(other)) => name.as_str() == other.as_str(),
        _ => false,
    }
}

fn phase_of(drafts: &[Draft]) -> Result<Phase, JobFault>
    ensures { Gives (λ phase. phase) result (phase_faults drafts.now) (phase_of drafts.now) }
{
    match (some_write(drafts), some_read(drafts)) {
        (true, true) => Err(JobFault::MixedPhases),
        (true, false) => Ok(Phase::Write),
        (false, _) => Ok(Phase::Read),
    }
}

fn some_write(drafts: &[Draft]) -> bool
    ensures { result ≡ some_write drafts.now }
{
    drafts.iter().any(|draft| draft.settings.writes())
}

fn some_read(drafts: &[Draft]) -> bool
    ensures { result ≡ some_read drafts.now }
{
    drafts.iter().any(|draft| !draft.settings.writes())
}
