//! The job that is asked for: its number, in a job file that comes behind its length.

ghost use Rattle.std.specs.Prelude.{◌≡◌, IfOk, IfErr};
ghost use Rattle.targets.specs.Jobs.{key_of, GivesNoJob, HasNoJob, IsAsked, ReadsJob};

use crate::texts::read_text;
use fc_base::{Fault, JobNo, JobRecord, Key, MAX_TEXT, RunNo, ServerNo};
use job_file::{Phase, parse};
use program_io::PrintedRefusal;
use std::alloc::Global;
use std::io::Read;

/// What a job file says of a job, as far as it is written or checked here.
#[derive(Clone, Copy)]
pub(crate) struct JobSetup {
    pub(crate) rec: JobRecord,
    pub(crate) fatal: bool,
    pub(crate) phase: Phase,
}

/// The job of server 0 in a run.
pub(crate) fn key_of(run: RunNo, job: JobNo) -> Key
    ensures { result ≡ key_of run job }
{
    Key {
        run,
        server: ServerNo(0),
        job,
    }
}

/// Reads a job file behind its length, and finds the job of this number in it.
pub(crate) fn read_job<R: Read>(
    alloc: Global,
    reader: &mut R,
    number: JobNo,
) -> Result<JobSetup, PrintedRefusal>
    ensures job { IfOk result (ReadsJob number (R.remaining reader.old) (R.remaining reader.new)) }
    ensures none { IfErr result (GivesNoJob (R.remaining reader.old) number) }
{
    match read_text(alloc, reader, MAX_TEXT) {
        Ok(text) => job_in(alloc, &text, number),
        Err(fault) => Err(PrintedRefusal::from(fault)),
    }
}

/// The job of this number of a text.
fn job_in(alloc: Global, text: &[u8], number: JobNo) -> Result<JobSetup, PrintedRefusal>
    ensures job { IfOk result (IsAsked text.now number) }
    ensures none { IfErr result (HasNoJob text.now number) }
{
    let set = parse(alloc, text)?;
    let phase = set.phase;
    match set.jobs.as_slice().get(number.0 as usize) {
        Some(job) => Ok(JobSetup {
            rec: job.rec,
            fatal: job.fatal,
            phase,
        }),
        None => Err(PrintedRefusal::from(Fault::NoJob)),
    }
}
