//! A job file is read.

ghost use Rattle.std.specs.Prelude.{◌≡◌, ◌⊎◌, None, Some, OnOk, IfOk, IfErr, slice_get};
ghost use Rattle.std.specs.Option.{option_map};
ghost use Rattle.job_file.specs.declared.fault.JobFault.TheVariants.{NoMemory};
ghost use Rattle.job_file.specs.JobSet.{jobs_of, refusal_of};

use fc_base::JobRecord;
use job_file::{JobFault, parse};
use std::alloc::Global;

/// The settings of the first job of a job file, or the first fault of its text.
pub fn first_job(alloc: Global, text: &[u8]) -> Result<JobRecord, JobFault>
    ensures sound { OnOk result (refusal_of text.now ≡ None) }
    ensures job { IfOk result (λ rec.
        option_map (λ job. job.rec) (slice_get (jobs_of text.now) 0) ≡ Some rec) }
    ensures fault { IfErr result (λ fault.
        (fault ≡ NoMemory) ⊎ (refusal_of text.now ≡ Some fault)) }
{
    let set = parse(alloc, text)?;
    Ok(set.jobs.as_slice()[0].rec)
}
