//! Why a job file was refused.

ghost use Rattle.std.specs.Prelude.{◌≡◌};
ghost use Rattle.job_file.specs.declared.fault.JobFault.TheVariants.{NoMemory};
ghost use Rattle.job_file.specs.Fault.{fault_of, line_or_job_of};

use fc_base::{Fault, JobNo};
use std::alloc::{AllocError, AllocFailed};
use thiserror::Error;

/// The first fault of a job file, with its line, counted from 1, or its job, counted from 0.
/// Nothing is left of the text: a refused text gives no job.
#[derive(Clone, Copy, Debug, PartialEq, Eq, Error)]
pub enum JobFault {
    #[error("the text is longer than 16,384 bytes")]
    TooLong,
    #[error("the text has bytes other than printable ASCII, tabs and line ends")]
    NotAscii,
    #[error("line {0} is no section, option or comment")]
    BadLine(u32),
    #[error("line {0} has an option that is not known here")]
    UnknownOption(u32),
    #[error("line {0} has a value that its option does not take")]
    BadValue(u32),
    #[error("there is no job")]
    NoJobs,
    #[error("there are more than 16 jobs")]
    TooManyJobs,
    #[error("job {} has no size", .0.0)]
    NoSize(JobNo),
    #[error("job {} is past a limit", .0.0)]
    OutOfLimits(JobNo),
    #[error("job {} has the file of an earlier job", .0.0)]
    SharedFile(JobNo),
    #[error("some jobs write and some read")]
    MixedPhases,
    #[error("memory ran out")]
    NoMemory,
}

impl JobFault {
    /// The fault's row in the table of faults, which gives its number and its name.
    pub fn fault(self) -> Fault
        ensures { result ≡ fault_of self }
    {
        match self {
            JobFault::TooLong => Fault::JobTooLong,
            JobFault::NotAscii => Fault::NotAscii,
            JobFault::BadLine(_) => Fault::BadLine,
            JobFault::UnknownOption(_) => Fault::UnknownOption,
            JobFault::BadValue(_) => Fault::BadValue,
            JobFault::NoJobs => Fault::JobNoJobs,
            JobFault::TooManyJobs => Fault::TooManyJobs,
            JobFault::NoSize(_) => Fault::NoSize,
            JobFault::OutOfLimits(_) => Fault::OutOfLimits,
            JobFault::SharedFile(_) => Fault::SharedFile,
            JobFault::MixedPhases => Fault::MixedPhases,
            JobFault::NoMemory => Fault::JobNoMemory,
        }
    }

    /// The line or the job of the fault, where it has one.
    pub fn line_or_job(self) -> Option<u32>
        ensures { result ≡ line_or_job_of self }
    {
        match self {
            JobFault::BadLine(line) | JobFault::UnknownOption(line) | JobFault::BadValue(line) =>
                Some(line),
            JobFault::NoSize(job) | JobFault::OutOfLimits(job) | JobFault::SharedFile(job) => {
                Some(job.0)
            }
            _ => None,
        }
    }
}

impl From<AllocError> for JobFault {
    ghost from_gives = { λ _ fault. fault ≡ NoMemory };

    fn from(_error: AllocError) -> JobFault {
        JobFault::NoMemory
    }
}

impl<T: Drop> From<AllocFailed<T>> for JobFault {
    ghost from_gives = { λ _ fault. fault ≡ NoMemory };

    fn from(_error: AllocFailed<T>) -> JobFault {
        JobFault::NoMemory
    }
}
