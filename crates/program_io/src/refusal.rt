//! A refusal as it is printed.

ghost use Rattle.std.specs.Prelude.{◌≡◌, OnOk, Some};
ghost use Rattle.std.specs.Io.KnownBytes.{Appends};
ghost use Rattle.fc_base.specs.declared.fault.Fault.TheVariants.{JobNoMemory};
ghost use Rattle.program_io.specs.Words.{with_line_feed};
ghost use Rattle.program_io.specs.Refusals.{refusal_line};

use crate::input::InputFault;
use fc_base::Fault;
use job_file::JobFault;
use std::alloc::AllocError;
use std::io::Write;
use std::{fmt, io};

/// A fault, and the line or the job where it is found, if it has one. It prints as
/// `refused CODE NAME` or `refused CODE NAME NUMBER`, and takes no memory for that.
#[derive(Clone, Copy)]
pub struct PrintedRefusal {
    pub fault: Fault,
    /// The line, counted from 1, or the job, counted from 0.
    pub line_or_job: Option<u32>,
}

impl fmt::Display for PrintedRefusal {
    ghost use Rattle.program_io.specs.Refusals.{refusal_line};

    ghost output = { λ refusal. Some (refusal_line refusal) };

    fn fmt<W: fmt::Write>(&self, f: &mut fmt::Formatter<W>) -> fmt::Result {
        let fault = self.fault;
        match self.line_or_job {
            Some(line_or_job) => write!(f, "refused {} {fault} {line_or_job}", fault.number()),
            None => write!(f, "refused {} {fault}", fault.number()),
        }
    }
}

impl From<InputFault> for PrintedRefusal {
    ghost use Rattle.program_io.specs.Refusals.{of_input};

    ghost from_gives = { λ fault refusal. refusal ≡ of_input fault };

    fn from(fault: InputFault) -> PrintedRefusal {
        match fault {
            InputFault::ReadError => PrintedRefusal::from(Fault::ReadError),
            InputFault::NoMemory => PrintedRefusal::from(Fault::JobNoMemory),
        }
    }
}

impl From<Fault> for PrintedRefusal {
    ghost use Rattle.program_io.specs.Refusals.{plain};

    ghost from_gives = { λ fault refusal. refusal ≡ plain fault };

    fn from(fault: Fault) -> PrintedRefusal {
        PrintedRefusal {
            fault,
            line_or_job: None,
        }
    }
}

impl From<JobFault> for PrintedRefusal {
    ghost use Rattle.program_io.specs.Refusals.{refusal_for};

    ghost from_gives = { λ fault refusal. refusal ≡ refusal_for fault };

    fn from(found: JobFault) -> PrintedRefusal {
        // A fault is passed on whole, so the second call gets a copy.
        let again = found;
        PrintedRefusal {
            fault: found.fault(),
            line_or_job: again.line_or_job(),
        }
    }
}

impl From<AllocError> for PrintedRefusal {
    ghost use Rattle.program_io.specs.Refusals.{plain};

    ghost from_gives = { λ _ refusal. refusal ≡ plain JobNoMemory };

    fn from(_error: AllocError) -> PrintedRefusal {
        PrintedRefusal::from(Fault::JobNoMemory)
    }
}

/// Writes the one line of a refusal, and flushes. An error is that of a write.
pub fn write_refusal<W: Write>(writer: &mut W, refusal: PrintedRefusal) -> io::Result<()>
    ensures { OnOk result (Appends (W.contents writer.old) (W.contents writer.new)
        (with_line_feed (refusal_line refusal))) }
{
    writeln!(writer, "{refusal}")?;
    writer.flush()
}
