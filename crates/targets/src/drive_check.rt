//! `drive check`: a job file, a verify state and the bytes of a target in, a report out.

ghost use Rattle.std.specs.Prelude.{◌≡◌, IfOk, IfErr, IfSome, OnOk, Ok};
ghost use Rattle.std.specs.Io.KnownBytes.{Appends};
ghost use Rattle.program_io.specs.Words.{with_line_feed};
ghost use Rattle.targets.specs.Reports.{CannotCheck, ChecksInput, ChecksJob, HasNoState, IsStateIn, report_line, report_status};

use crate::checking::check_blocks;
use crate::drive_write::refuse;
use crate::job_setup::{key_of, read_job};
use crate::texts::read_text;
use fc_base::{CheckReport, Fault, JobNo, Key, ReportEnd, RunNo};
use program_io::{PrintedRefusal, write_report_words};
use std::alloc::Global;
use std::io;
use std::io::{Read, Write};
use verify_state::VerifyState;

/// The most bytes of a state that are read. The longest has 4,196, in the older layout.
pub const MAX_STATE: usize = 8_192;

/// The exit status where the report has no faults.
const SOUND: u8 = 0;

/// The exit status where it has.
const FAULTY: u8 = 1;

/// The exit status where the target's bytes ended early.
const CUT_SHORT: u8 = 2;

/// Reads a job file behind its length, a verify state behind its own (0 for none: a full pass), and then the bytes of
/// the target from the job's first block to the end of its region, and checks them as [`check_blocks`] does, by the
/// settings of the file's job of this number. The report is written as a line, as
/// `report checked 2 faults 1 end whole first 1`.
///
/// The status is 0; 1 where the report has faults; and 2 where the bytes end before the region, which the report says as
/// `end read B`, and for every refusal. That is a line, `refused CODE NAME` with the line or the job where the fault has
/// one: of the job file, as by [`write_job`](crate::write_job), of the state's bytes, of a state that doesn't fit the
/// run and the job, of a failed read, and of want of memory. An error is that of a write.
pub fn check_job<R: Read, W: Write>(
    alloc: Global,
    run: RunNo,
    job: JobNo,
    reader: &mut R,
    writer: &mut W,
) -> io::Result<u8>
    ensures { IfSome (R.remaining reader.old) (λ input. IfOk result
        (ChecksJob run job input (W.contents writer.old) (W.contents writer.new))) }
{
    match report_of(alloc, key_of(run, job), reader) {
        Ok(report) => write_report(writer, &report),
        Err(refusal) => refuse(writer, refusal),
    }
}

/// The report of a job, or why there is none.
fn report_of<R: Read>(
    alloc: Global,
    key: Key,
    reader: &mut R,
) -> Result<CheckReport, PrintedRefusal>
    ensures report { IfSome (R.remaining reader.old)
        (λ input. IfOk result (λ report. ChecksInput key input (Ok report))) }
    ensures none { IfSome (R.remaining reader.old) (λ input. IfErr result (CannotCheck key input)) }
{
    let asked = read_job(alloc, reader, key.job)?;
    let state = read_state(alloc, reader)?;
    let report = check_blocks(alloc, key, &asked.rec, state.as_ref(), asked.fatal, reader)?;
    Ok(report)
}

/// Reads a state behind its length, or none.
pub(crate) fn read_state<R: Read>(
    alloc: Global,
    reader: &mut R,
) -> Result<Option<VerifyState>, Fault>
    ensures state { IfOk result (IsStateIn (R.remaining reader.old) (R.remaining reader.new)) }
    ensures none { IfErr result (HasNoState (R.remaining reader.old)) }
{
    let bytes = read_text(alloc, reader, MAX_STATE)?;
    if bytes.is_empty() {
        return Ok(None);
    }
    let state = VerifyState::decode(&bytes)?;
    if bytes.len() > MAX_STATE {
        return Err(Fault::StateTrailing);
    }
    Ok(Some(state))
}

/// Writes the line of a report.
fn write_report<W: Write>(writer: &mut W, report: &CheckReport) -> io::Result<u8>
    ensures line { OnOk result
        (Appends (W.contents writer.old) (W.contents writer.new)
        (with_line_feed (report_line report.now))) }
    ensures status { IfOk result (λ status. status ≡ report_status report.now) }
{
    write!(writer, "report ")?;
    write_report_words(writer, report)?;
    writeln!(writer)?;
    writer.flush()?;
    Ok(status_of(report))
}

/// The exit status of a report.
pub(crate) fn status_of(report: &CheckReport) -> u8
    ensures { result ≡ report_status report.now }
{
    match report.end() {
        ReportEnd::ReadFault(_) => CUT_SHORT,
        ReportEnd::Whole | ReportEnd::AtFault if report.faults() > 0 => FAULTY,
        ReportEnd::Whole | ReportEnd::AtFault => SOUND,
    }
}
