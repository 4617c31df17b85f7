//! What comes of each job, as it is printed.

ghost use Rattle.std.specs.Prelude.{◌≡◌, OnOk, Some, None};
ghost use Rattle.std.specs.Io.KnownBytes.{Appends};
ghost use Rattle.program_io.specs.Words.{with_blanks_between, with_line_feed};
ghost use Rattle.commands.specs.Live.{end_words, end_line, end_lines, ends_text, ends_status, has_misfit, is_faulty, counts_faults};

use crate::live::{FAULTY, PRINTED};
use fc_base::{CheckReport, Fault};
use node_threads::CheckEnd;
use program_io::{REFUSED, write_report_words};
use std::io;
use std::io::Write;

/// Writes a line for each end, `report S J` and the words of its report, or `refused S J 67 Misfit`, and
/// then the line `assembled`.
pub(crate) fn write_ends<W: Write>(writer: &mut W, ends: &[CheckEnd]) -> io::Result<()>
    ensures { OnOk result
        (Appends (W.contents writer.old) (W.contents writer.new) (ends_text ends.now)) }
{
    write_lines(writer, ends)?;
    writeln!(writer, "assembled")?;
    writer.flush()
}

/// Writes a line for each end.
fn write_lines<W: Write>(writer: &mut W, ends: &[CheckEnd]) -> io::Result<()>
    ensures { OnOk result
        (Appends (W.contents writer.old) (W.contents writer.new) (end_lines ends.now)) }
{
    for end in ends {
        write_end(writer, end)?;
    }
    Ok(())
}

/// Writes the line of an end.
fn write_end<W: Write>(writer: &mut W, end: &CheckEnd) -> io::Result<()>
    ensures { OnOk result
        (Appends (W.contents writer.old) (W.contents writer.new)
        (with_line_feed (end_line end.now))) }
{
    match &end.report {
        Some(report) => write_report(writer, end, report),
        None => write_misfit(writer, end),
    }
}

/// Writes the line of an end that has this report.
fn write_report<W: Write>(writer: &mut W, end: &CheckEnd, report: &CheckReport) -> io::Result<()>
    ensures { OnOk result (Appends (W.contents writer.old) (W.contents writer.new)
        (with_line_feed (with_blanks_between (end_words end.now (Some report.now))))) }
{
    write!(writer, "report {} {} ", end.server.0, end.job.0)?;
    write_report_words(writer, report)?;
    writeln!(writer)
}

/// Writes the line of an end whose state doesn't fit.
fn write_misfit<W: Write>(writer: &mut W, end: &CheckEnd) -> io::Result<()>
    ensures { OnOk result (Appends (W.contents writer.old) (W.contents writer.new)
        (with_line_feed (with_blanks_between (end_words end.now None)))) }
{
    let fault = Fault::Misfit;
    writeln!(
        writer,
        "refused {} {} {} {fault}",
        end.server.0,
        end.job.0,
        fault.number(),
    )
}

/// The exit status of these ends.
pub(crate) fn status_of(ends: &[CheckEnd]) -> u8
    ensures { result ≡ ends_status ends.now }
{
    if has_misfit(ends) {
        REFUSED
    } else if is_faulty(ends) {
        FAULTY
    } else {
        PRINTED
    }
}

/// Whether some state doesn't fit.
fn has_misfit(ends: &[CheckEnd]) -> bool
    ensures { result ≡ has_misfit ends.now }
{
    ends.iter().any(|end| end.report.is_none())
}

/// Whether some report has faults.
fn is_faulty(ends: &[CheckEnd]) -> bool
    ensures { result ≡ is_faulty ends.now }
{
    ends.iter().any(|end| has_faults(&end.report))
}

/// Whether a report has faults.
fn has_faults(report: &Option<CheckReport>) -> bool
    ensures { result ≡ counts_faults report.now }
{
    report.as_ref().is_some_and(|report| report.faults() > 0)
}
