//! A report as it is printed.

ghost use Rattle.std.specs.Prelude.{OnOk, Some};
ghost use Rattle.std.specs.List.{flat_map};
ghost use Rattle.std.specs.Io.KnownBytes.{Appends};
ghost use Rattle.program_io.specs.Reports.{report_words, block_words};
ghost use Rattle.program_io.specs.Words.{with_blanks_between, blank_before};

use fc_base::{CheckReport, ReportEnd};
use std::io::Write;
use std::{fmt, io};

/// Writes the words of a report: `checked N faults N end WORDS first BLOCKS`, with no line feed. `WORDS`
/// is `whole`, `fault`, or `read BLOCK`; for no blocks stands `-`.
///
/// An error is that of a write: nothing is written after it.
pub fn write_report_words<W: Write>(writer: &mut W, report: &CheckReport) -> io::Result<()>
    ensures { OnOk result
        (Appends (W.contents writer.old) (W.contents writer.new)
        (with_blanks_between (report_words report.now))) }
{
    write!(
        writer,
        "checked {} faults {} end {} first",
        report.checked(),
        report.faults(),
        EndWords(report.end()),
    )?;
    write_blocks(writer, report.first())
}

/// Writes blocks with a blank before each, or `-` for none.
fn write_blocks<W: Write>(writer: &mut W, blocks: &[u32]) -> io::Result<()>
    ensures { OnOk result
        (Appends (W.contents writer.old) (W.contents writer.new)
        (flat_map blank_before (block_words blocks.now))) }
{
    if blocks.is_empty() {
        return write!(writer, " -");
    }
    for block in blocks {
        write!(writer, " {block}")?;
    }
    Ok(())
}

/// How a check ended: `whole`, `fault`, or `read B`.
#[derive(Clone, Copy, Drop)]
struct EndWords(ReportEnd);

impl fmt::Display for EndWords {
    ghost use Rattle.program_io.specs.Reports.{end_words};
    ghost use Rattle.program_io.specs.Words.{with_blanks_between};

    ghost output = { λ words. Some (with_blanks_between (end_words words.0)) };

    fn fmt<W: fmt::Write>(&self, f: &mut fmt::Formatter<W>) -> fmt::Result {
        match self.0 {
            ReportEnd::Whole => write!(f, "whole"),
            ReportEnd::AtFault => write!(f, "fault"),
            ReportEnd::ReadFault(block) => write!(f, "read {block}"),
        }
    }
}
