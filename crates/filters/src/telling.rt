//! What is told of the client.

ghost use Rattle.std.specs.Prelude.{◌≡◌};
ghost use Rattle.filters.specs.Written.{Puts};
ghost use Rattle.fc_base.specs.Layouts.{spelled_blocks};
ghost use Rattle.filters.specs.ClientAsks.{outcome_number, report_names, report_counts, end_numbers};
ghost use Rattle.filters.specs.ClientLives.{report_bytes};

use crate::kinds::OutRecordKind;
use crate::output::Output;
use crate::writing::{put_head, put_u32, put_u64};
use client_core::{Outcome, Received};
use fc_base::{CheckReport, ReportEnd};

/// How a request stands, as a byte: 0 to 2, or the number of the reason.
pub(crate) fn outcome_number(outcome: Outcome) -> u8
    ensures { result ≡ outcome_number outcome }
{
    match outcome {
        Outcome::None => 0,
        Outcome::Open => 1,
        Outcome::Good => 2,
        Outcome::Refused(reason) => reason.number(),
    }
}

/// Writes a report that has come.
#[tactic(auto, using(crate::proofs::OutputLemmas::puts_both))]
pub(crate) fn put_report<W: Output>(writer: &mut W, received: &Received)
    ensures { Puts (W.written writer.old) (W.written writer.new)
        (report_bytes received.now) }
{
    let report = &received.report;
    let blocks = report.first();
    put_head(writer, OutRecordKind::Report, 40 + 4 * blocks.len() as u64);
    put_names(writer, received);
    put_counts(writer, report);
    put_blocks(writer, blocks)
}

/// Writes whose a report is.
#[tactic(auto, using(crate::proofs::OutputLemmas::puts_both))]
fn put_names<W: Output>(writer: &mut W, received: &Received)
    ensures { Puts (W.written writer.old) (W.written writer.new)
        (report_names received.now) }
{
    put_u64(writer, received.run.0);
    put_u64(writer, received.attempt.0);
    put_u32(writer, received.server.0);
    put_u32(writer, received.job.0)
}

/// Writes the counts of a report, and how its check ended.
#[tactic(auto, using(crate::proofs::OutputLemmas::puts_both))]
fn put_counts<W: Output>(writer: &mut W, report: &CheckReport)
    ensures { Puts (W.written writer.old) (W.written writer.new)
        (report_counts report.now) }
{
    let (end, block) = end_numbers(report.end());
    put_u32(writer, report.checked());
    put_u32(writer, report.faults());
    put_u32(writer, end);
    put_u32(writer, block)
}

/// How a check ended, in two numbers: 0, 1 or 2, and the block that could not be read, else 0.
fn end_numbers(end: ReportEnd) -> (u32, u32)
    ensures { result ≡ end_numbers end }
{
    match end {
        ReportEnd::Whole => (0, 0),
        ReportEnd::AtFault => (1, 0),
        ReportEnd::ReadFault(block) => (2, block),
    }
}

/// Writes blocks.
fn put_blocks<W: Output>(writer: &mut W, blocks: &[u32])
    ensures { Puts (W.written writer.old) (W.written writer.new)
        (spelled_blocks blocks.now) }
{
    for block in blocks {
        put_u32(writer, *block);
    }
}
