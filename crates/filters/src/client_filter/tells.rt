//! What is written of the client's answers, and of what it shows.

ghost use Rattle.std.specs.Prelude.{◌≡◌, Some, slice_get};
ghost use Rattle.std.specs.Option.{option_copied};
ghost use Rattle.filters.specs.Written.{Puts};
ghost use Rattle.filters.specs.declared.kinds.InRecordKind.TheVariants as told;
ghost use Rattle.client_core.specs.FrameEnds.{note_in};
ghost use Rattle.filters.specs.Kept.{note_kept};
ghost use Rattle.filters.specs.ClientAsks.{input_in};
ghost use Rattle.filters.specs.NodeTells.{result_bytes};
ghost use Rattle.filters.specs.ClientLives.{TakesBody, TakesKind, report_if};
ghost use Rattle.filters.specs.ClientRuns.{FilterIsAt};
ghost use Rattle.filters.specs.Steps.{AnswersBy};

use super::ClientFilter;
use crate::asking::{look_in, number_alone};
use crate::kinds::{InRecordKind, OutRecordKind};
use crate::node_step::{NodeStep, put_result};
use crate::output::Output;
use crate::telling::{outcome_number, put_report};
use crate::writing::{put_end, put_with};
use client_core::Received;
use fc_base::Fault;

impl ClientFilter {
    /// Asks the client what the body of a record says, and writes the answer.
    pub(super) fn answer_body<W: Output>(&mut self, kind: InRecordKind, body: &[u8], writer: &mut W)
        ensures { AnswersBy (λ opening at now answer.
            TakesBody opening at (input_in kind body.now) now answer)
            (FilterIsAt self.old) (FilterIsAt self.new)
            (W.written writer.old) (W.written writer.new) }
    {
        let answer = self.ask(kind, body);
        self.write_answer(answer, writer)
    }

    /// Writes an answer, or why there is none.
    fn write_answer<W: Output>(&self, answer: Result<NodeStep, Fault>, writer: &mut W)
        ensures { Puts (W.written writer.old) (W.written writer.new)
            (result_bytes (note_in note_kept self.now.client).bytes answer) }
    {
        put_result(writer, self.client.notes().as_slice(), answer)
    }

    /// Writes how a request stands at a server.
    pub(super) fn look<W: Output>(&self, body: &[u8], writer: &mut W)
        ensures { AnswersBy (λ opening at now answer.
            TakesKind opening at (Some told.Look) body.now now answer)
            (FilterIsAt self.now) (FilterIsAt self.now)
            (W.written writer.old) (W.written writer.new) }
    {
        match look_in(body) {
            Some(asked) => {
                let outcome = self.client.outcome(asked.kind, asked.number, asked.server);
                put_with(
                    writer,
                    OutRecordKind::Outcome,
                    body,
                    outcome_number(outcome),
                );
                put_end(writer, Ok(()));
            }
            None => put_end(writer, Err(Fault::BadNotice)),
        }
    }

    /// Writes the report of this place among those that came, if there is one.
    pub(super) fn show<W: Output>(&self, body: &[u8], writer: &mut W)
        ensures { AnswersBy (λ opening at now answer.
            TakesKind opening at (Some told.Show) body.now now answer)
            (FilterIsAt self.now) (FilterIsAt self.now)
            (W.written writer.old) (W.written writer.new) }
    {
        match number_alone(body) {
            Some(place) => {
                put_if_any(writer, report_at(self.client.reports(), place));
                put_end(writer, Ok(()));
            }
            None => put_end(writer, Err(Fault::BadNotice)),
        }
    }
}

/// The report of this place.
fn report_at(reports: &[Received], place: u64) -> Option<&Received>
    ensures { option_copied result ≡ slice_get reports.now place }
{
    reports.get(place as usize)
}

/// Writes a report, if there is one.
fn put_if_any<W: Output>(writer: &mut W, received: Option<&Received>)
    ensures { Puts (W.written writer.old) (W.written writer.new)
        (report_if (option_copied received.entry)) }
{
    match received {
        Some(received) => put_report(writer, received),
        None => {}
    }
}
