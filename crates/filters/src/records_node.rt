//! A node that answers records, whichever it is, and its run behind its note.

ghost use Rattle.std.specs.Prelude.{ℕ, [], List, IfOk, IfErr};
ghost use Rattle.std.specs.Io.Buffered.{reader_remaining};
ghost use Rattle.filters.specs.Written.{Puts};
ghost use Rattle.filters.specs.Lives.{Filter, HasRun};
ghost use Rattle.filters.specs.Steps.{AnswersRecord, IsOpened, StepsBy, StopsBy, parts_of};

use crate::output::Output;
use crate::reading::{next_record, wait};
use crate::record::Record;
use crate::writing::{REFUSED, refuse};
use fc_base::Fault;
use std::alloc::Global;
use std::io::{BufReader, Read};

/// A node over its note that answers records.
pub(crate) trait RecordsNode: Drop {
    /// How it begins over its note.
    type Begin: Copy;

    /// What it is opened with.
    ghost Opening: { Type 0 };

    /// Where it is at some moment.
    ghost Moment: { Type 0 };

    /// What its note says.
    ghost Said: { Type 0 };

    /// The filter that it is, where it begins so.
    ghost filter: { Self.Begin → Filter Opening Moment Said };

    /// It may begin so.
    ghost MayBegin: { Self.Begin → Type 0 };

    /// Opened so, it is at this moment.
    ghost StandsAt: { Self → Opening → Moment → Type 0 };

    /// What it answers to its note, where it began so.
    ghost answered: { Self.Begin → Self → List ℕ };

    /// Opens it over this note, or says why it isn't opened.
    fn open(alloc: Global, begin: Self::Begin, note: Vec<u8>) -> Result<Self, Fault>
        requires { MayBegin begin }
        ensures ok { IfOk result (λ node.
            IsOpened (filter begin) (StandsAt node) note.items (answered begin node)) }
        ensures err { IfErr result ((filter begin).Refuses note.items) };

    /// Answers its note.
    fn answer_note<W: Output>(&self, begin: Self::Begin, writer: &mut W)
        ensures { Puts (W.written writer.old) (W.written writer.new) (answered begin self.now) };

    /// Answers a record.
    fn answer_record<W: Output>(&mut self, came: &Record, writer: &mut W)
        ensures { (begin : Self.Begin) →
            AnswersRecord (filter begin).Takes (StandsAt self.old) (StandsAt self.new)
            (parts_of came.now) (W.written writer.old) (W.written writer.new) };
}

/// Answers records until there is none, or a write has failed, and answers the exit status.
pub(crate) fn run_records<N: RecordsNode, R: Read, W: Output>(
    alloc: Global,
    node: &mut N,
    reader: &mut BufReader<R>,
    writer: &mut W,
) -> u8
    ensures { (begin : N.Begin) → StopsBy (HasRun (N.filter begin).Takes (N.StandsAt node.old) [])
        (reader_remaining R.remaining reader.old)
        (W.written writer.old) (W.written writer.new) result }
{
    for _ in 0..u64::MAX {
        if let Some(status) = step(alloc, node, reader, writer) {
            return status;
        }
    }
    refuse(writer, Fault::TurnsSpent)
}

/// Reads a record and has it answered; the exit status where there is none, or where a write has failed.
fn step<N: RecordsNode, R: Read, W: Output>(
    alloc: Global,
    node: &mut N,
    reader: &mut BufReader<R>,
    writer: &mut W,
) -> Option<u8>
    ensures { (begin : N.Begin) →
        StepsBy (N.filter begin).Takes (N.StandsAt node.old) (N.StandsAt node.new)
        (reader_remaining R.remaining reader.old) (reader_remaining R.remaining reader.new)
        (W.written writer.old) (W.written writer.new) result }
{
    wait(reader, writer);
    if writer.has_failed() {
        return Some(REFUSED);
    }
    match next_record(alloc, reader) {
        Ok(Some(came)) => {
            node.answer_record(&came, writer);
            None
        }
        Ok(None) => {
            writer.flush();
            Some(0)
        }
        Err(fault) => {
            let status = refuse(writer, fault);
            Some(status)
        }
    }
}
