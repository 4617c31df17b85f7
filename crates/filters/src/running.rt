//! The run of a filter, whichever node it has: the note comes first, and what comes behind it is answered.

ghost use Rattle.std.specs.Prelude.{IfOk, OnErr, IfSome};
ghost use Rattle.std.specs.Io.KnownBytes.{Appends};
ghost use Rattle.std.specs.Io.Buffered.{reader_remaining};
ghost use Rattle.filters.specs.Lives.{Breaks, RunsOver, Runs};
ghost use Rattle.filters.specs.Steps.{StopsBy};

use crate::output::{Guarded, Output, ended};
use crate::reading::first_note;
use crate::records_node::{RecordsNode, run_records};
use crate::writing::refuse;
use std::alloc::Global;
use std::io;
use std::io::{BufReader, Read, Write};

/// Serves as a node that begins so, until the input ends, and answers the exit status: 0, or 2 where it can't go on,
/// which the last record says.
///
/// The first record is the note. What comes behind it is answered record by record, each by records of which the last
/// is an end. They are flushed before the next record is waited for. An error is that of a write.
pub(crate) fn run<N: RecordsNode, R: Read, W: Write>(
    alloc: Global,
    begin: N::Begin,
    reader: &mut BufReader<R>,
    writer: &mut W,
) -> io::Result<u8>
    requires { N.MayBegin begin }
    ensures ok { IfSome (reader_remaining R.remaining reader.old) (λ input. IfOk result
        (Runs (N.filter begin) input (Appends (W.contents writer.old) (W.contents writer.new)))) }
    ensures err { IfSome (reader_remaining R.remaining reader.old) (λ input. OnErr result
        (Breaks (N.filter begin) input (W.contents writer.old) (W.contents writer.new))) }
{
    let mut output = Guarded {
        writer,
        error: None,
    };
    let status = serve::<N, R, Guarded<'_, W>>(alloc, begin, reader, &mut output);
    let Guarded { writer, error } = output;
    // No effect when it runs. The proof reads from this use what the writer holds.
    let _ = &*writer;
    ended(error, status)
}

/// Serves, and answers the exit status.
fn serve<N: RecordsNode, R: Read, W: Output>(
    alloc: Global,
    begin: N::Begin,
    reader: &mut BufReader<R>,
    writer: &mut W,
) -> u8
    requires { N.MayBegin begin }
    ensures { StopsBy (Runs (N.filter begin)) (reader_remaining R.remaining reader.old)
        (W.written writer.old) (W.written writer.new) result }
{
    match first_note(alloc, reader, writer) {
        Ok(note) => run_over::<N, R, W>(alloc, begin, note, reader, writer),
        Err(fault) => refuse(writer, fault),
    }
}

/// Serves over this note.
fn run_over<N: RecordsNode, R: Read, W: Output>(
    alloc: Global,
    begin: N::Begin,
    note: Vec<u8>,
    reader: &mut BufReader<R>,
    writer: &mut W,
) -> u8
    requires { N.MayBegin begin }
    ensures { StopsBy (RunsOver (N.filter begin) note.items) (reader_remaining R.remaining reader.old)
        (W.written writer.old) (W.written writer.new) result }
{
    let mut node = match N::open(alloc, begin, note) {
        Ok(node) => node,
        Err(fault) => return refuse(writer, fault),
    };
    node.answer_note(begin, writer);
    run_records(alloc, &mut node, reader, writer)
}
