//! Reading records.

ghost use Rattle.std.specs.Prelude.{[]};
ghost use Rattle.std.specs.Io.Buffered.{reader_remaining};
ghost use Rattle.filters.specs.Written.{Puts};
ghost use Rattle.filters.specs.Steps.{ReadsHead, ReadsBody, ReadsRecord, IsNoteOf, ReadsNote};

use crate::kinds::InRecordKind;
use crate::output::Output;
use crate::record::{HEAD, Head, MAX_BODY, Record, head_in, holds_record};
use fc_base::Fault;
use program_io::fill;
use std::alloc::Global;
use std::io::{BufReader, Read};

/// The most calls of `read` for a head, and for a body: more than its bytes.
const MAX_READS: u32 = 2_000_000;

/// Before the next record is waited for, what was written is flushed.
#[tactic(auto, using(crate::proofs::OutputLemmas::puts_none))]
pub(crate) fn wait<R: Read, W: Output>(reader: &BufReader<R>, writer: &mut W)
    ensures { Puts (W.written writer.old) (W.written writer.new) [] }
{
    if !holds_record(reader.buffer()) {
        writer.flush();
    }
}

/// The next record; `None` where the input has ended.
///
/// `EndOfInput`: the input ends within a record. `BadNotice`: its body is said to be longer than any that is
/// read, and nothing of it is. `ReadError`. `NoMemory`.
pub(crate) fn next_record<R: Read>(
    alloc: Global,
    reader: &mut BufReader<R>,
) -> Result<Option<Record>, Fault>
    ensures { ReadsRecord (reader_remaining R.remaining reader.old)
        (reader_remaining R.remaining reader.new) result }
{
    read_record(alloc, reader)
}

/// The note, which is the first record.
///
/// `BadNotice`: the first record is another one. `EndOfInput`: there is none. Else as of any record.
pub(crate) fn first_note<R: Read, W: Output>(
    alloc: Global,
    reader: &mut BufReader<R>,
    writer: &mut W,
) -> Result<Vec<u8>, Fault>
    ensures written { Puts (W.written writer.old) (W.written writer.new) [] }
    ensures read { ReadsNote (reader_remaining R.remaining reader.old)
        (reader_remaining R.remaining reader.new) result }
{
    wait(reader, writer);
    match next_record(alloc, reader) {
        Ok(Some(came)) => note_of(came),
        Ok(None) => Err(Fault::EndOfInput),
        Err(fault) => Err(fault),
    }
}

/// The note that a record is.
fn note_of(came: Record) -> Result<Vec<u8>, Fault>
    ensures { IsNoteOf came result }
{
    let Record { kind, body } = came;
    if kind == InRecordKind::Note.number() {
        Ok(body)
    } else {
        Err(Fault::BadNotice)
    }
}

/// The next record.
fn read_record<R: Read>(alloc: Global, reader: &mut R) -> Result<Option<Record>, Fault>
    ensures { ReadsRecord (R.remaining reader.old) (R.remaining reader.new) result }
{
    match read_head(reader) {
        Ok(Some(head)) => match read_body(alloc, reader, head.length) {
            Ok(body) => Ok(Some(Record {
                kind: head.kind,
                body,
            })),
            Err(fault) => Err(fault),
        },
        Ok(None) => Ok(None),
        Err(fault) => Err(fault),
    }
}

/// The next head.
fn read_head<R: Read>(reader: &mut R) -> Result<Option<Head>, Fault>
    ensures { ReadsHead (R.remaining reader.old) (R.remaining reader.new) result }
{
    let mut bytes = [0; HEAD];
    let Ok(filled) = fill(reader, &mut bytes, MAX_READS) else {
        return Err(Fault::ReadError);
    };
    if filled == 0 {
        return Ok(None);
    }
    if filled < HEAD {
        return Err(Fault::EndOfInput);
    }
    Ok(Some(head_in(&bytes)))
}

/// A body of so many bytes. Memory is asked for only where it isn't longer than any that is read.
fn read_body<R: Read>(alloc: Global, reader: &mut R, told: u64) -> Result<Vec<u8>, Fault>
    ensures { ReadsBody told (R.remaining reader.old) (R.remaining reader.new) result }
{
    if told > MAX_BODY {
        return Err(Fault::BadNotice);
    }
    let length = told as usize;
    let Ok(mut body) = vec![in alloc; 0u8; length] else {
        return Err(Fault::NoMemory);
    };
    let Ok(filled) = fill(reader, &mut body, MAX_READS) else {
        return Err(Fault::ReadError);
    };
    if filled < length {
        return Err(Fault::EndOfInput);
    }
    Ok(body)
}
