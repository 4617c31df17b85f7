//! Writing records.

ghost use Rattle.std.specs.Prelude.{◌≡◌, ◌<◌, OnOk, IfOk, ◌++◌, ◌∷◌, [], length, Err};
ghost use Rattle.std.specs.Int.{w32, w64};
ghost use Rattle.fc_base.specs.Layouts.{bytes_of};
ghost use Rattle.std.specs.List.{flat_map};
ghost use Rattle.std.specs.Io.KnownBytes.{Appends};
ghost use Rattle.filters.specs.Written.{Puts};
ghost use Rattle.fc_base.specs.declared.fault.Fault.TheVariants.{NoMemory as NO_MEMORY};
ghost use Rattle.filters.specs.declared.kinds.OutRecordKind.TheVariants.{Send as SENT};
ghost use Rattle.filters.specs.Kinds.{said_number};
ghost use Rattle.filters.specs.Records.{head_bytes, record_bytes, end_bytes};
ghost use Rattle.filters.specs.NodeTells.{save_bytes};

use crate::kinds::OutRecordKind;
use crate::output::{Guarded, Output, ended};
use fc_base::Fault;
use messages::Frames;
use std::io;
use std::io::Write;

/// The exit status where a filter ends since it can't go on.
pub(crate) const REFUSED: u8 = 2;

/// Writes what stands before a body of so many bytes.
pub(crate) fn put_head<W: Output>(writer: &mut W, kind: OutRecordKind, length: u64)
    ensures { Puts (W.written writer.old) (W.written writer.new)
        (head_bytes (said_number kind) length) }
{
    writer.put(&[kind.number()]);
    put_u64(writer, length)
}

/// Writes a record of this kind.
pub(crate) fn put_record<W: Output>(writer: &mut W, kind: OutRecordKind, body: &[u8])
    ensures { Puts (W.written writer.old) (W.written writer.new)
        (record_bytes (said_number kind) body.now) }
{
    put_head(writer, kind, body.len() as u64);
    writer.put(body);
}

/// Writes a record of this kind, whose body has one byte behind these.
pub(crate) fn put_with<W: Output>(writer: &mut W, kind: OutRecordKind, front: &[u8], last: u8)
    ensures { Puts (W.written writer.old) (W.written writer.new)
        (record_bytes (said_number kind) (front.now ++ last ∷ [])) }
{
    put_head(writer, kind, front.len() as u64 + 1);
    writer.put(front);
    writer.put(&[last]);
}

/// Writes that a record was answered, or the fault for which it wasn't.
pub(crate) fn put_end<W: Output>(writer: &mut W, answer: Result<(), Fault>)
    ensures { Puts (W.written writer.old) (W.written writer.new)
        (end_bytes answer) }
{
    let number = match answer {
        Ok(()) => 0,
        Err(fault) => fault.number(),
    };
    put_record(writer, OutRecordKind::End, &[number])
}

/// Writes a note, where it was saved.
pub(crate) fn put_save<W: Output>(writer: &mut W, saves: bool, note: &[u8])
    ensures { Puts (W.written writer.old) (W.written writer.new)
        (save_bytes saves note.now) }
{
    if saves {
        put_record(writer, OutRecordKind::Save, note);
    }
}

/// Writes frames to send.
#[tactic(auto, using(crate::proofs::WriteLemmas::one_more))]
pub(crate) fn put_frames<W: Output>(writer: &mut W, frames: &Frames)
    ensures { Puts (W.written writer.old) (W.written writer.new)
        (flat_map (record_bytes (said_number SENT)) frames.now) }
{
    for index in 0..frames.len() {
        let Some(bytes) = frames.get(index) else {
            return;
        };
        put_record(writer, OutRecordKind::Send, bytes);
    }
}

/// Writes why a filter can't go on, and answers the exit status.
pub(crate) fn refuse<W: Output>(writer: &mut W, fault: Fault) -> u8
    ensures status { result ≡ 2 }
    ensures written { Puts (W.written writer.old) (W.written writer.new) (end_bytes (Err fault)) }
{
    put_end(writer, Err(fault));
    writer.flush();
    REFUSED
}

/// Answers that there is no memory to begin with: nothing is read, and all that is written is an end with want of
/// memory. The exit status is that of a refusal. An error is that of a write.
pub fn want_memory<W: Write>(writer: &mut W) -> io::Result<u8>
    ensures status { IfOk result (λ status. status ≡ 2) }
    ensures written { OnOk result (Appends (W.contents writer.old) (W.contents writer.new)
        (end_bytes (Err NO_MEMORY))) }
{
    let mut output = Guarded {
        writer,
        error: None,
    };
    let status = refuse(&mut output, Fault::NoMemory);
    let Guarded { writer, error } = output;
    // No effect when it runs. The proof reads from this use what the writer holds.
    let _ = &*writer;
    ended(error, status)
}

/// Writes a number in eight bytes.
#[tactic(auto, unfolding(fc_base::specs::Layouts::bytes_of))]
pub(crate) fn put_u64<W: Output>(writer: &mut W, number: u64)
    ensures { Puts (W.written writer.old) (W.written writer.new)
        (bytes_of w64 number) }
{
    writer.put(&number.to_be_bytes());
}

/// Writes a number in four bytes.
#[tactic(auto, unfolding(fc_base::specs::Layouts::bytes_of))]
pub(crate) fn put_u32<W: Output>(writer: &mut W, number: u32)
    ensures { Puts (W.written writer.old) (W.written writer.new)
        (bytes_of w32 number) }
{
    writer.put(&number.to_be_bytes());
}
