//! A mirror as a filter.

ghost use Rattle.std.specs.Prelude.{List, Some, Ok, IfOk, OnErr, IfSome};
ghost use Rattle.std.specs.Io.KnownBytes.{Appends};
ghost use Rattle.std.specs.Io.Buffered.{reader_remaining};
ghost use Rattle.mirror_core.specs.declared.note.MirrorNote.{MirrorNote};
ghost use Rattle.mirror_core.specs.Ends.{steps};
ghost use Rattle.mirror_core.specs.History.{Entry};
ghost use Rattle.mirror_core.specs.Stands.{note_in, StandsFor};
ghost use Rattle.filters.specs.Written.{Puts};
ghost use Rattle.filters.specs.Kept.{note_kept};
ghost use Rattle.filters.specs.Records.{end_bytes};
ghost use Rattle.filters.specs.Lives.{Breaks, Runs};
ghost use Rattle.filters.specs.Steps.{AnswersBy, AnswersRecord, parts_of};
ghost use Rattle.filters.specs.NodeSteps.{InputEnds, BodyEnds};
ghost use Rattle.filters.specs.NodeTells.{result_bytes};
ghost use Rattle.filters.specs.MirrorLives.{MirrorAt, IsAt, MirrorTakes, TakesBody, TakesKind, answer_to, frame_in, mirror_filter};

use crate::kinds::InRecordKind;
use crate::node_step::{NodeStep, put_result};
use crate::note_buffer::NoteBuffer;
use crate::output::Output;
use crate::record::Record;
use crate::records_node::RecordsNode;
use crate::running::run;
use crate::writing::put_end;
use fc_base::Fault;
use messages::{Act, Frame, decode_frame};
use mirror_core::Mirror;
use std::alloc::Global;
use std::io;
use std::io::{BufReader, Read, Write};

/// Serves as the mirror, until the input ends, and answers the exit status: 0, or 2 where it can't go on,
/// which the last record says.
///
/// The first record is the note. What comes behind it is answered record by record, each by records of which
/// the last is an end. They are flushed before the next record is waited for. An error is that of a write.
pub fn run_mirror<R: Read, W: Write>(
    alloc: Global,
    reader: &mut BufReader<R>,
    writer: &mut W,
) -> io::Result<u8>
    ensures ok { IfSome (reader_remaining R.remaining reader.old) (λ input. IfOk result
        (Runs mirror_filter input (Appends (W.contents writer.old) (W.contents writer.new)))) }
    ensures err { IfSome (reader_remaining R.remaining reader.old) (λ input. OnErr result
        (Breaks mirror_filter input (W.contents writer.old) (W.contents writer.new))) }
{
    run::<MirrorFilter, R, W>(alloc, (), reader, writer)
}

/// The mirror over its note.
#[derive(Drop)]
pub(crate) struct MirrorFilter {
    alloc: Global,
    mirror: Mirror<NoteBuffer>,
}

impl RecordsNode for MirrorFilter {
    type Begin = ();

    ghost Opening = { MirrorNote };

    ghost Moment = { MirrorAt };

    ghost Said = { MirrorNote };

    ghost filter = { λ begin. mirror_filter };

    ghost MayBegin = { λ begin. Unit {0} };

    ghost StandsAt = { λ filter opening at. IsAt note_kept filter.mirror opening at };

    ghost answered = { λ begin filter. end_bytes (Ok tt) };

    fn open(alloc: Global, _begin: (), note: Vec<u8>) -> Result<MirrorFilter, Fault> {
        match Mirror::restart(alloc, NoteBuffer::new(note)) {
            Ok(mirror) => Ok(MirrorFilter { alloc, mirror }),
            Err((_, fault)) => Err(fault),
        }
    }

    fn answer_note<W: Output>(&self, _begin: (), writer: &mut W) {
        put_end(writer, Ok(()))
    }

    fn answer_record<W: Output>(&mut self, came: &Record, writer: &mut W) {
        self.answer(came, writer)
    }
}

impl MirrorFilter {
    /// Answers a record.
    fn answer<W: Output>(&mut self, came: &Record, writer: &mut W)
        ensures { AnswersRecord MirrorTakes (IsAt note_kept self.old.mirror)
            (IsAt note_kept self.new.mirror) (parts_of came.now)
            (W.written writer.old) (W.written writer.new) }
    {
        let body = came.body.as_slice();
        match InRecordKind::numbered(came.kind) {
            Some(kind) => self.answer_kind(kind, body, writer),
            None => put_end(writer, Err(Fault::BadNotice)),
        }
    }

    /// Answers a record of this kind.
    fn answer_kind<W: Output>(&mut self, kind: InRecordKind, body: &[u8], writer: &mut W)
        ensures { AnswersBy (λ opening at now answer.
            TakesKind opening at (Some kind) body.now now answer)
            (IsAt note_kept self.old.mirror) (IsAt note_kept self.new.mirror)
            (W.written writer.old) (W.written writer.new) }
    {
        match kind {
            InRecordKind::Frame => self.answer_frame(body, writer),
            _ => put_end(writer, Err(Fault::BadNotice)),
        }
    }

    /// Answers a frame.
    fn answer_frame<W: Output>(&mut self, body: &[u8], writer: &mut W)
        ensures { AnswersBy (λ opening at now answer.
            TakesBody opening at (frame_in body.now) now answer)
            (IsAt note_kept self.old.mirror) (IsAt note_kept self.new.mirror)
            (W.written writer.old) (W.written writer.new) }
    {
        let answer = self.take(body);
        self.write_answer(answer, writer)
    }

    /// Writes an answer, or why there is none.
    fn write_answer<W: Output>(&self, answer: Result<NodeStep, Fault>, writer: &mut W)
        ensures { Puts (W.written writer.old) (W.written writer.new)
            (result_bytes (note_in note_kept self.now.mirror).bytes answer) }
    {
        put_result(writer, self.mirror.notes().as_slice(), answer)
    }

    /// Takes the frame that these bytes are.
    fn take(&mut self, bytes: &[u8]) -> Result<NodeStep, Fault>
        ensures { (opening : MirrorNote) (past : List Entry) →
            StandsFor note_kept self.old.mirror opening past →
            BodyEnds (steps note_kept opening) (answer_to opening past) past
            (frame_in bytes.now) self.old.mirror self.new.mirror result }
    {
        match decode_frame(self.alloc, bytes) {
            Ok(frame) => self.deliver(&frame),
            Err(fault) => Err(fault),
        }
    }

    /// Delivers a frame.
    #[tactic(auto, using(crate::proofs::NodeLemmas::not_taken))]
    fn deliver(&mut self, frame: &Frame) -> Result<NodeStep, Fault>
        ensures { (opening : MirrorNote) (past : List Entry) →
            StandsFor note_kept self.old.mirror opening past →
            InputEnds (steps note_kept opening) (answer_to opening past) past
            frame.now self.old.mirror self.new.mirror result }
    {
        let saves = self.mirror.would_save(frame);
        let frames = self.mirror.deliver(frame)?;
        Ok(NodeStep {
            saves,
            number: None,
            frames,
            act: Act::None,
        })
    }
}
