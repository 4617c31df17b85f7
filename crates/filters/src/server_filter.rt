//! A server as a filter.

ghost use Rattle.std.specs.Prelude.{◌≡◌, ◌<◌, ◌++◌, true, Some, Ok, [], length, IfOk, OnErr, IfSome};
ghost use Rattle.std.specs.Io.Buffered.{reader_remaining};
ghost use Rattle.std.specs.Io.KnownBytes.{Appends};
ghost use Rattle.fc_base.specs.declared.limits.TheConstants.{MAX_SERVERS, MAX_BLOCK_SIZE as BLOCK_SIZE, MAX_JOBS as JOBS};
ghost use Rattle.server_core.specs.declared.note.ServerNote.{ServerNote};
ghost use Rattle.server_core.specs.History.{Opening as ServerOpening};
ghost use Rattle.server_core.specs.FrameEnds.{note_in};
ghost use Rattle.filters.specs.Written.{Puts};
ghost use Rattle.filters.specs.Kept.{note_kept};
ghost use Rattle.filters.specs.NodeTells.{save_bytes};
ghost use Rattle.filters.specs.Records.{end_bytes};
ghost use Rattle.filters.specs.Lives.{Breaks, Runs};
ghost use Rattle.filters.specs.Steps.{AnswersBy, AnswersRecord, parts_of};
ghost use Rattle.filters.specs.ServerOrders.{AreAllGiven};
ghost use Rattle.filters.specs.ServerAt.{ServerAt, no_checks as none_under_way};
ghost use Rattle.filters.specs.ServerChecks.{Feeds, GivesUp};
ghost use Rattle.filters.specs.ServerLives.{EndsBy, ServerTakes, TakesCheck, TakesKind, server_filter};

mod checks;
mod writes;

use crate::checking::Checking;
use crate::kinds::{InRecordKind, OutRecordKind};
use crate::names::write_name;
use crate::node_step::NodeStep;
use crate::note_buffer::NoteBuffer;
use crate::output::Output;
use crate::record::Record;
use crate::records_node::RecordsNode;
use crate::running::run;
use crate::writing::{put_end, put_record};
use fc_base::{Fault, JobNo, MAX_BLOCK_SIZE, MAX_JOBS, ServerNo};
use server_core::{Server, WriteEnd};
use std::alloc::{AllocError, Global};
use std::io;
use std::io::{BufReader, Read, Write};

/// Serves as the server with this number, until the input ends, and answers the exit status: 0, or 2 where it
/// can't go on, which the last record says.
///
/// The first record is the note, and the first save the next boot. What comes behind it is answered record by
/// record, each by records of which the last is an end. They are flushed before the next record is waited for.
/// Behind each record that isn't refused all writes are ordered that can be, and the blocks wanted of each
/// check that may begin. An error is that of a write.
pub fn run_server<R: Read, W: Write>(
    alloc: Global,
    me: ServerNo,
    reader: &mut BufReader<R>,
    writer: &mut W,
) -> io::Result<u8>
    requires { me < MAX_SERVERS }
    ensures ok { IfSome (reader_remaining R.remaining reader.old) (λ input. IfOk result
        (Runs (server_filter me) input (Appends (W.contents writer.old) (W.contents writer.new)))) }
    ensures err { IfSome (reader_remaining R.remaining reader.old) (λ input. OnErr result
        (Breaks (server_filter me) input (W.contents writer.old) (W.contents writer.new))) }
{
    run::<ServerFilter, R, W>(alloc, me, reader, writer)
}

/// A server, its checks that are under way, by job, and room for the bytes of a block.
#[derive(Drop)]
pub(crate) struct ServerFilter {
    alloc: Global,
    server: Server<NoteBuffer>,
    checks: Vec<Option<Checking>>,
    memory: Vec<u8>,
    ghost whole: { length memory.items ≡ BLOCK_SIZE },
    ghost wide: { length checks.items ≡ JOBS },
}

/// Room for the bytes of any block.
fn room_for_a_block(alloc: Global) -> Result<Vec<u8>, AllocError>
    ensures { IfOk result (λ memory. length memory.items ≡ BLOCK_SIZE) }
{
    vec![in alloc; 0; MAX_BLOCK_SIZE as usize]
}

impl RecordsNode for ServerFilter {
    ghost use Rattle.filters.specs.CheckRuns.{IsHere};

    type Begin = ServerNo;

    ghost Opening = { ServerOpening };

    ghost Moment = { ServerAt };

    ghost Said = { ServerNote };

    ghost filter = { server_filter };

    ghost MayBegin = { λ me. me < MAX_SERVERS };

    ghost StandsAt = { IsHere };

    ghost answered = { λ me filter.
        save_bytes true (note_in note_kept filter.server).bytes ++ end_bytes (Ok tt) };

    /// The next boot is saved.
    fn open(alloc: Global, me: ServerNo, note: Vec<u8>) -> Result<ServerFilter, Fault> {
        let Ok(memory) = room_for_a_block(alloc) else {
            return Err(Fault::NoMemory);
        };
        let Ok(checks) = ServerFilter::no_checks(alloc) else {
            return Err(Fault::NoMemory);
        };
        match Server::restart(alloc, me, NoteBuffer::new(note)) {
            Ok(server) => Ok(ServerFilter {
                alloc,
                server,
                checks,
                memory,
            }),
            Err((_, fault)) => Err(fault),
        }
    }

    fn answer_note<W: Output>(&self, _me: ServerNo, writer: &mut W) {
        self.save(writer);
        put_end(writer, Ok(()))
    }

    fn answer_record<W: Output>(&mut self, came: &Record, writer: &mut W) {
        self.answer(came, writer)
    }
}

impl ServerFilter {
    ghost use Rattle.filters.specs.CheckRuns.{AreChecks, IsHere};
    ghost use Rattle.filters.specs.ServerRuns.{TurnsTo, WritesAnswer};

    /// No check of any job.
    fn no_checks(alloc: Global) -> Result<Vec<Option<Checking>>, AllocError>
        ensures wide { IfOk result (λ checks. length checks.items ≡ JOBS) }
        ensures none { IfOk result (λ checks. AreChecks checks.items none_under_way) }
    {
        let mut checks = Vec::with_capacity(alloc, MAX_JOBS as usize)?;
        for _ in 0..MAX_JOBS {
            checks.push(None)?;
        }
        Ok(checks)
    }

    /// Writes the note that was saved.
    fn save<W: Output>(&self, writer: &mut W)
        ensures { Puts (W.written writer.old) (W.written writer.new)
            (save_bytes true (note_in note_kept self.now.server).bytes) }
    {
        put_record(writer, OutRecordKind::Save, self.server.notes().as_slice())
    }

    /// Answers a record.
    fn answer<W: Output>(&mut self, came: &Record, writer: &mut W)
        ensures { AnswersRecord ServerTakes (IsHere self.old) (IsHere self.new) (parts_of came.now)
            (W.written writer.old) (W.written writer.new) }
    {
        let body = came.body.as_slice();
        match InRecordKind::numbered(came.kind) {
            Some(kind) => self.answer_kind(kind, body, writer),
            None => put_end(writer, Err(Fault::BadNotice)),
        }
    }

    /// Answers a record of this kind.
    fn answer_kind<W: Output>(&mut self, kind: InRecordKind, body: &[u8], writer: &mut W)
        ensures { AnswersBy (λ opening at now answer.
            TakesKind opening at (Some kind) body.now now answer)
            (IsHere self.old) (IsHere self.new) (W.written writer.old) (W.written writer.new) }
    {
        match kind {
            InRecordKind::Frame => {
                let answer = self.deliver(body);
                self.write_answer(answer, writer)
            }
            InRecordKind::Done => {
                let answer = self.end_write(write_name(body), WriteEnd::Done);
                self.write_answer(answer, writer)
            }
            InRecordKind::Failed => {
                let answer = self.end_write(write_name(body), WriteEnd::Failed);
                self.write_answer(answer, writer)
            }
            InRecordKind::Blocks => self.answer_blocks(body, writer),
            InRecordKind::Unread => self.answer_unread(body, writer),
            _ => put_end(writer, Err(Fault::BadNotice)),
        }
    }

    /// Writes an answer and what follows from it, or why there is none.
    fn write_answer<W: Output>(&mut self, answer: Result<NodeStep, Fault>, writer: &mut W)
        ensures { WritesAnswer answer self.old self.new
            (W.written writer.old) (W.written writer.new) }
    {
        match answer {
            Ok(answered) => {
                self.put_answered(&answered, writer);
                self.go_on(writer);
                put_end(writer, Ok(()));
            }
            Err(fault) => put_end(writer, Err(fault)),
        }
    }

    /// Answers blocks that a check wants: by those that it wants behind them, or by what its report makes of it.
    fn answer_blocks<W: Output>(&mut self, body: &[u8], writer: &mut W)
        ensures { AnswersBy (λ opening at now answer.
            TakesCheck (Feeds opening at body.now) opening now answer)
            (IsHere self.old) (IsHere self.new) (W.written writer.old) (W.written writer.new) }
    {
        let answer = self.blocks(body, writer);
        self.write_end(answer, writer)
    }

    /// Answers that a block couldn't be read.
    fn answer_unread<W: Output>(&mut self, body: &[u8], writer: &mut W)
        ensures { AnswersBy (λ opening at now answer.
            TakesCheck (GivesUp opening at body.now) opening now answer)
            (IsHere self.old) (IsHere self.new) (W.written writer.old) (W.written writer.new) }
    {
        let answer = self.unread(body, writer);
        self.write_end(answer, writer)
    }

    /// Writes what follows from what was told of a check, and the end.
    fn write_end<W: Output>(&mut self, answer: Result<(), Fault>, writer: &mut W)
        ensures { AnswersBy (λ opening at now written. EndsBy answer opening at [] now written)
            (IsHere self.old) (IsHere self.new) (W.written writer.old) (W.written writer.new) }
    {
        match answer {
            Ok(()) => {
                self.go_on(writer);
                put_end(writer, Ok(()));
            }
            Err(fault) => put_end(writer, Err(fault)),
        }
    }

    /// Orders all writes that can be, and wants the blocks of each check that may begin.
    fn go_on<W: Output>(&mut self, writer: &mut W)
        ensures { AnswersBy (TurnsTo (λ opening at now. AreAllGiven opening now.list))
            (IsHere self.old) (IsHere self.new) (W.written writer.old) (W.written writer.new) }
    {
        for job in 0..MAX_JOBS {
            self.order_all(JobNo(job), writer);
        }
        for job in 0..MAX_JOBS {
            self.begin_check(JobNo(job), writer);
        }
    }
}
