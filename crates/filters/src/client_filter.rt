//! The client as a filter.

ghost use Rattle.std.specs.Prelude.{◌≤◌, ◌++◌, Some, Ok, IfOk, OnErr, IfSome};
ghost use Rattle.std.specs.Io.Buffered.{reader_remaining};
ghost use Rattle.std.specs.Io.KnownBytes.{Appends};
ghost use Rattle.fc_base.specs.declared.limits.TheConstants.{MAX_SERVERS};
ghost use Rattle.client_core.specs.declared.note.ClientNote.{ClientNote};
ghost use Rattle.client_core.specs.History.{Opening as ClientOpening};
ghost use Rattle.client_core.specs.FrameEnds.{note_in};
ghost use Rattle.filters.specs.Written.{Puts};
ghost use Rattle.filters.specs.Kept.{note_kept};
ghost use Rattle.filters.specs.Lives.{Breaks, Runs};
ghost use Rattle.filters.specs.Records.{end_bytes};
ghost use Rattle.filters.specs.Steps.{AnswersBy, AnswersRecord, parts_of};
ghost use Rattle.filters.specs.NodeTells.{save_bytes};
ghost use Rattle.filters.specs.ClientLives.{ClientAt, ClientTakes, TakesKind, client_filter, is_renewal};
ghost use Rattle.filters.specs.ClientRuns.{FilterIsAt};

mod asks;
mod begins;
mod ends;
mod tells;

use crate::beginning::Beginning;
use crate::kinds::InRecordKind;
use crate::note_buffer::NoteBuffer;
use crate::output::Output;
use crate::record::Record;
use crate::records_node::RecordsNode;
use crate::running::run;
use crate::writing::{put_end, put_save};
use attempt_ends::Attempts;
use begins::open;
use client_core::Client;
use fc_base::Fault;
use std::alloc::Global;
use std::io;
use std::io::{BufReader, Read, Write};

/// Serves as the client of so many servers, which begins so, until the input ends, and answers the exit
/// status: 0, or 2 where it can't go on, which the last record says.
///
/// The first record is the note, and the first save the note of a client that begins anew. What comes behind
/// it is answered record by record, each by records of which the last is an end. They are flushed before the
/// next record is waited for. An error is that of a write.
pub fn run_client<R: Read, W: Write>(
    alloc: Global,
    servers: u32,
    beginning: Beginning,
    reader: &mut BufReader<R>,
    writer: &mut W,
) -> io::Result<u8>
    requires some { 1 ≤ servers }
    requires few { servers ≤ MAX_SERVERS }
    ensures ok { IfSome (reader_remaining R.remaining reader.old) (λ input. IfOk result
        (Runs (client_filter beginning servers) input (Appends (W.contents writer.old) (W.contents writer.new)))) }
    ensures err { IfSome (reader_remaining R.remaining reader.old) (λ input. OnErr result
        (Breaks (client_filter beginning servers) input (W.contents writer.old) (W.contents writer.new))) }
{
    run::<ClientFilter, R, W>(alloc, ClientBegin { servers, beginning }, reader, writer)
}

/// The client of so many servers, which begins so.
#[derive(Clone, Copy)]
pub(crate) struct ClientBegin {
    servers: u32,
    beginning: Beginning,
}

/// The client over its note, of so many servers, and the attempts of its life.
#[derive(Drop)]
pub(crate) struct ClientFilter {
    alloc: Global,
    servers: u32,
    client: Client<NoteBuffer>,
    attempts: Attempts,
}

impl RecordsNode for ClientFilter {
    type Begin = ClientBegin;

    ghost Opening = { ClientOpening };

    ghost Moment = { ClientAt };

    ghost Said = { ClientNote };

    ghost filter = { λ begin. client_filter begin.beginning begin.servers };

    ghost MayBegin = { λ begin. (1 ≤ begin.servers) × (begin.servers ≤ MAX_SERVERS) };

    ghost StandsAt = { FilterIsAt };

    ghost answered = { λ begin filter.
        save_bytes (is_renewal begin.beginning) (note_in note_kept filter.client).bytes
        ++ end_bytes (Ok tt) };

    fn open(alloc: Global, begin: ClientBegin, note: Vec<u8>) -> Result<ClientFilter, Fault> {
        let ClientBegin { servers, beginning } = begin;
        match open(alloc, servers, &beginning, note) {
            Ok(client) => Ok(ClientFilter {
                alloc,
                servers,
                client,
                attempts: Attempts::new(alloc),
            }),
            Err(fault) => Err(fault),
        }
    }

    fn answer_note<W: Output>(&self, begin: ClientBegin, writer: &mut W) {
        self.put_opening(&begin.beginning, writer)
    }

    fn answer_record<W: Output>(&mut self, came: &Record, writer: &mut W) {
        self.answer(came, writer)
    }
}

impl ClientFilter {
    /// Writes the answer to the note: what is saved as the client begins, and the end.
    #[tactic(auto, using(crate::proofs::OutputLemmas::puts_both))]
    fn put_opening<W: Output>(&self, beginning: &Beginning, writer: &mut W)
        ensures { Puts (W.written writer.old) (W.written writer.new)
            (save_bytes (is_renewal beginning.now) (note_in note_kept self.now.client).bytes
            ++ end_bytes (Ok tt)) }
    {
        put_save(writer, beginning.saves(), self.client.notes().as_slice());
        put_end(writer, Ok(()));
    }

    /// Answers a record.
    fn answer<W: Output>(&mut self, came: &Record, writer: &mut W)
        ensures { AnswersRecord ClientTakes (FilterIsAt self.old) (FilterIsAt self.new)
            (parts_of came.now) (W.written writer.old) (W.written writer.new) }
    {
        let body = came.body.as_slice();
        match InRecordKind::numbered(came.kind) {
            Some(kind) => self.answer_kind(kind, body, writer),
            None => put_end(writer, Err(Fault::BadNotice)),
        }
    }

    /// Answers a record of this kind.
    fn answer_kind<W: Output>(&mut self, kind: InRecordKind, body: &[u8], writer: &mut W)
        ensures { AnswersBy (λ opening at now answer.
            TakesKind opening at (Some kind) body.now now answer)
            (FilterIsAt self.old) (FilterIsAt self.new)
            (W.written writer.old) (W.written writer.new) }
    {
        match kind {
            InRecordKind::Look => self.look(body, writer),
            InRecordKind::Show => self.show(body, writer),
            InRecordKind::Ends => self.tell_ends(body, writer),
            _ => self.answer_body(kind, body, writer),
        }
    }
}
