//! The frames that come to a server, and its writes.

ghost use Rattle.std.specs.Prelude.{◌≡◌, List, None, length};
ghost use Rattle.filters.specs.Written.{Puts};
ghost use Rattle.fc_base.specs.declared.limits.TheConstants.{MAX_BLOCK_SIZE};
ghost use Rattle.engine.specs.Answers.{is_write};
ghost use Rattle.messages.specs.FrameBytes.{frame_at, frame_faults};
ghost use Rattle.server_core.specs.declared.input.Input.TheVariants.{Deliver, WriteDone};
ghost use Rattle.server_core.specs.History.{Opening};
ghost use Rattle.server_core.specs.Hearing.{FrameEntry};
ghost use Rattle.server_core.specs.FrameEnds.{StandsFor, note_in, steps};
ghost use Rattle.filters.specs.Kept.{note_kept};
ghost use Rattle.filters.specs.NodeSteps.{InputEnds, BodyEnds};
ghost use Rattle.filters.specs.NodeTells.{answer_bytes};
ghost use Rattle.filters.specs.ServerAt.{answer_to};
ghost use Rattle.filters.specs.ServerOrders.{GivesNone};
ghost use Rattle.filters.specs.ServerTurns.{order_bytes, order_if, order_name};
ghost use Rattle.filters.specs.ServerLives.{frame_in, end_in};
ghost use Rattle.filters.specs.ServerRuns.{Asked, TurnsTo};
ghost use Rattle.filters.specs.CheckRuns.{IsHere};
ghost use Rattle.filters.specs.Steps.{AnswersBy};

use super::ServerFilter;
use crate::kinds::OutRecordKind;
use crate::names::WriteName;
use crate::node_step::{NodeStep, put_answer};
use crate::output::Output;
use crate::writing::{put_head, put_u32, put_u64};
use engine::{Issue, Ticket};
use fc_base::{Fault, JobNo, JobRecord, MAX_WRITES};
use messages::{Frame, decode_frame};
use server_core::{Input, Outs, WriteEnd, looks_at_all};
use write_order::fill_block;

/// How often a job is asked for a write at the most: it gives no more than it has, and then none.
const MOST_ASKED: u64 = MAX_WRITES + 1;

/// What a server answers that has saved its note, or not, and hands this out.
pub(super) fn answered(saves: bool, outs: Outs) -> NodeStep
    ensures saves { result.saves ≡ saves }
    ensures number { result.number ≡ None }
    ensures frames { result.frames ≡ outs.frames }
    ensures act { result.act ≡ outs.act }
{
    NodeStep {
        saves,
        number: None,
        frames: outs.frames,
        act: outs.act,
    }
}

impl ServerFilter {
    /// Takes the frame that these bytes are.
    pub(super) fn deliver(&mut self, bytes: &[u8]) -> Result<NodeStep, Fault>
        ensures ends { (opening : Opening) (past : List FrameEntry) →
            StandsFor note_kept self.old.server opening past →
            BodyEnds (steps note_kept opening) (answer_to opening past) past
            (frame_in (frame_faults bytes.now) (frame_at bytes.now))
            self.old.server self.new.server result }
        ensures checks { self.new.checks ≡ self.old.checks }
    {
        match decode_frame(self.alloc, bytes) {
            Ok(frame) => self.take(frame),
            Err(fault) => Err(fault),
        }
    }

    /// Takes a frame.
    #[tactic(auto, using(crate::proofs::NodeLemmas::not_taken))]
    fn take(&mut self, frame: Frame) -> Result<NodeStep, Fault>
        ensures ends { (opening : Opening) (past : List FrameEntry) →
            StandsFor note_kept self.old.server opening past →
            InputEnds (steps note_kept opening) (answer_to opening past) past
            (Deliver frame) self.old.server self.new.server result }
        ensures checks { self.new.checks ≡ self.old.checks }
    {
        let saves = self.server.would_save(&frame);
        let outs = self.server.step(Input::Deliver(frame))?;
        Ok(answered(saves, outs))
    }

    /// Takes the end of a write of the present run.
    pub(super) fn end_write(
        &mut self,
        name: Option<WriteName>,
        end: WriteEnd,
    ) -> Result<NodeStep, Fault>
        ensures ends { (opening : Opening) (past : List FrameEntry) →
            StandsFor note_kept self.old.server opening past →
            BodyEnds (steps note_kept opening) (answer_to opening past) past
            (end_in opening past end name) self.old.server self.new.server result }
        ensures checks { self.new.checks ≡ self.old.checks }
    {
        let Some(WriteName { run, job, seq }) = name else {
            return Err(Fault::BadNotice);
        };
        match self.server.open_write(job, seq) {
            Some(ticket) => {
                if ticket.key.run == run {
                    self.end_open(ticket, end)
                } else {
                    Err(Fault::NotInFlight)
                }
            }
            None => Err(Fault::NotInFlight),
        }
    }

    /// Takes the end of an open write.
    #[tactic(auto, using(crate::proofs::NodeLemmas::not_taken))]
    fn end_open(&mut self, ticket: Ticket, end: WriteEnd) -> Result<NodeStep, Fault>
        ensures ends { (opening : Opening) (past : List FrameEntry) →
            StandsFor note_kept self.old.server opening past →
            InputEnds (steps note_kept opening) (answer_to opening past) past
            (WriteDone ticket end) self.old.server self.new.server result }
        ensures checks { self.new.checks ≡ self.old.checks }
    {
        let outs = self.server.step(Input::WriteDone(ticket, end))?;
        Ok(answered(false, outs))
    }

    /// Writes what is answered.
    pub(super) fn put_answered<W: Output>(&self, answered: &NodeStep, writer: &mut W)
        ensures { Puts (W.written writer.old) (W.written writer.new)
            (answer_bytes (note_in note_kept self.now.server).bytes answered.now) }
    {
        put_answer(writer, self.server.notes().as_slice(), answered)
    }

    /// Orders the writes of a job until none can be.
    pub(super) fn order_all<W: Output>(&mut self, job: JobNo, writer: &mut W)
        ensures { AnswersBy (TurnsTo (λ opening at now. GivesNone opening now.list job))
            (IsHere self.old) (IsHere self.new)
            (W.written writer.old) (W.written writer.new) }
    {
        for _ in 0..MOST_ASKED {
            let more = self.order_next(job, writer);
            if !more {
                return;
            }
        }
    }

    /// Orders the next write of a job, and answers whether there was one.
    fn order_next<W: Output>(&mut self, job: JobNo, writer: &mut W) -> bool
        ensures { AnswersBy (TurnsTo (Asked job result))
            (IsHere self.old) (IsHere self.new)
            (W.written writer.old) (W.written writer.new) }
    {
        looks_at_all();
        let Some(found) = self.server.run_job(job) else {
            return false;
        };
        let rec = found.rec;
        let _in_range = rec.total();
        match self.server.issue(job) {
            Ok(issue) => put_issue(writer, &rec, issue, &mut self.memory),
            Err(_) => false,
        }
    }
}

/// Writes the order of a write, if that is what was answered, and answers whether it was.
fn put_issue<W: Output>(writer: &mut W, rec: &JobRecord, issue: Issue, memory: &mut [u8]) -> bool
    requires { length memory.old ≡ MAX_BLOCK_SIZE }
    ensures room { length memory.new ≡ MAX_BLOCK_SIZE }
    ensures order { Puts (W.written writer.old) (W.written writer.new)
        (order_if issue rec.now) }
    ensures more { result ≡ is_write issue }
{
    match issue {
        Issue::Write(ticket) => {
            put_order(writer, rec, &ticket, memory);
            true
        }
        _ => false,
    }
}

/// Writes the order of a write, by way of room for the bytes of a block.
#[tactic(auto, using(crate::proofs::OutputLemmas::puts_both))]
fn put_order<W: Output>(writer: &mut W, rec: &JobRecord, ticket: &Ticket, memory: &mut [u8])
    requires { length memory.old ≡ MAX_BLOCK_SIZE }
    ensures room { length memory.new ≡ MAX_BLOCK_SIZE }
    ensures order { Puts (W.written writer.old) (W.written writer.new)
        (order_bytes ticket.now rec.now) }
{
    let bytes = &mut memory[..rec.bs() as usize];
    fill_block(ticket.key, rec, ticket.seq, ticket.block, bytes);
    put_head(writer, OutRecordKind::Order, 24 + bytes.len() as u64);
    put_order_name(writer, ticket);
    writer.put(bytes);
}

/// Writes which write is ordered, and to which block.
#[tactic(auto, using(crate::proofs::OutputLemmas::puts_both))]
fn put_order_name<W: Output>(writer: &mut W, ticket: &Ticket)
    ensures { Puts (W.written writer.old) (W.written writer.new)
        (order_name ticket.now.key ticket.now.seq ticket.now.block) }
{
    put_u64(writer, ticket.key.run.0);
    put_u32(writer, ticket.key.job.0);
    put_u64(writer, ticket.seq.0);
    put_u32(writer, ticket.block)
}
