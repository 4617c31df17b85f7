//! A job whose writes are carried out elsewhere.

ghost use Rattle.std.specs.Prelude.{◌≡◌, ◌<◌, ◌≤◌, [], List, None, true, false, length, OnOk, IfOk, IfSome, IsTrue};
ghost use Rattle.std.specs.Io.Buffered.{reader_remaining};
ghost use Rattle.fc_base.specs.Keys.{is_key};
ghost use Rattle.engine.specs.History.{Event, done, fail};
ghost use Rattle.engine.specs.Running.{Origin, StandsFor};
ghost use Rattle.targets.specs.Runs.{Runs};
ghost use Rattle.targets.specs.Writing.{ReadsNotice, OrdersAll, steps_left, Ends, FollowsBy, Steps, RunsOn};

use crate::notice::{NOTICE, Notice, notice_in};
use crate::order::put_order_behind;
use engine::{Engine, Issue};
use fc_base::{Fault, JobRecord, Key, Seq};
use program_io::fill;
use std::alloc::{AllocError, Global};
use std::io;
use std::io::{BufReader, Read, Write};
use verify_state::VerifyState;

/// The boot of whoever writes: none of its tickets is handed out.
const BOOT: u64 = 0;

/// The most calls of `read` for a notice.
pub(crate) const MAX_READS: u32 = 1_000;

/// How a run ends.
#[derive(Clone, Copy, Debug)]
pub enum RunEnd {
    /// A take was told: the state of the job as of then.
    Taken(VerifyState),
    /// There is no state, for this fault.
    Refused(Fault),
}

/// Writes a job by orders, and hears of its writes by notices, until a take is told.
///
/// As many writes are ordered as the job's depth and window allow (fio's manual, "I/O depth"), and each as soon
/// as it can be: at the start, and behind each notice. The orders are flushed before the next notice is waited
/// for. A write that has failed stays in flight, and none is ordered behind it. No order follows a take, and its
/// state counts the writes that were told as done by then.
///
/// Refused are, without a state: a notice of a write that isn't open, a second one of one among them
/// ([`Fault::NotInFlight`]); 16 bytes that are no notice ([`Fault::BadNotice`]); the end of the input before a
/// take ([`Fault::EndOfInput`]), a failed read ([`Fault::ReadError`]), and want of memory before the first order
/// ([`Fault::NoMemory`]). The orders up to then are written. An error is that of a write.
pub fn write_blocks<R: Read, W: Write>(
    alloc: Global,
    key: Key,
    rec: &JobRecord,
    reader: &mut BufReader<R>,
    writer: &mut W,
) -> io::Result<RunEnd>
    requires { IsTrue (is_key key) }
    ensures { let origin : Origin = record { boot = 0; key = key; job = rec.now } in
        IfSome (reader_remaining R.remaining reader.old) (λ input. IfOk result
        (Runs origin input (W.contents writer.old) (W.contents writer.new))) }
{
    let Ok(mut writes) = Writes::new(alloc, key, rec) else {
        return Ok(RunEnd::Refused(Fault::NoMemory));
    };
    writes.order_all(writer, &[])?;
    writes.run(reader, writer)
}

/// The writes of a job, and room for the bytes of one.
#[derive(Drop)]
pub(crate) struct Writes {
    pub(crate) engine: Engine,
    rec: JobRecord,
    block: Vec<u8>,
    ghost of_job: { engine.origin.job ≡ rec },
    ghost goes_on: { engine.stopped ≡ false },
    ghost room: { length block.items ≡ rec.bs },
}

impl Writes {
    /// The writes of a job before the first.
    pub(crate) fn new(alloc: Global, key: Key, rec: &JobRecord) -> Result<Writes, AllocError>
        requires { IsTrue (is_key key) }
        ensures origin { let origin : Origin = record { boot = 0; key = key; job = rec.now } in
            IfOk result (λ made. made.engine.origin ≡ origin) }
        ensures history { IfOk result (λ made. StandsFor made.engine []) }
    {
        Ok(Writes {
            engine: Engine::new(alloc, BOOT, key, rec)?,
            rec: *rec,
            block: vec![in alloc; 0u8; rec.bs() as usize]?,
        })
    }

    /// Orders writes until none can be. Each order is written behind these bytes.
    pub(crate) fn order_all<W: Write>(&mut self, writer: &mut W, head: &[u8]) -> io::Result<()>
        ensures orders { (h : List Event) → StandsFor self.old.engine h → OnOk result
            (OrdersAll head.now self.old.engine.origin h self.new.engine (W.contents writer.old)
            (W.contents writer.new)) }
        ensures origin { self.new.engine.origin ≡ self.old.engine.origin }
        ensures left { steps_left self.new.engine ≤ steps_left self.old.engine }
    {
        while let Issue::Write(ticket) = self.engine.issue() {
            put_order_behind(writer, head, &self.rec, ticket, &mut self.block)?;
        }
        Ok(())
    }

    /// Hears of the writes until a take is told, or what is told is refused.
    fn run<R: Read, W: Write>(
        &mut self,
        reader: &mut BufReader<R>,
        writer: &mut W,
    ) -> io::Result<RunEnd>
        ensures { IfOk result (RunsOn self.old.engine (reader_remaining R.remaining reader.old)
            (W.contents writer.old) (W.contents writer.new)) }
    {
        loop {
            if let Some(end) = self.step(reader, writer)? {
                return Ok(end);
            }
        }
    }

    /// Hears of a write, and orders those that can be ordered then. An end of the run changes nothing.
    fn step<R: Read, W: Write>(
        &mut self,
        reader: &mut BufReader<R>,
        writer: &mut W,
    ) -> io::Result<Option<RunEnd>>
        ensures step { (h : List Event) → StandsFor self.old.engine h → IfOk result
            (Steps h self.old.engine self.new.engine
            (reader_remaining R.remaining reader.old) (reader_remaining R.remaining reader.new)
            (W.contents writer.old) (W.contents writer.new)) }
        ensures origin { self.new.engine.origin ≡ self.old.engine.origin }
        ensures less { IfOk result
            (λ end. end ≡ None → steps_left self.new.engine < steps_left self.old.engine) }
    {
        if reader.buffer().len() < NOTICE {
            writer.flush()?;
        }
        match next_notice(reader) {
            Ok(notice) => self.follow(notice, writer, &[]),
            Err(fault) => Ok(Some(RunEnd::Refused(fault))),
        }
    }

    /// Does what a notice says, and orders the writes that can be ordered then, each behind these bytes.
    pub(crate) fn follow<W: Write>(
        &mut self,
        notice: Notice,
        writer: &mut W,
        head: &[u8],
    ) -> io::Result<Option<RunEnd>>
        ensures step { (h : List Event) → StandsFor self.old.engine h → IfOk result
            (FollowsBy head.now notice h self.old.engine self.new.engine (W.contents writer.old)
            (W.contents writer.new)) }
        ensures origin { self.new.engine.origin ≡ self.old.engine.origin }
        ensures less { IfOk result
            (λ end. end ≡ None → steps_left self.new.engine < steps_left self.old.engine) }
    {
        let is_open = match notice {
            Notice::Done(seq) => self.done(seq),
            Notice::Failed(seq) => self.failed(seq),
            Notice::Take => return Ok(Some(RunEnd::Taken(self.engine.take()))),
        };
        if !is_open {
            return Ok(Some(RunEnd::Refused(Fault::NotInFlight)));
        }
        self.order_all(writer, head)?;
        Ok(None)
    }

    /// Ends a write that is done, if it was open.
    fn done(&mut self, seq: Seq) -> bool
        ensures ends { (h : List Event) → StandsFor self.old.engine h →
            Ends (done seq) seq h self.new.engine result }
        ensures origin { self.new.engine.origin ≡ self.old.engine.origin }
        ensures less { result ≡ true → steps_left self.new.engine < steps_left self.old.engine }
    {
        match self.engine.open_write(seq) {
            Some(ticket) => self.engine.done(ticket).is_ok(),
            None => false,
        }
    }

    /// Ends a write that has failed, if it was open.
    fn failed(&mut self, seq: Seq) -> bool
        ensures ends { (h : List Event) → StandsFor self.old.engine h →
            Ends (fail seq) seq h self.new.engine result }
        ensures origin { self.new.engine.origin ≡ self.old.engine.origin }
        ensures less { result ≡ true → steps_left self.new.engine < steps_left self.old.engine }
    {
        match self.engine.open_write(seq) {
            Some(ticket) => self.engine.failed(ticket).is_ok(),
            None => false,
        }
    }
}

/// Reads the next notice.
fn next_notice<R: Read>(reader: &mut R) -> Result<Notice, Fault>
    ensures { ReadsNotice (R.remaining reader.old) (R.remaining reader.new) result }
{
    let mut bytes = [0; NOTICE];
    match fill(reader, &mut bytes, MAX_READS) {
        Ok(NOTICE) => notice_in(&bytes).ok_or(Fault::BadNotice),
        Ok(_) => Err(Fault::EndOfInput),
        Err(_) => Err(Fault::ReadError),
    }
}
