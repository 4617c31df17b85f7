//! `drive write`: a job file and what becomes of its writes in, their orders and a verify state out.

ghost use Rattle.std.specs.Prelude.{◌≡◌, [], IfOk, IfSome, IsTrue};
ghost use Rattle.std.specs.Io.Buffered.{reader_remaining};
ghost use Rattle.fc_base.specs.Keys.{is_key};
ghost use Rattle.engine.specs.Running.{Origin};
ghost use Rattle.targets.specs.Jobs.{key_of, FinishesRun, Refuses, RunsRest, WritesJob};

use crate::job_setup::{key_of, read_job};
use crate::writing::{RunEnd, write_blocks};
use fc_base::{Fault, JobNo, JobRecord, Key, RunNo};
use job_file::Phase;
use program_io::{PrintedRefusal, REFUSED, write_refusal};
use std::alloc::Global;
use std::io;
use std::io::{BufReader, Read, Write};
use verify_state::VerifyState;

/// The exit status where a state was taken.
const TAKEN: u8 = 0;

/// How many bytes a state has.
const STATE: usize = 136;

/// Reads a job file behind its length, four bytes, and writes its job of this number as [`write_blocks`] does, by what
/// the reader tells behind the text. The state is written behind the orders, as its 136 bytes, and the status is 0. A
/// state doesn't begin as an order does: the first byte of an order is 0.
///
/// A refusal is written as a line, `refused CODE NAME` with the line or the job where the fault has one, and the
/// status is 2: before the first order where the job file doesn't come whole ([`Fault::EndOfInput`]) or can't be read
/// ([`Fault::ReadError`]), has a fault, has no such job ([`Fault::NoJob`]) or one that reads ([`Fault::WrongPhase`]);
/// behind the orders where the run is refused. An error is that of a write.
pub fn write_job<R: Read, W: Write>(
    alloc: Global,
    run: RunNo,
    job: JobNo,
    reader: &mut BufReader<R>,
    writer: &mut W,
) -> io::Result<u8>
    requires { IsTrue (is_key (key_of run job)) }
    ensures { IfSome (reader_remaining R.remaining reader.old) (λ input. IfOk result
        (WritesJob run job input (W.contents writer.old) (W.contents writer.new))) }
{
    match read_job(alloc, reader, job) {
        Ok(asked) => match asked.phase {
            Phase::Write => run_job(alloc, key_of(run, job), &asked.rec, reader, writer),
            Phase::Read => refuse(writer, PrintedRefusal::from(Fault::WrongPhase)),
        },
        Err(refusal) => refuse(writer, refusal),
    }
}

/// Writes a job, and the state that is taken of it.
fn run_job<R: Read, W: Write>(
    alloc: Global,
    key: Key,
    rec: &JobRecord,
    reader: &mut BufReader<R>,
    writer: &mut W,
) -> io::Result<u8>
    requires { IsTrue (is_key key) }
    ensures { let origin : Origin = record { boot = 0; key = key; job = rec.now } in
        IfSome (reader_remaining R.remaining reader.old) (λ rest. IfOk result
        (RunsRest origin rest (W.contents writer.old) (W.contents writer.new))) }
{
    let Ok(bytes) = Vec::with_capacity(alloc, STATE) else {
        return refuse(writer, PrintedRefusal::from(Fault::NoMemory));
    };
    match write_blocks(alloc, key, rec, reader, writer)? {
        RunEnd::Taken(state) => write_state(writer, &state, bytes),
        RunEnd::Refused(fault) => refuse(writer, PrintedRefusal::from(fault)),
    }
}

/// Writes a state, by way of these bytes, which are empty and have room for it.
fn write_state<W: Write>(writer: &mut W, state: &VerifyState, mut bytes: Vec<u8>) -> io::Result<u8>
    requires { bytes.items ≡ [] }
    ensures { IfOk result
        (FinishesRun (RunEnd.Taken state.now) (W.contents writer.old) (W.contents writer.new)) }
{
    if state.push_to(&mut bytes).is_err() {
        return refuse(writer, PrintedRefusal::from(Fault::NoMemory));
    }
    writer.write_all(&bytes)?;
    writer.flush()?;
    Ok(TAKEN)
}

/// Writes the line of a refusal, and answers its exit status.
pub fn refuse<W: Write>(writer: &mut W, refusal: PrintedRefusal) -> io::Result<u8>
    ensures { IfOk result (Refuses refusal (W.contents writer.old) (W.contents writer.new)) }
{
    write_refusal(writer, refusal)?;
    Ok(REFUSED)
}
