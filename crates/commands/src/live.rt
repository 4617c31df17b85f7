//! `fiocut live`: a writing and a reading text in, the reports of a run by threads out.

ghost use Rattle.std.specs.Prelude.{◌≡◌, ◌+◌, IfOk, IfErr, IfSome};
ghost use Rattle.program_io.specs.Input.{HasRead};
ghost use Rattle.job_file.specs.declared.job.Phase.TheVariants.{Write as Writes, Read as Reads};
ghost use Rattle.commands.specs.Command.{IsFleetSize};
ghost use Rattle.commands.specs.Live.{IsSound, IsUnfit, IsRefusedFor, IsLiveRefusal, RunsTexts, AnswersLive, of_fleet};

use crate::command::FleetSize;
use crate::ends::{status_of, write_ends};
use crate::texts::texts_of;
use fc_base::{Fault, MAX_TEXT};
use job_file::{Phase, parse};
use node_threads::{CheckEnd, FleetFault, OpenGate, Trigger, run_fleet};
use program_io::{PrintedRefusal, REFUSED, read_input, read_law, write_refusal};
use std::alloc::Global;
use std::io;
use std::io::{Read, Write};
use std::sync::Wait;
use std::thread::Threads;

/// The exit status where no report has faults.
pub(crate) const PRINTED: u8 = 0;

/// The exit status where a report has faults.
pub(crate) const FAULTY: u8 = 1;

/// The most bytes of an input: two texts and the line between them.
pub const MAX_INPUT: usize = 2 * MAX_TEXT + 2;

/// The most calls of `read`.
const MAX_READS: u32 = 40_000;

/// Reads the writing text, a line that is a dot, and the reading text (empty without that line), has a
/// fleet run them over memory until the trigger is pulled or all writes are done, and prints what its
/// checks report: for each server and job `report S J` and the words of the report, or
/// `refused S J 67 Misfit` where the job isn't the one that wrote; and then `assembled`, since all that has
/// happened is one list of events. Answers the exit status: 0; 1 where a report has faults; 2 where a
/// state doesn't fit, and for every refusal.
///
/// Faults are found in this order, and printed as `refused CODE NAME` with the line or job where the
/// fault has one: the input can't be read (`ReadError`; `NoMemory`) or is longer than 32,770 bytes
/// (`TooLong`), the writing text, the reading text (`WrongPhase` where its jobs do the other), the run.
///
/// An error is that of a write: nothing is written after it.
pub fn run_live<H: Threads + Wait + Sync, T: Trigger, R: Read, W: Write>(
    rt: &H,
    alloc: Global,
    size: FleetSize,
    trigger: &mut T,
    reader: &mut R,
    writer: &mut W,
) -> io::Result<u8>
    requires { IsFleetSize size }
    ensures answer { IfSome (R.remaining reader.old) (λ input. IfOk result
        (AnswersLive size.servers input (W.contents writer.old) (W.contents writer.new))) }
    ensures read { HasRead (MAX_INPUT + 1) (R.remaining reader.old) (R.remaining reader.new) }
{
    match ends_of_input(rt, alloc, size, trigger, reader) {
        Ok(ends) => {
            write_ends(writer, &ends)?;
            Ok(status_of(&ends))
        }
        Err(refusal) => {
            write_refusal(writer, refusal)?;
            Ok(REFUSED)
        }
    }
}

/// What comes of each job of the texts of an input, or why it isn't run.
fn ends_of_input<H: Threads + Wait + Sync, T: Trigger, R: Read>(
    rt: &H,
    alloc: Global,
    size: FleetSize,
    trigger: &mut T,
    reader: &mut R,
) -> Result<Vec<CheckEnd>, PrintedRefusal>
    requires { IsFleetSize size }
    ensures runs { IfSome (R.remaining reader.old)
        (λ input. IfOk result (λ ends. RunsTexts size.servers input ends.items)) }
    ensures refused { IfSome (R.remaining reader.old)
        (λ input. IfErr result (IsLiveRefusal input)) }
    ensures read { HasRead (MAX_INPUT + 1) (R.remaining reader.old) (R.remaining reader.new) }
{
    read_law();
    let input = read_input(alloc, reader, MAX_INPUT + 1, MAX_READS)?;
    ends_of_texts(rt, alloc, size, trigger, &input)
}

/// What comes of each job of these texts.
fn ends_of_texts<H: Threads + Wait + Sync, T: Trigger>(
    rt: &H,
    alloc: Global,
    size: FleetSize,
    trigger: &mut T,
    input: &[u8],
) -> Result<Vec<CheckEnd>, PrintedRefusal>
    requires { IsFleetSize size }
    ensures runs { IfOk result (λ ends. RunsTexts size.servers input.now ends.items) }
    ensures refused { IfErr result (IsLiveRefusal input.now) }
{
    if input.len() > MAX_INPUT {
        return Err(PrintedRefusal::from(Fault::JobTooLong));
    }
    let texts = texts_of(input);
    let (writing, reading) = (texts.writing, texts.reading);
    check_texts(alloc, writing, reading)?;
    let FleetSize { servers, workers } = size;
    match run_fleet(
        rt, alloc, servers, workers, writing, reading, trigger, &OpenGate,
    ) {
        Ok(ends) => Ok(ends),
        Err(fault) => Err(refusal_of_fleet(fault)),
    }
}

/// Why a fleet ended with a fault.
fn refusal_of_fleet(fault: FleetFault) -> PrintedRefusal
    ensures { result ≡ of_fleet fault }
{
    match fault {
        FleetFault::Refused(fault) => PrintedRefusal::from(fault),
        _ => PrintedRefusal::from(Fault::Unlike),
    }
}

/// Refuses two texts of which one isn't taken, for the first that isn't.
fn check_texts(alloc: Global, writing: &[u8], reading: &[u8]) -> Result<(), PrintedRefusal>
    ensures sound { IfOk result (λ _. IsSound Writes writing.now × IsSound Reads reading.now) }
    ensures refused { IfErr result (IsRefusedFor writing.now reading.now) }
{
    check_text(alloc, writing, Phase::Write)?;
    check_text(alloc, reading, Phase::Read)
}

/// Refuses a text that has a fault, or whose jobs do the other.
fn check_text(alloc: Global, text: &[u8], phase: Phase) -> Result<(), PrintedRefusal>
    ensures sound { IfOk result (λ _. IsSound phase text.now) }
    ensures unfit { IfErr result (IsUnfit phase text.now) }
{
    let set = parse(alloc, text)?;
    if set.phase == phase {
        Ok(())
    } else {
        Err(PrintedRefusal::from(Fault::WrongPhase))
    }
}
