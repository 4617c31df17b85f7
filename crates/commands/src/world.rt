//! `fiocut world`: a script in, what comes of it out.

ghost use Rattle.std.specs.Prelude.{IfOk, IfSome};
ghost use Rattle.std.specs.Io.Buffered.{writer_contents};
ghost use Rattle.commands.specs.World.{AnswersScript, RefusesScript, RefusesUnread};

use fc_base::Fault;
use net_script::{ScriptFault, run_script};
use program_io::{PrintedRefusal, REFUSED, write_refusal};
use std::alloc::Global;
use std::io;
use std::io::{BufWriter, ErrorKind, Read, Write};

/// Runs a script as `run_world` does. Its lines go out in blocks, as these are full. Gives back the
/// writer, too, to which all of them are written.
pub fn run_in_blocks<R: Read, W: Write + Drop>(
    alloc: Global,
    reader: &mut R,
    mut blocks: BufWriter<W>,
) -> io::Result<(u8, W)>
    ensures { IfSome (R.remaining reader.old) (λ script. IfOk result (λ done.
        AnswersScript script (writer_contents W.contents blocks) (W.contents done.1) done.0)) }
{
    let status = run_world(alloc, reader, &mut blocks)?;
    let writer = blocks.into_inner()?;
    Ok((status, writer))
}

/// Runs a script and writes what comes of it, line by line. Answers the exit status: 0; 1 where a report
/// has faults; 2 where a line is bad, the script is too long, or memory runs out. A script that could not
/// be read is answered by `refused 91 ReadError`, or by `refused 35 NoMemory`, and status 2.
///
/// An error is that of a write: nothing is written after it.
pub fn run_world<R: Read, W: Write>(alloc: Global, reader: &mut R, writer: &mut W) -> io::Result<u8>
    ensures { IfSome (R.remaining reader.old) (λ script. IfOk result
        (AnswersScript script (W.contents writer.old) (W.contents writer.new))) }
{
    match run_script(alloc, reader, writer) {
        Ok(status) => Ok(status),
        Err(fault) => refuse_unread(writer, fault),
    }
}

/// Writes why a script has no status, and answers the exit status. A write that failed is handed on.
fn refuse_unread<W: Write>(writer: &mut W, fault: ScriptFault) -> io::Result<u8>
    ensures { IfOk result (RefusesUnread fault (W.contents writer.old) (W.contents writer.new)) }
{
    match fault {
        ScriptFault::ReadError => refuse_script(writer, Fault::ReadError),
        ScriptFault::NoMemory => refuse_script(writer, Fault::NoMemory),
        ScriptFault::WriteError => Err(ErrorKind::Other.into()),
    }
}

/// Writes why a script does not run, and answers the exit status.
pub fn refuse_script<W: Write>(writer: &mut W, fault: Fault) -> io::Result<u8>
    ensures { IfOk result (RefusesScript fault (W.contents writer.old) (W.contents writer.new)) }
{
    write_refusal(writer, PrintedRefusal::from(fault))?;
    Ok(REFUSED)
}
