//! The answer to a script: the lines that come of it, then its frames, and what the client's note showed.

use crate::play::played;
use crate::shown::{write_changes, write_frames};
use fc_base::Fault;
use net_script::{MAX_SCRIPT, ScriptFault, run_script};
use program_io::{PrintedRefusal, REFUSED, read_input, write_refusal};
use std::alloc::Global;
use std::io;
use std::io::{ErrorKind, Read, Write};

/// The most calls of `read`, as many as `run_script` makes.
const MAX_READS: u32 = 2_000_000;

/// Reads a script, and writes what `fiocut world` writes for it, a line for each frame that it has sent,
/// and one for each change of what the client's note shows. Answers the exit status, that of `fiocut world`: 0; 1 where a report has faults; 2 where a line
/// is bad, the script is too long or could not be read, or memory runs out.
///
/// An error is that of a write: nothing is written after it.
pub fn answer_script<R: Read, W: Write>(
    alloc: Global,
    reader: &mut R,
    writer: &mut W,
) -> io::Result<u8> {
    match read_input(alloc, reader, MAX_SCRIPT + 1, MAX_READS) {
        Ok(script) => answer_bytes(alloc, script.as_slice(), writer),
        Err(fault) => refuse_unread(writer, ScriptFault::from(fault)),
    }
}

/// Answers a script of which at least the front was read that shows whether it is too long.
fn answer_bytes<W: Write>(alloc: Global, script: &[u8], writer: &mut W) -> io::Result<u8> {
    let mut unread = script;
    match run_script(alloc, &mut unread, writer) {
        Ok(status) => {
            write_sent(alloc, script, writer)?;
            Ok(status)
        }
        Err(fault) => refuse_unread(writer, fault),
    }
}

/// Writes the lines of the frames that a script sends and those of the client's note, and flushes. One
/// that is too long has none, and neither has one that makes no world.
fn write_sent<W: Write>(alloc: Global, script: &[u8], writer: &mut W) -> io::Result<()> {
    if script.len() <= MAX_SCRIPT {
        if let Some(outcome) = played(alloc, script) {
            write_frames(writer, outcome.world.frames())?;
            write_changes(writer, outcome.notes.changes())?;
        }
    }
    writer.flush()
}

/// Writes why a script has no status, and answers the exit status. A write that failed is handed on.
fn refuse_unread<W: Write>(writer: &mut W, fault: ScriptFault) -> io::Result<u8> {
    match fault {
        ScriptFault::ReadError => refuse(writer, Fault::ReadError),
        ScriptFault::NoMemory => refuse(writer, Fault::NoMemory),
        ScriptFault::WriteError => Err(ErrorKind::Other.into()),
    }
}

/// Writes why a script does not run, and answers the exit status.
pub fn refuse<W: Write>(writer: &mut W, fault: Fault) -> io::Result<u8> {
    write_refusal(writer, PrintedRefusal::from(fault))?;
    Ok(REFUSED)
}
