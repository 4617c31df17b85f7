//! What a world shows, as it is printed: its frames, and what the client's note showed.

use crate::notes::Change;
use net_world::FrameLog;
use std::io;
use std::io::Write;

/// Writes a line for each frame, in the order of their numbers: `frame N HEX`, where HEX has two digits
/// for each byte. An error is that of a write: nothing is written after it.
pub fn write_frames<W: Write>(writer: &mut W, frames: &FrameLog) -> io::Result<()> {
    for number in 0..frames.len() {
        if let Some(bytes) = frames.get(number) {
            write!(writer, "frame {number} ")?;
            write_line(writer, bytes)?;
        }
    }
    Ok(())
}

/// Writes a line for each change of what the client's note shows: `saved C RUN SERVER JOB HEX`, where C
/// is the number of the command with which it came, counted from 0; `none` stands for HEX where no state
/// is shown any more.
pub fn write_changes<W: Write>(writer: &mut W, changes: &[Change]) -> io::Result<()> {
    for change in changes {
        let Change { command, key, .. } = change;
        write!(
            writer,
            "saved {command} {} {} {} ",
            key.run.0, key.server.0, key.job.0
        )?;
        match &change.spelling {
            Some(bytes) => write_line(writer, bytes.as_slice())?,
            None => writeln!(writer, "none")?,
        }
    }
    Ok(())
}

/// Writes the rest of a line: two digits for each byte.
fn write_line<W: Write>(writer: &mut W, bytes: &[u8]) -> io::Result<()> {
    for byte in bytes {
        write!(writer, "{byte:02x}")?;
    }
    writeln!(writer)
}
