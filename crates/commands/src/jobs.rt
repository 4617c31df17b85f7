//! `fiocut jobs`: a job file in, its jobs or its first fault out.

ghost use Rattle.std.specs.Prelude.{◌≡◌, ◌⊎◌, ◌+◌, IfOk, OnOk, IfSome, string_bytes};
ghost use Rattle.std.specs.Io.KnownBytes.{Appends};
ghost use Rattle.program_io.specs.Input.{HasRead};
ghost use Rattle.commands.specs.Answer.{AnswersText, WritesLinesOf, WritesRefusalOf};

use crate::lines::lines_of_set;
use fc_base::MAX_TEXT;
use job_file::parse;
use program_io::{PrintedRefusal, REFUSED, read_input, read_law, write_refusal};
use std::alloc::Global;
use std::io;
use std::io::{Read, Write};

/// The exit status where the jobs were printed.
const PRINTED: u8 = 0;

/// The most bytes that are read: one more than a job file may have, so that a longer one shows.
const MAX_BYTES: usize = MAX_TEXT + 1;

/// The most calls of `read`.
const MAX_READS: u32 = 20_000;

/// Reads a job file and writes a line for each of its notes and jobs and a last line with their
/// number, or the one line `refused CODE NAME` with the line or job where the fault has one.
/// Answers the exit status.
///
/// All memory is got before the first line is written. An error is that of a write: nothing is
/// written after it.
pub fn run_jobs<R: Read, W: Write>(alloc: Global, reader: &mut R, writer: &mut W) -> io::Result<u8>
    ensures status { IfOk result (λ status. (status ≡ 0) ⊎ (status ≡ 2)) }
    ensures printed { IfOk result (λ status. status ≡ 0 → IfSome (R.remaining reader.old)
        (λ text. WritesLinesOf text (W.contents writer.old) (W.contents writer.new))) }
    ensures refused { IfOk result (λ status. status ≡ 2 → IfSome (R.remaining reader.old)
        (λ text. WritesRefusalOf text (W.contents writer.old) (W.contents writer.new))) }
    ensures read { HasRead (MAX_TEXT + 1) (R.remaining reader.old) (R.remaining reader.new) }
{
    match lines_of_input(alloc, reader) {
        Ok(lines) => {
            write_text(writer, &lines)?;
            Ok(PRINTED)
        }
        Err(refusal) => {
            write_refusal(writer, refusal)?;
            Ok(REFUSED)
        }
    }
}

/// All that is printed for the text of this input, or why it is refused.
fn lines_of_input<R: Read>(alloc: Global, reader: &mut R) -> Result<String, PrintedRefusal>
    ensures answer { IfSome (R.remaining reader.old) (AnswersText string_bytes result) }
    ensures read { HasRead (MAX_TEXT + 1) (R.remaining reader.old) (R.remaining reader.new) }
{
    read_law();
    let text = read_input(alloc, reader, MAX_BYTES, MAX_READS)?;
    lines_of_text(alloc, &text)
}

/// All that is printed for a text, or why it is refused.
fn lines_of_text(alloc: Global, text: &[u8]) -> Result<String, PrintedRefusal>
    ensures { AnswersText string_bytes result text.now }
{
    let set = parse(alloc, text)?;
    let lines = lines_of_set(alloc, &set)?;
    Ok(lines)
}

fn write_text<W: Write>(writer: &mut W, text: &str) -> io::Result<()>
    ensures { OnOk result (Appends (W.contents writer.old) (W.contents writer.new) text.now) }
{
    writer.write_all(text.as_bytes())?;
    writer.flush()
}
