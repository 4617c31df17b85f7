//! The answer to a bad command line.

ghost use Rattle.std.specs.Prelude.{◌≡◌, IfOk, OnOk, codes};
ghost use Rattle.std.specs.Io.KnownBytes.{Appends};

use std::io;
use std::io::Write;

/// The exit status where something was refused or failed.
pub const REFUSED: u8 = 2;

/// Answers a bad command line: it prints `bad command`, and the exit status is that of a refusal.
/// An error is that of a write.
pub fn refuse_words<W: Write>(writer: &mut W) -> io::Result<u8>
    ensures status { IfOk result (λ status. status ≡ 2) }
    ensures printed { OnOk result
        (Appends (W.contents writer.old) (W.contents writer.new) (codes "bad command\n")) }
{
    writer.write_all(b"bad command\n")?;
    writer.flush()?;
    Ok(REFUSED)
}
