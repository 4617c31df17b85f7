//! What a filter writes to. A write that fails ends the filter, but first the answer is made to its end, and no more of
//! it is written: so what was written is always a front of whole answers.

ghost use Rattle.std.specs.Prelude.{◌≡◌, true, false, is_some, IfOk, OnOk, OnErr, []};
ghost use Rattle.std.specs.Io.KnownBytes.{Appends};
ghost use Rattle.filters.specs.Written.{Written, AppendsFront, Puts};

use std::io;
use std::io::{ErrorKind, Write};

/// The most calls of `write` for some bytes.
const MAX_CALLS: u64 = 4_000_000;

/// What a filter writes to.
pub(crate) trait Output {
    /// It at some moment.
    ghost written: { Self → Written };

    /// Writes bytes, unless a write has failed before.
    fn put(&mut self, bytes: &[u8])
        ensures { Puts (written self.old) (written self.new) bytes.now };

    /// Flushes what was written, unless a write has failed before.
    fn flush(&mut self)
        ensures { Puts (written self.old) (written self.new) [] };

    /// Whether a write has failed.
    fn has_failed(&self) -> bool
        ensures { result ≡ (written self.now).failed };
}

/// A writer, and the error of the first write that has failed.
pub(crate) struct Guarded<'a, W> {
    pub writer: &'a mut W,
    pub error: Option<io::Error>,
}

impl<W: Write> Output for Guarded<'_, W> {
    ghost written = { λ guarded. record {
      writer = guarded.writer.ghost_name;
      bytes = W.contents guarded.writer.now;
      failed = is_some guarded.error;
    } };

    fn put(&mut self, bytes: &[u8]) {
        if self.has_failed() {
            return;
        }
        match write_all(self.writer, bytes) {
            Ok(()) => {}
            Err(error) => {
                self.error = Some(error);
            }
        }
    }

    fn flush(&mut self) {
        if self.error.is_some() {
            return;
        }
        match self.writer.flush() {
            Ok(()) => {}
            Err(error) => {
                self.error = Some(error);
            }
        }
    }

    fn has_failed(&self) -> bool {
        self.error.is_some()
    }
}

/// Writes all of these bytes, or a front of them and why no more. Calls that a signal interrupts are made again.
fn write_all<W: Write>(writer: &mut W, bytes: &[u8]) -> io::Result<()>
    ensures ok { OnOk result (Appends (W.contents writer.old) (W.contents writer.new) bytes.now) }
    ensures err { OnErr result
        (AppendsFront (W.contents writer.old) (W.contents writer.new) bytes.now) }
{
    let mut done = 0;
    for _ in 0..MAX_CALLS {
        if done >= bytes.len() {
            return Ok(());
        }
        match writer.write(&bytes[done..]) {
            Ok(0) => return Err(io::Error::from(ErrorKind::WriteZero)),
            Ok(count) => done += count,
            Err(error) => {
                if error.kind() != ErrorKind::Interrupted {
                    return Err(error);
                }
            }
        }
    }
    Err(io::Error::from(ErrorKind::TimedOut))
}

/// The exit status, or the error of a write.
pub(crate) fn ended(error: Option<io::Error>, status: u8) -> io::Result<u8>
    ensures ok { IfOk result (λ told. (is_some error ≡ false) × (told ≡ status)) }
    ensures err { OnErr result (is_some error ≡ true) }
{
    match error {
        Some(error) => Err(error),
        None => Ok(status),
    }
}
