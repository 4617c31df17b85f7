//! An output that has to be flushed.

ghost use Rattle.std.specs.Prelude.{◌++◌, Some};

use std::alloc::Global;
use std::io;
use std::io::{ErrorKind, Write};

/// An output that shows nothing until it is flushed, and counts that. A flush may fail; it shows nothing,
/// then.
#[derive(Drop)]
pub struct Held {
    /// What was written before the last flush.
    pub shown: Vec<u8>,
    /// What was written behind it.
    pub held: Vec<u8>,
    /// How often it was flushed, or was to be.
    pub flushes: u32,
    /// Whether each flush fails.
    pub fails: bool,
}

impl Write for Held {
    ghost contents = { λ h. Some (h.shown.items ++ h.held.items) };

    fn write(&mut self, buf: &[u8]) -> io::Result<usize> {
        self.held.extend_from_slice(buf)?;
        Ok(buf.len())
    }

    fn flush(&mut self) -> io::Result<()> {
        self.flushes = self.flushes.saturating_add(1);
        if self.fails {
            return Err(ErrorKind::Other.into());
        }
        self.shown.extend_from_slice(&self.held)?;
        self.held.clear();
        Ok(())
    }
}

/// An output to which nothing was written.
pub fn held_output(alloc: Global) -> Held {
    Held {
        shown: Vec::new(alloc),
        held: Vec::new(alloc),
        flushes: 0,
        fails: false,
    }
}
