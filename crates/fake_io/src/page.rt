//! An output with bounded room.

ghost use Rattle.std.specs.Prelude.{Some};

use std::alloc::Global;
use std::io;
use std::io::{ErrorKind, Write};

/// An output with room for so many bytes, which takes at most so many at once. A write that finds no
/// room fails, and those that come behind it are counted.
#[derive(Drop)]
pub struct Page {
    /// How many more bytes it takes.
    pub room: usize,
    /// The most bytes that a write takes.
    pub step: usize,
    /// What was written.
    pub text: Vec<u8>,
    /// Whether a write has failed.
    pub has_failed: bool,
    /// How many writes came behind the failed one.
    pub late_writes: u32,
}

impl Write for Page {
    ghost contents = { λ p. Some p.text.items };

    fn write(&mut self, buf: &[u8]) -> io::Result<usize> {
        if self.has_failed {
            self.late_writes = self.late_writes.saturating_add(1);
        }
        let count = buf.len().min(self.room).min(self.step);
        if count == 0 && !buf.is_empty() {
            self.has_failed = true;
            return Err(ErrorKind::Other.into());
        }
        self.text.extend_from_slice(&buf[..count])?;
        self.room -= count;
        Ok(count)
    }

    fn flush(&mut self) -> io::Result<()> {
        Ok(())
    }
}

/// An empty output with room for so many bytes, which takes any number of them at once.
pub fn page_with(alloc: Global, room: usize) -> Page {
    Page {
        room,
        step: usize::MAX,
        text: Vec::new(alloc),
        has_failed: false,
        late_writes: 0,
    }
}
