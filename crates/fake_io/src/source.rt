//! An input that is read in steps, is interrupted, or fails.

ghost use Rattle.std.specs.Prelude.{Some};

use std::io;
use std::io::{ErrorKind, Read};

/// An input: some interrupted reads, then a text in steps, then its end or a failed read.
#[derive(Drop)]
pub struct Source<'a> {
    /// How many of the next reads are interrupted.
    pub interruptions: u32,
    /// What is still to be read.
    pub text: &'a [u8],
    /// The most bytes that a read gives; 0 is as 1, since no bytes are the end.
    pub step: usize,
    /// Whether a read behind the text fails, in place of telling its end.
    pub fails_at_end: bool,
    /// The number of the first read that fails, from 0; all later ones fail, too.
    pub failing_read: u32,
    /// How many reads were asked for.
    pub reads: u32,
}

impl Source<'_> {
    fn fails(&self, number: u32) -> bool {
        number >= self.failing_read || (self.fails_at_end && self.text.is_empty())
    }
}

impl Read for Source<'_> {
    ghost remaining = { λ s. Some s.text.now };

    fn read(&mut self, buf: &mut [u8]) -> io::Result<usize> {
        let number = self.reads;
        self.reads = number.saturating_add(1);
        if self.interruptions > 0 {
            self.interruptions -= 1;
            return Err(ErrorKind::Interrupted.into());
        }
        if self.fails(number) {
            return Err(ErrorKind::Other.into());
        }
        let count = self.step.max(1).min(buf.len()).min(self.text.len());
        let (now, later) = self.text.split_at(count);
        buf[..count].copy_from_slice(now);
        self.text = later;
        Ok(count)
    }
}

/// A text in one step, and its end.
pub fn source_of(text: &[u8]) -> Source<'_> {
    in_steps(text, usize::MAX)
}

/// A text in steps of so many bytes, and its end.
pub fn in_steps(text: &[u8], step: usize) -> Source<'_> {
    Source {
        interruptions: 0,
        text,
        step,
        fails_at_end: false,
        failing_read: u32::MAX,
        reads: 0,
    }
}

/// A text in steps, and then a failed read.
pub fn failing(text: &[u8], step: usize) -> Source<'_> {
    Source {
        fails_at_end: true,
        ..in_steps(text, step)
    }
}

/// A text in steps, of which the read of this number fails, counted from 0, and each one behind it.
pub fn failing_at(text: &[u8], step: usize, failing_read: u32) -> Source<'_> {
    Source {
        failing_read,
        ..in_steps(text, step)
    }
}

/// So many interrupted reads, then a text in one step and its end.
pub fn interrupted(text: &[u8], interruptions: u32) -> Source<'_> {
    Source {
        interruptions,
        ..source_of(text)
    }
}
