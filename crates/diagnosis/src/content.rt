//! What a block holds, whatever it has to hold.

ghost use Rattle.std.specs.Prelude.{◌≡◌, ◌<◌, MatchOption, length, replicate};
ghost use Rattle.diagnosis.specs.Contents.{Contains};
ghost use Rattle.diagnosis.specs.Kinds.{unknown_sectors};
ghost use Rattle.diagnosis.specs.Steps.{RepeatsNoByte};

use crate::pieces::{block_size, count_unknown, is_all};
use crate::stamp::Write;
use crate::whole::whole_write;
use recheck::Expected;

/// What a block holds, of which exactly one is so.
#[derive(Clone, Copy, Debug, PartialEq, Eq)]
pub enum Content {
    /// This byte over and over.
    Byte(u8),
    /// The whole of this write.
    Whole(Write),
    /// Neither: so many of its sectors hold nothing that is known, the others zeros or parts of writes.
    Mixed(u32),
}

/// What a block holds, whatever it has to hold: `bytes` is the whole block. A stamp is known where it can be, as
/// [`piece_at`](crate::piece_at) tells it of the job that is checked. No memory is taken.
pub fn content_of(expected: &Expected, bytes: &[u8]) -> Content
    requires { length bytes.now ≡ expected.now.job.bs }
    ensures { Contains expected.now bytes.now result }
{
    let _size = block_size(expected);
    if let Some(byte) = repeated_byte(bytes) {
        return Content::Byte(byte);
    }
    match whole_write(expected, bytes) {
        Some(write) => Content::Whole(write),
        None => Content::Mixed(unknown_sectors(expected, bytes)),
    }
}

/// How many of its sectors hold nothing that is known.
pub(crate) fn unknown_sectors(expected: &Expected, bytes: &[u8]) -> u32
    requires { length bytes.now ≡ expected.now.job.bs }
    ensures { result ≡ unknown_sectors expected.now bytes.now }
{
    count_unknown(expected, bytes, block_size(expected) / 512)
}

/// The byte that the block is over and over, if it is one.
fn repeated_byte(bytes: &[u8]) -> Option<u8>
    requires { 0 < length bytes.now }
    ensures { MatchOption result (RepeatsNoByte bytes.now) (λ byte. bytes.now
        ≡ replicate (length bytes.now) byte) }
{
    let first = bytes[0];
    if is_all(bytes, first) {
        Some(first)
    } else {
        None
    }
}
