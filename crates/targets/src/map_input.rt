//! The blocks of a target as they come for a map.

ghost use Rattle.targets.specs.MapInput.{BlockComes, Comes, FillsOrEnds};

use fc_base::Fault;
use program_io::fill;
use std::io::Read;

/// The most calls of `read` for a block: more than its bytes.
const MAX_READS: u32 = 1_000_000;

/// What comes of a block.
#[derive(Clone, Copy)]
pub(crate) enum BlockRead {
    /// Its bytes.
    Bytes,
    /// That it could not be read.
    Unread,
    /// The end of the input.
    End,
}

/// Reads the next block, if it is there.
///
/// Refused are a failed read ([`Fault::ReadError`]) and a byte before the block that is neither 0
/// nor 1 ([`Fault::BadNotice`]).
pub(crate) fn next_block<R: Read>(reader: &mut R, bytes: &mut [u8]) -> Result<BlockRead, Fault>
    ensures { Comes (R.remaining reader.old) (R.remaining reader.new) bytes.new result }
{
    let mut flag = [0];
    if !fill_whole(reader, &mut flag)? {
        return Ok(BlockRead::End);
    }
    match flag[0] {
        0 => Ok(BlockRead::Unread),
        1 => block_bytes(reader, bytes),
        _ => Err(Fault::BadNotice),
    }
}

/// Reads the bytes of a block.
fn block_bytes<R: Read>(reader: &mut R, bytes: &mut [u8]) -> Result<BlockRead, Fault>
    ensures { BlockComes (R.remaining reader.old) (R.remaining reader.new) bytes.new result }
{
    if fill_whole(reader, bytes)? {
        Ok(BlockRead::Bytes)
    } else {
        Ok(BlockRead::End)
    }
}

/// Reads until the buffer is full, or answers `false` where the input ends before that.
fn fill_whole<R: Read>(reader: &mut R, buffer: &mut [u8]) -> Result<bool, Fault>
    ensures { FillsOrEnds (R.remaining reader.old) (R.remaining reader.new) buffer.new result }
{
    match fill(reader, buffer, MAX_READS) {
        Ok(filled) if filled < buffer.len() => Ok(false),
        Ok(_) => Ok(true),
        Err(_) => Err(Fault::ReadError),
    }
}
