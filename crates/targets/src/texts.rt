//! Texts that come behind their length.

ghost use Rattle.std.specs.Prelude.{◌≡◌, ◌<◌, length, IfOk, IfErr};
ghost use Rattle.std.specs.Int.{w32};
ghost use Rattle.fc_base.specs.Layouts.{bytes_of};
ghost use Rattle.targets.specs.Texts.{IsText, HasNoText, FillsAll};

use fc_base::{Fault, split_u32};
use program_io::fill;
use std::alloc::Global;
use std::io::Read;

/// The most calls of `read` for a text.
const MAX_READS: u32 = 100_000;

/// Reads a text behind its length, four bytes, the high byte first. Of one that is longer than `most` just one byte
/// more is read.
///
/// Refused are an input that ends before ([`Fault::EndOfInput`]), a failed read ([`Fault::ReadError`]) and want of
/// memory ([`Fault::NoMemory`]).
pub(crate) fn read_text<R: Read>(
    alloc: Global,
    reader: &mut R,
    most: usize,
) -> Result<Vec<u8>, Fault>
    requires { most < usize.MAX }
    ensures text { IfOk result
        (λ text. IsText most (R.remaining reader.old) (R.remaining reader.new) text.items) }
    ensures none { IfErr result (HasNoText most (R.remaining reader.old)) }
{
    let mut told = [0; 4];
    fill_all(reader, &mut told)?;
    let length = length_in(&told) as usize;
    let Ok(mut text) = vec![in alloc; 0u8; length.min(most + 1)] else {
        return Err(Fault::NoMemory);
    };
    fill_all(reader, &mut text)?;
    Ok(text)
}

/// The length that four bytes are.
fn length_in(bytes: &[u8]) -> u32
    requires { length bytes.now ≡ 4 }
    ensures { bytes.now ≡ bytes_of w32 result }
{
    let (length, _) = split_u32(bytes);
    length
}

/// Reads until the buffer is full.
pub(crate) fn fill_all<R: Read>(reader: &mut R, buffer: &mut [u8]) -> Result<(), Fault>
    ensures { FillsAll (R.remaining reader.old) (R.remaining reader.new) buffer.new result }
{
    match fill(reader, buffer, MAX_READS) {
        Ok(filled) if filled == buffer.len() => Ok(()),
        Ok(_) => Err(Fault::EndOfInput),
        Err(_) => Err(Fault::ReadError),
    }
}
