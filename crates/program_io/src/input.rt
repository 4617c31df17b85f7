//! Bounded reading: neither an endless input nor one that makes no progress holds the program up.

ghost use Rattle.std.specs.Prelude.{◌≡◌, ◌+◌, ◌<◌, ◌≤◌, length, take, drop, OnErr, IfOk, IfErr, Err};
ghost use Rattle.std.specs.Io.KnownBytes.{Consumes, IsAtEnd, Keeps};
ghost use Rattle.program_io.specs.Input.{IsRead, HasRead};

use std::alloc::Global;
use std::io;
use std::io::{ErrorKind, Read};

/// Why the bytes of an input are not there.
#[derive(Clone, Copy, Debug, PartialEq, Eq)]
pub enum InputFault {
    /// A read failed, or so many reads reached neither the end nor the last of the bytes.
    ReadError,
    /// There was no memory for the bytes. Nothing was read.
    NoMemory,
}

/// Reads an input to its end, or its first `max_bytes` where it is longer: the rest is not read.
///
/// It calls `read` at most `max_reads` times. Calls that a signal interrupts are made again, and
/// count. Memory for all of `max_bytes` is got before the first read.
pub fn read_input<R: Read>(
    alloc: Global,
    reader: &mut R,
    max_bytes: usize,
    max_reads: u32,
) -> Result<Vec<u8>, InputFault>
    ensures ok { IfOk result (λ bytes. IsRead max_bytes (R.remaining reader.old)
        (R.remaining reader.new) bytes.items) }
    ensures err { OnErr result
        (HasRead max_bytes (R.remaining reader.old) (R.remaining reader.new)) }
    ensures memory { result ≡ Err InputFault.NoMemory
        → Keeps (R.remaining reader.old) (R.remaining reader.new) }
{
    let Ok(mut bytes) = vec![in alloc; 0; max_bytes] else {
        return Err(InputFault::NoMemory);
    };
    let filled = fill(reader, bytes.as_mut_slice(), max_reads)?;
    bytes.truncate(filled);
    Ok(bytes)
}

/// Reads until the input ends or the buffer is full, and answers how many of its bytes are filled: all, or fewer
/// where the input has ended.
///
/// It calls `read` at most `max_reads` times. Calls that a signal interrupts are made again, and
/// count. The fault is [`InputFault::ReadError`]; what was read by then is lost.
pub fn fill<R: Read>(reader: &mut R, buffer: &mut [u8], max_reads: u32) -> Result<usize, InputFault>
    ensures bound { IfOk result (λ filled. filled ≤ length buffer.new) }
    ensures ok { IfOk result (λ filled. IsRead (length buffer.new) (R.remaining reader.old)
        (R.remaining reader.new) (take filled buffer.new)) }
    ensures read { OnErr result
        (HasRead (length buffer.new) (R.remaining reader.old) (R.remaining reader.new)) }
    ensures err { IfErr result (λ fault. fault ≡ InputFault.ReadError) }
{
    let mut filled = 0;
    for _ in 0..max_reads {
        if filled >= buffer.len() {
            return Ok(filled);
        }
        match read_behind(reader, buffer, filled) {
            Ok(0) => return Ok(filled),
            Ok(count) => filled += count,
            Err(error) => {
                if error.kind() != ErrorKind::Interrupted {
                    return Err(InputFault::ReadError);
                }
            }
        }
    }
    if filled >= buffer.len() {
        Ok(filled)
    } else {
        Err(InputFault::ReadError)
    }
}

/// One read into the buffer, behind what is filled.
fn read_behind<R: Read>(reader: &mut R, buffer: &mut [u8], filled: usize) -> io::Result<usize>
    requires { filled < length buffer.old }
    ensures bound { IfOk result (λ count. filled + count ≤ length buffer.new) }
    ensures front { take filled buffer.new ≡ take filled buffer.old }
    ensures bytes { IfOk result (λ count. Consumes (R.remaining reader.old) (R.remaining reader.new)
        (take count (drop filled buffer.new))) }
    ensures end { IfOk result (λ count. count ≡ 0 → IsAtEnd (R.remaining reader.new)) }
    ensures err { OnErr result (Keeps (R.remaining reader.old) (R.remaining reader.new)) }
{
    reader.read(&mut buffer[filled..])
}
