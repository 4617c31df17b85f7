//! `drive wanted`: which blocks a check of a target by its ledger has to read.

ghost use Rattle.std.specs.Prelude.{◌≡◌, ◌≤◌, ◌<◌, ◌+◌, ◌*◌, IfOk, IfSome, OnOk, cond, length, map};
ghost use Rattle.std.specs.List.{range_with_len};
ghost use Rattle.std.specs.Simd.Lanes.{mask_l};
ghost use Rattle.std.specs.Io.KnownBytes.{Appends};
ghost use Rattle.ledger.specs.Places.{is_checked};
ghost use Rattle.program_io.specs.Words.{Finishes};
ghost use Rattle.targets.specs.Wanted.{WantsByLedger, byte_of, bytes_to, wanted_bytes};

use crate::command::Since;
use crate::ledger_input::read_basis;
use crate::ledger_refusal::refuse_by;
use fc_base::{Key, MAX_BLOCKS};
use ledger::Ledger;
use std::alloc::Global;
use std::io;
use std::io::{Read, Write};

/// Tells which blocks of a target a check by its ledger has to read: those whose entries ask for something, behind a run
/// whose state was kept, behind one whose state was lost, or where no run was since the last check. What is found at any
/// other block changes nothing that [`ledger_job`](crate::ledger_job) writes.
///
/// Reads what that check reads before the blocks: a job file behind its length; of a run whose state was kept that state
/// behind its own (0 for a full pass); and the ledger behind its own (0 for one that asks for nothing). What stands behind
/// the ledger isn't read.
///
/// Writes a bit for each block of the region, eight in a byte, the lowest first: 1 where the block is to be read. The bits
/// behind the last block are 0. The status is 0; and 2 for what refuses the check, which is told by the same line. An
/// error is that of a write.
pub fn wanted_job<R: Read, W: Write>(
    alloc: Global,
    key: Key,
    since: Since,
    reader: &mut R,
    writer: &mut W,
) -> io::Result<u8>
    ensures { IfSome (R.remaining reader.old) (λ input. IfOk result
        (WantsByLedger key since input (W.contents writer.old) (W.contents writer.new))) }
{
    match read_basis(alloc, key, since, reader) {
        Ok(basis) => tell_wanted(writer, &basis.asked),
        Err(refusal) => refuse_by(writer, refusal),
    }
}

/// Tells which blocks a ledger asks for.
fn tell_wanted<W: Write>(writer: &mut W, ledger: &Ledger) -> io::Result<u8>
    ensures { IfOk result (Finishes (wanted_bytes ledger.now) 0 (W.contents writer.old)
        (W.contents writer.new)) }
{
    write_wanted(writer, ledger)?;
    writer.flush()?;
    Ok(0)
}

/// Writes a bit for each block.
fn write_wanted<W: Write>(writer: &mut W, ledger: &Ledger) -> io::Result<()>
    ensures { OnOk result (Appends (W.contents writer.old) (W.contents writer.new)
        (wanted_bytes ledger.now)) }
{
    for number in 0..bytes_to(ledger.blocks()) {
        writer.write_all(&[byte_of(ledger, number)])?;
    }
    Ok(())
}

/// How many bytes have a bit for each of so many blocks.
fn bytes_to(blocks: u32) -> u32
    requires { blocks ≤ MAX_BLOCKS }
    ensures { result ≡ bytes_to blocks }
{
    (blocks + 7) / 8
}

/// The byte of this number: its bits are those of eight blocks.
fn byte_of(ledger: &Ledger, number: u32) -> u8
    requires { number < MAX_BLOCKS }
    ensures { result ≡ byte_of (is_checked ledger.now) number }
{
    let first = 8 * number;
    four_bits(ledger, first) + 16 * four_bits(ledger, first + 4)
}

/// The bits of four blocks from this one on.
fn four_bits(ledger: &Ledger, first: u32) -> u8
    requires { first < 8 * MAX_BLOCKS }
    ensures value { result ≡ mask_l (map (is_checked ledger.now) (range_with_len first 4)) }
    ensures few { result < 16 }
{
    two_bits(ledger, first) + 4 * two_bits(ledger, first + 2)
}

/// Those of two.
fn two_bits(ledger: &Ledger, first: u32) -> u8
    requires { first < 8 * MAX_BLOCKS + 4 }
    ensures value { result ≡ mask_l (map (is_checked ledger.now) (range_with_len first 2)) }
    ensures few { result < 4 }
{
    bit(ledger, first) + 2 * bit(ledger, first + 1)
}

/// The bit of a block: 1 where it is to be read.
fn bit(ledger: &Ledger, block: u32) -> u8
    ensures value { result ≡ cond (is_checked ledger.now block) 1 0 }
    ensures few { result < 2 }
{
    if ledger.wants(block) { 1 } else { 0 }
}
