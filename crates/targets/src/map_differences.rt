//! How a faulty block differs from a write that it may hold.

ghost use Rattle.std.specs.Prelude.{◌≡◌, OnOk, length};
ghost use Rattle.std.specs.List.{flat_map};
ghost use Rattle.std.specs.Io.KnownBytes.{Appends};
ghost use Rattle.recheck.specs.Faults.{last_write};
ghost use Rattle.targets.specs.MapDifferences.{apart_words, differs_from, differs_from_last, differs_from_placed, differs_words, few_words, place_words};

use diagnosis::{Difference, compare_write};
use fc_base::Seq;
use recheck::{BlockWrites, Expected};
use std::io;
use std::io::Write;

/// Writes how a block differs from each write that it may hold, where that is in a few bytes alone,
/// as `, differs from write 218 by bits 1 first at sector 1 byte 488`.
pub(crate) fn write_differences<W: Write>(
    writer: &mut W,
    expected: &Expected,
    block: u32,
    bytes: &[u8],
) -> io::Result<()>
    requires { length bytes.now ≡ expected.now.job.bs }
    ensures { OnOk result (Appends (W.contents writer.old) (W.contents writer.new)
        (differs_words expected.now block bytes.now)) }
{
    write_from_last(writer, expected, block, bytes)?;
    write_from_in_flight(writer, expected, block, bytes, expected.in_flight())
}

fn write_from_last<W: Write>(
    writer: &mut W,
    expected: &Expected,
    block: u32,
    bytes: &[u8],
) -> io::Result<()>
    requires { length bytes.now ≡ expected.now.job.bs }
    ensures { OnOk result (Appends (W.contents writer.old) (W.contents writer.new)
        (differs_from_last expected.now block bytes.now (last_write expected.now block))) }
{
    match expected.last_write(block) {
        None => Ok(()),
        Some(seq) => write_difference(writer, expected, block, bytes, seq),
    }
}

fn write_from_in_flight<W: Write>(
    writer: &mut W,
    expected: &Expected,
    block: u32,
    bytes: &[u8],
    writes: &[BlockWrites],
) -> io::Result<()>
    requires { length bytes.now ≡ expected.now.job.bs }
    ensures { OnOk result (Appends (W.contents writer.old) (W.contents writer.new)
        (flat_map (differs_from_placed expected.now block bytes.now) writes.now)) }
{
    for write in writes {
        write_from_placed(writer, expected, block, bytes, write)?;
    }
    Ok(())
}

fn write_from_placed<W: Write>(
    writer: &mut W,
    expected: &Expected,
    block: u32,
    bytes: &[u8],
    write: &BlockWrites,
) -> io::Result<()>
    requires { length bytes.now ≡ expected.now.job.bs }
    ensures { OnOk result (Appends (W.contents writer.old) (W.contents writer.new)
        (differs_from_placed expected.now block bytes.now write.now)) }
{
    if write.block == block {
        write_difference(writer, expected, block, bytes, write.seq)
    } else {
        Ok(())
    }
}

/// Writes how a block differs from this write of its job to it.
fn write_difference<W: Write>(
    writer: &mut W,
    expected: &Expected,
    block: u32,
    bytes: &[u8],
    seq: Seq,
) -> io::Result<()>
    requires { length bytes.now ≡ expected.now.job.bs }
    ensures { OnOk result (Appends (W.contents writer.old) (W.contents writer.new)
        (differs_from expected.now block bytes.now seq)) }
{
    let found = compare_write(&expected.key(), &expected.rec(), seq, block, bytes);
    write_few(writer, seq, &found)
}

/// Writes a difference, if it is small.
fn write_few<W: Write>(writer: &mut W, seq: Seq, found: &Difference) -> io::Result<()>
    ensures { OnOk result (Appends (W.contents writer.old) (W.contents writer.new)
        (few_words seq found.now)) }
{
    if found.is_small() {
        write_apart(writer, seq, found.bits, found.first)
    } else {
        Ok(())
    }
}

/// Writes how many bits differ, and where the first of them is, if there is one.
fn write_apart<W: Write>(writer: &mut W, seq: Seq, bits: u32, first: Option<u32>) -> io::Result<()>
    ensures { OnOk result (Appends (W.contents writer.old) (W.contents writer.new)
        (apart_words seq bits first)) }
{
    match first {
        None => Ok(()),
        Some(at) => write_place(writer, seq, bits, at),
    }
}

/// Writes how many bits differ, and the sector and the byte in it of this one.
fn write_place<W: Write>(writer: &mut W, seq: Seq, bits: u32, at: u32) -> io::Result<()>
    ensures { OnOk result (Appends (W.contents writer.old) (W.contents writer.new)
        (place_words seq bits at)) }
{
    let Seq(number) = seq;
    let sector = at / 512;
    let byte = at % 512;
    write!(
        writer,
        ", differs from write {number} by bits {bits} first at sector {sector} byte {byte}",
    )
}
