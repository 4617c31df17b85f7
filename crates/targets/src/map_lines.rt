//! The line of a block of a map.

ghost use Rattle.std.specs.Prelude.{◌≡◌, OnOk, ◌++◌, length, codes, decimal};
ghost use Rattle.std.specs.List.{flat_map};
ghost use Rattle.std.specs.Io.KnownBytes.{Appends};
ghost use Rattle.targets.specs.MapDifferences.{differs_words};
ghost use Rattle.targets.specs.MapSectors.{sectors_words};
ghost use Rattle.targets.specs.MapLines.{held_words, last_words, line_if_any, line_words, or_words, own_words, wanted_words, write_words};

use crate::block_verdict::{BlockVerdict, kind_word};
use crate::map_differences::write_differences;
use crate::map_sectors::write_sectors;
use diagnosis::{Holds, Write as Written};
use fc_base::{JobNo, RunNo, Seq, ServerNo};
use recheck::{BlockWrites, Expected};
use std::io;
use std::io::Write;

/// Writes the line of a block, if it has one.
pub(crate) fn write_told<W: Write>(
    writer: &mut W,
    expected: &Expected,
    block: u32,
    bytes: &[u8],
    told: &BlockVerdict,
) -> io::Result<()>
    requires { length bytes.now ≡ expected.now.job.bs }
    ensures { OnOk result (Appends (W.contents writer.old) (W.contents writer.new)
        (line_if_any expected.now block bytes.now told.now)) }
{
    match told {
        BlockVerdict::Unchecked => Ok(()),
        BlockVerdict::Sound => Ok(()),
        BlockVerdict::Unread => write_line(writer, expected, block, bytes, told),
        BlockVerdict::Fault(_) => write_line(writer, expected, block, bytes, told),
    }
}

/// Writes the line of a block of which this is told.
fn write_line<W: Write>(
    writer: &mut W,
    expected: &Expected,
    block: u32,
    bytes: &[u8],
    told: &BlockVerdict,
) -> io::Result<()>
    requires { length bytes.now ≡ expected.now.job.bs }
    ensures { OnOk result (Appends (W.contents writer.old) (W.contents writer.new)
        (line_words expected.now block bytes.now told.now)) }
{
    write!(writer, "block {block} {}: wants write ", kind_word(told))?;
    write_wanted(writer, expected, block)?;
    write_held(writer, expected, block, bytes, told)?;
    writeln!(writer)
}

/// Writes the writes that the block may hold, as `5` or `5 or 9`.
fn write_wanted<W: Write>(writer: &mut W, expected: &Expected, block: u32) -> io::Result<()>
    ensures { OnOk result (Appends (W.contents writer.old) (W.contents writer.new)
        (wanted_words expected.now block)) }
{
    write_last(writer, expected.last_write(block))?;
    write_in_flight(writer, expected.in_flight(), block)
}

/// Writes the number of the last completed write.
fn write_last<W: Write>(writer: &mut W, last: Option<Seq>) -> io::Result<()>
    ensures { OnOk result (Appends (W.contents writer.old) (W.contents writer.new)
        (last_words last)) }
{
    match last {
        None => Ok(()),
        Some(Seq(number)) => write!(writer, "{number}"),
    }
}

/// Writes the numbers of those of the writes that go to the block.
fn write_in_flight<W: Write>(writer: &mut W, writes: &[BlockWrites], block: u32) -> io::Result<()>
    ensures { OnOk result (Appends (W.contents writer.old) (W.contents writer.new)
        (flat_map (or_words block) writes.now)) }
{
    for write in writes {
        write_or(writer, block, write)?;
    }
    Ok(())
}

/// Writes the number of a write, if it goes to the block.
fn write_or<W: Write>(writer: &mut W, block: u32, write: &BlockWrites) -> io::Result<()>
    ensures { OnOk result (Appends (W.contents writer.old) (W.contents writer.new)
        (or_words block write.now)) }
{
    if write.block == block {
        let Seq(number) = write.seq;
        write!(writer, " or {number}")
    } else {
        Ok(())
    }
}

/// Writes what the block holds, where that is more than its kind.
fn write_held<W: Write>(
    writer: &mut W,
    expected: &Expected,
    block: u32,
    bytes: &[u8],
    told: &BlockVerdict,
) -> io::Result<()>
    requires { length bytes.now ≡ expected.now.job.bs }
    ensures { OnOk result (Appends (W.contents writer.old) (W.contents writer.new)
        (held_words expected.now block bytes.now told.now)) }
{
    match told {
        BlockVerdict::Fault(Holds::Filled(byte)) => write!(writer, ", holds byte {byte}"),
        BlockVerdict::Fault(Holds::Lost(seq)) => write_own(writer, expected, block, bytes, *seq),
        BlockVerdict::Fault(Holds::Unissued(seq)) => write_own(
            writer, expected, block, bytes, *seq,
        ),
        BlockVerdict::Fault(Holds::OtherRun(write)) => write_other(
            writer, expected, block, bytes, write,
        ),
        BlockVerdict::Fault(Holds::Misdirected(write)) => {
            write_other(writer, expected, block, bytes, write)
        }
        BlockVerdict::Fault(Holds::Corrupt(sectors)) => {
            write_corrupt(writer, expected, block, bytes, *sectors)
        }
        BlockVerdict::Fault(Holds::Sound) => Ok(()),
        BlockVerdict::Fault(Holds::Unwritten) => Ok(()),
        BlockVerdict::Fault(Holds::Torn) => write_torn(writer, expected, block, bytes),
        BlockVerdict::Unchecked => Ok(()),
        BlockVerdict::Unread => Ok(()),
        BlockVerdict::Sound => Ok(()),
    }
}

/// Writes which write of the job to the block it holds, and how it differs from what it may hold.
fn write_own<W: Write>(
    writer: &mut W,
    expected: &Expected,
    block: u32,
    bytes: &[u8],
    seq: Seq,
) -> io::Result<()>
    requires { length bytes.now ≡ expected.now.job.bs }
    ensures { OnOk result (Appends (W.contents writer.old) (W.contents writer.new)
        (own_words seq ++ differs_words expected.now block bytes.now)) }
{
    write_seq(writer, seq)?;
    write_differences(writer, expected, block, bytes)
}

/// Writes which write it holds, and whose, and how it differs likewise.
fn write_other<W: Write>(
    writer: &mut W,
    expected: &Expected,
    block: u32,
    bytes: &[u8],
    write: &Written,
) -> io::Result<()>
    requires { length bytes.now ≡ expected.now.job.bs }
    ensures { OnOk result (Appends (W.contents writer.old) (W.contents writer.new)
        (write_words write.now ++ differs_words expected.now block bytes.now)) }
{
    write_write(writer, write)?;
    write_differences(writer, expected, block, bytes)
}

/// Writes how the block differs from what it may hold, and what each sector holds.
fn write_torn<W: Write>(
    writer: &mut W,
    expected: &Expected,
    block: u32,
    bytes: &[u8],
) -> io::Result<()>
    requires { length bytes.now ≡ expected.now.job.bs }
    ensures { OnOk result (Appends (W.contents writer.old) (W.contents writer.new)
        (differs_words expected.now block bytes.now ++ sectors_words expected.now bytes.now)) }
{
    write_differences(writer, expected, block, bytes)?;
    write_sectors(writer, expected, bytes)
}

/// Writes how many sectors are unknown, and then what is told of a torn block.
fn write_corrupt<W: Write>(
    writer: &mut W,
    expected: &Expected,
    block: u32,
    bytes: &[u8],
    sectors: u32,
) -> io::Result<()>
    requires { length bytes.now ≡ expected.now.job.bs }
    ensures { OnOk result (Appends (W.contents writer.old) (W.contents writer.new)
        (codes ", unknown sectors " ++ (decimal sectors
        ++ (differs_words expected.now block bytes.now ++ sectors_words expected.now bytes.now)))) }
{
    write!(writer, ", unknown sectors {sectors}")?;
    write_torn(writer, expected, block, bytes)
}

/// Writes which write of the job to the block it holds.
fn write_seq<W: Write>(writer: &mut W, seq: Seq) -> io::Result<()>
    ensures { OnOk result (Appends (W.contents writer.old) (W.contents writer.new)
        (own_words seq)) }
{
    let Seq(number) = seq;
    write!(writer, ", holds write {number}")
}

/// Writes which write a block holds, and whose.
pub(crate) fn write_write<W: Write>(writer: &mut W, write: &Written) -> io::Result<()>
    ensures { OnOk result (Appends (W.contents writer.old) (W.contents writer.new)
        (write_words write.now)) }
{
    let Seq(seq) = write.seq;
    let block = write.block;
    let JobNo(job) = write.key.job;
    let ServerNo(server) = write.key.server;
    let RunNo(run) = write.key.run;
    write!(
        writer,
        ", holds write {seq} of block {block} of job {job} of server {server} of run {run}",
    )
}
