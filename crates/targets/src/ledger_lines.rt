//! The line of a block that a check by a ledger tells of.

ghost use Rattle.std.specs.Prelude.{◌≡◌, ◌++◌, OnOk, codes, decimal, length};
ghost use Rattle.std.specs.List.{flat_map};
ghost use Rattle.std.specs.Io.KnownBytes.{Appends};
ghost use Rattle.targets.specs.LedgerLines.{byte_words, content_words, entry_words, or_run_write_words, rest_line, rest_unread_line, run_write_words, unknown_words};
ghost use Rattle.targets.specs.LedgerSteps.{line_by};

use crate::ledger_found::Found;
use crate::map_lines::{write_told, write_write};
use crate::map_sectors::write_sectors;
use diagnosis::Content;
use fc_base::{RunNo, Seq};
use ledger::{Entry, RunWrite};
use recheck::Expected;
use std::io;
use std::io::Write;

/// Writes the line of a block with this entry, at which this is found, if it has one.
pub(crate) fn write_found<W: Write>(
    writer: &mut W,
    expected: &Expected,
    entry: &Entry,
    block: u32,
    bytes: &[u8],
    found: &Found,
) -> io::Result<()>
    requires { length bytes.now ≡ expected.now.job.bs }
    ensures { OnOk result (Appends (W.contents writer.old) (W.contents writer.new)
        (line_by expected.now entry.now block bytes.now found.now)) }
{
    match found {
        Found::Unchecked => Ok(()),
        Found::Sound => Ok(()),
        Found::Written(told) => write_told(writer, expected, block, bytes, told),
        Found::RestUnread => write_rest_unread(writer, entry, block),
        Found::Rest(content) => write_rest(writer, expected, entry, block, bytes, content),
    }
}

/// Writes the line of a block at rest that could not be read.
fn write_rest_unread<W: Write>(writer: &mut W, entry: &Entry, block: u32) -> io::Result<()>
    ensures { OnOk result (Appends (W.contents writer.old) (W.contents writer.new)
        (rest_unread_line entry.now block)) }
{
    write!(writer, "block {block} unread: wants ")?;
    write_entry(writer, entry)?;
    writeln!(writer)
}

/// Writes the line of a block at rest that holds this, and none of what it has to.
fn write_rest<W: Write>(
    writer: &mut W,
    expected: &Expected,
    entry: &Entry,
    block: u32,
    bytes: &[u8],
    content: &Content,
) -> io::Result<()>
    requires { length bytes.now ≡ expected.now.job.bs }
    ensures { OnOk result (Appends (W.contents writer.old) (W.contents writer.new)
        (rest_line expected.now entry.now block bytes.now content.now)) }
{
    write!(writer, "block {block} at-rest: wants ")?;
    write_entry(writer, entry)?;
    write_content(writer, expected, bytes, content)?;
    writeln!(writer)
}

/// Writes the writes of an entry, as `write 5 of run 7 or write 9 of run 8`.
fn write_entry<W: Write>(writer: &mut W, entry: &Entry) -> io::Result<()>
    ensures { OnOk result (Appends (W.contents writer.old) (W.contents writer.new)
        (entry_words entry.now)) }
{
    match entry.as_slice().split_first() {
        None => Ok(()),
        Some((first, others)) => write_writes(writer, first, others),
    }
}

fn write_writes<W: Write>(writer: &mut W, first: &RunWrite, others: &[RunWrite]) -> io::Result<()>
    ensures { OnOk result (Appends (W.contents writer.old) (W.contents writer.new)
        (run_write_words first.now ++ flat_map or_run_write_words others.now)) }
{
    write_run_write(writer, first)?;
    write_others(writer, others)
}

fn write_others<W: Write>(writer: &mut W, others: &[RunWrite]) -> io::Result<()>
    ensures { OnOk result (Appends (W.contents writer.old) (W.contents writer.new)
        (flat_map or_run_write_words others.now)) }
{
    for write in others {
        write_or(writer, write)?;
    }
    Ok(())
}

fn write_or<W: Write>(writer: &mut W, write: &RunWrite) -> io::Result<()>
    ensures { OnOk result (Appends (W.contents writer.old) (W.contents writer.new)
        (or_run_write_words write.now)) }
{
    write!(writer, " or ")?;
    write_run_write(writer, write)
}

/// Writes a write, and of which run.
fn write_run_write<W: Write>(writer: &mut W, write: &RunWrite) -> io::Result<()>
    ensures { OnOk result (Appends (W.contents writer.old) (W.contents writer.new)
        (run_write_words write.now)) }
{
    let Seq(seq) = write.seq;
    let RunNo(run) = write.key.run;
    write!(writer, "write {seq} of run {run}")
}

/// Writes what a block holds.
fn write_content<W: Write>(
    writer: &mut W,
    expected: &Expected,
    bytes: &[u8],
    content: &Content,
) -> io::Result<()>
    requires { length bytes.now ≡ expected.now.job.bs }
    ensures { OnOk result (Appends (W.contents writer.old) (W.contents writer.new)
        (content_words expected.now bytes.now content.now)) }
{
    match content {
        Content::Byte(byte) => write_byte(writer, *byte),
        Content::Whole(write) => write_write(writer, write),
        Content::Mixed(sectors) => write_mixed(writer, expected, bytes, *sectors),
    }
}

fn write_byte<W: Write>(writer: &mut W, byte: u8) -> io::Result<()>
    ensures { OnOk result (Appends (W.contents writer.old) (W.contents writer.new)
        (byte_words byte)) }
{
    if byte == 0 {
        write!(writer, ", holds zeros")
    } else {
        write!(writer, ", holds byte {byte}")
    }
}

fn write_mixed<W: Write>(
    writer: &mut W,
    expected: &Expected,
    bytes: &[u8],
    sectors: u32,
) -> io::Result<()>
    requires { length bytes.now ≡ expected.now.job.bs }
    ensures { OnOk result (Appends (W.contents writer.old) (W.contents writer.new)
        (content_words expected.now bytes.now (Content.Mixed sectors))) }
{
    write_unknown(writer, sectors)?;
    write_sectors(writer, expected, bytes)
}

/// Writes how many sectors are unknown, or that the block is torn.
fn write_unknown<W: Write>(writer: &mut W, sectors: u32) -> io::Result<()>
    ensures { OnOk result (Appends (W.contents writer.old) (W.contents writer.new)
        (unknown_words sectors)) }
{
    if sectors == 0 {
        write!(writer, ", torn")
    } else {
        write!(writer, ", unknown sectors {sectors}")
    }
}
