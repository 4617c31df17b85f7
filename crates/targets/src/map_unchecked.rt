//! The line of the blocks that aren't checked.

ghost use Rattle.std.specs.Prelude.{◌≡◌, ◌<◌, ◌++◌, OnOk};
ghost use Rattle.std.specs.List.{flat_map, range_with_len};
ghost use Rattle.std.specs.Io.KnownBytes.{Appends};
ghost use Rattle.recheck.specs.Faults.{is_checked};
ghost use Rattle.targets.specs.MapLines.{begins_unchecked, edge_words, ends_unchecked, first_words, last_of_words, unchecked_line};

use fc_base::MAX_BLOCKS;
use recheck::Expected;
use std::io;
use std::io::Write;

/// Writes which blocks aren't checked, as `unchecked 5-9 12-12`.
pub(crate) fn write_unchecked<W: Write>(writer: &mut W, expected: &Expected) -> io::Result<()>
    ensures { OnOk result (Appends (W.contents writer.old) (W.contents writer.new)
        (unchecked_line expected.now)) }
{
    write!(writer, "unchecked")?;
    write_edges(writer, expected)?;
    writeln!(writer)
}

/// Writes the first and the last block of each extent of unchecked ones.
fn write_edges<W: Write>(writer: &mut W, expected: &Expected) -> io::Result<()>
    ensures { OnOk result (Appends (W.contents writer.old) (W.contents writer.new)
        (flat_map (edge_words (is_checked expected.now) expected.now.job.blocks)
        (range_with_len 0 expected.now.job.blocks))) }
{
    for block in 0..expected.rec().blocks() {
        let begins = begins_unchecked(expected, block);
        write_edge(writer, block, begins, ends_unchecked(expected, block))?;
    }
    Ok(())
}

/// Writes the number of a block where unchecked ones begin, end, or do both.
pub(crate) fn write_edge<W: Write>(
    writer: &mut W,
    block: u32,
    begins: bool,
    ends: bool,
) -> io::Result<()>
    ensures { OnOk result (Appends (W.contents writer.old) (W.contents writer.new)
        (first_words begins block ++ last_of_words ends block)) }
{
    write_first(writer, block, begins)?;
    write_last(writer, block, ends)
}

fn write_first<W: Write>(writer: &mut W, block: u32, begins: bool) -> io::Result<()>
    ensures { OnOk result (Appends (W.contents writer.old) (W.contents writer.new)
        (first_words begins block)) }
{
    if begins {
        write!(writer, " {block}")
    } else {
        Ok(())
    }
}

fn write_last<W: Write>(writer: &mut W, block: u32, ends: bool) -> io::Result<()>
    ensures { OnOk result (Appends (W.contents writer.old) (W.contents writer.new)
        (last_of_words ends block)) }
{
    if ends {
        write!(writer, "-{block}")
    } else {
        Ok(())
    }
}

/// Whether unchecked blocks begin at this one.
fn begins_unchecked(expected: &Expected, block: u32) -> bool
    ensures { result ≡ begins_unchecked (is_checked expected.now) block }
{
    !expected.is_checked(block) && (block == 0 || expected.is_checked(block - 1))
}

/// Whether they end at this one.
fn ends_unchecked(expected: &Expected, block: u32) -> bool
    requires { block < MAX_BLOCKS }
    ensures { result ≡ ends_unchecked (is_checked expected.now) expected.now.job.blocks block }
{
    !expected.is_checked(block)
        && (block + 1 == expected.rec().blocks() || expected.is_checked(block + 1))
}
