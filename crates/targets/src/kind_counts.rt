//! How many blocks have a line of each kind.

ghost use Rattle.std.specs.Prelude.{◌≡◌, ◌≤◌, ◌<◌, ◌+◌, OnOk};
ghost use Rattle.std.specs.Io.KnownBytes.{Appends};
ghost use Rattle.targets.specs.MapKinds.{all_lines, kinds_words, no_lines, sum_words, sums_of_bytes, sums_of_parts, sums_of_writes, with_fault, with_line};

use crate::block_verdict::BlockVerdict;
use diagnosis::Holds;
use fc_base::MAX_BLOCKS;
use std::io;
use std::io::Write;

/// How many blocks have a line of each kind.
#[derive(Clone, Copy)]
pub(crate) struct KindCounts {
    unwritten: u32,
    filled: u32,
    lost: u32,
    unissued: u32,
    other_run: u32,
    misdirected: u32,
    torn: u32,
    corrupt: u32,
    unread: u32,
}

/// No line yet.
pub(crate) fn no_lines() -> KindCounts
    ensures { result ≡ no_lines }
{
    KindCounts {
        unwritten: 0,
        filled: 0,
        lost: 0,
        unissued: 0,
        other_run: 0,
        misdirected: 0,
        torn: 0,
        corrupt: 0,
        unread: 0,
    }
}

/// The sums with one more block, of which this is told.
pub(crate) fn with_line(kinds: KindCounts, told: &BlockVerdict) -> KindCounts
    requires { all_lines kinds < MAX_BLOCKS }
    ensures value { result ≡ with_line kinds told.now }
    ensures few { all_lines result ≤ all_lines kinds + 1 }
{
    match told {
        BlockVerdict::Unchecked => kinds,
        BlockVerdict::Sound => kinds,
        BlockVerdict::Unread => KindCounts {
            unread: kinds.unread + 1,
            ..kinds
        },
        BlockVerdict::Fault(holds) => with_fault(kinds, holds),
    }
}

/// The sums with one more faulty block, which holds this.
fn with_fault(kinds: KindCounts, holds: &Holds) -> KindCounts
    requires { all_lines kinds < MAX_BLOCKS }
    ensures value { result ≡ with_fault kinds holds.now }
    ensures few { all_lines result ≤ all_lines kinds + 1 }
{
    let mut sums = kinds;
    match holds {
        Holds::Sound => {}
        Holds::Unwritten => sums.unwritten += 1,
        Holds::Filled(_) => sums.filled += 1,
        Holds::Lost(_) => sums.lost += 1,
        Holds::Unissued(_) => sums.unissued += 1,
        Holds::OtherRun(_) => sums.other_run += 1,
        Holds::Misdirected(_) => sums.misdirected += 1,
        Holds::Torn => sums.torn += 1,
        Holds::Corrupt(_) => sums.corrupt += 1,
    }
    sums
}

/// Writes the sums that aren't 0, as ` lost 4 torn 1`.
pub(crate) fn write_kinds<W: Write>(writer: &mut W, kinds: &KindCounts) -> io::Result<()>
    ensures { OnOk result (Appends (W.contents writer.old) (W.contents writer.new)
        (kinds_words kinds.now)) }
{
    write_bytes(writer, kinds)?;
    write_writes(writer, kinds)?;
    write_parts(writer, kinds)
}

fn write_bytes<W: Write>(writer: &mut W, kinds: &KindCounts) -> io::Result<()>
    ensures { OnOk result (Appends (W.contents writer.old) (W.contents writer.new)
        (sums_of_bytes kinds.now)) }
{
    write_sum(writer, "unwritten", kinds.unwritten)?;
    write_sum(writer, "filled", kinds.filled)
}

fn write_writes<W: Write>(writer: &mut W, kinds: &KindCounts) -> io::Result<()>
    ensures { OnOk result (Appends (W.contents writer.old) (W.contents writer.new)
        (sums_of_writes kinds.now)) }
{
    write_sum(writer, "lost", kinds.lost)?;
    write_sum(writer, "unissued", kinds.unissued)?;
    write_sum(writer, "other-run", kinds.other_run)?;
    write_sum(writer, "misdirected", kinds.misdirected)
}

fn write_parts<W: Write>(writer: &mut W, kinds: &KindCounts) -> io::Result<()>
    ensures { OnOk result (Appends (W.contents writer.old) (W.contents writer.new)
        (sums_of_parts kinds.now)) }
{
    write_sum(writer, "torn", kinds.torn)?;
    write_sum(writer, "corrupt", kinds.corrupt)?;
    write_sum(writer, "unread", kinds.unread)
}

/// Writes the sum of a kind, if there is any, as ` lost 4`.
pub(crate) fn write_sum<W: Write>(writer: &mut W, word: &str, count: u32) -> io::Result<()>
    ensures { OnOk result (Appends (W.contents writer.old) (W.contents writer.new)
        (sum_words word.now count)) }
{
    if count == 0 {
        Ok(())
    } else {
        write!(writer, " {word} {count}")
    }
}
