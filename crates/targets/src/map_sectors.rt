//! What the sectors of a block hold, extent by extent.

ghost use Rattle.std.specs.Prelude.{◌≡◌, ◌+◌, ◌*◌, ◌/◌, ◌<◌, ◌≤◌, OnOk, length};
ghost use Rattle.std.specs.List.{flat_map, range_with_len};
ghost use Rattle.std.specs.Io.KnownBytes.{Appends};
ghost use Rattle.targets.specs.MapSectors.{begins_at, begin_words, ends_at, end_words, goes_on, is_next, is_same_key, is_same_write, last_sector_words, piece_words, sector_words, sectors_words, stamp_words};

use diagnosis::{Piece, Stamp, Write as Written, piece_at};
use fc_base::{JobNo, Key, RunNo, Seq, ServerNo};
use recheck::Expected;
use std::io;
use std::io::Write;

/// Writes what the sectors of a block hold, extent by extent, as `; 0-5 zeros; 6-7 unknown`.
pub(crate) fn write_sectors<W: Write>(
    writer: &mut W,
    expected: &Expected,
    bytes: &[u8],
) -> io::Result<()>
    requires { length bytes.now ≡ expected.now.job.bs }
    ensures { OnOk result (Appends (W.contents writer.old) (W.contents writer.new)
        (sectors_words expected.now bytes.now)) }
{
    write_extents(writer, expected, bytes, expected.rec().bs() / 512)
}

/// Writes what the first so many sectors hold.
fn write_extents<W: Write>(
    writer: &mut W,
    expected: &Expected,
    bytes: &[u8],
    sectors: u32,
) -> io::Result<()>
    requires { sectors * 512 ≤ length bytes.now }
    ensures { OnOk result (Appends (W.contents writer.old) (W.contents writer.new)
        (flat_map (sector_words expected.now bytes.now sectors) (range_with_len 0 sectors))) }
{
    for number in 0..sectors {
        write_sector(writer, expected, bytes, sectors, number)?;
    }
    Ok(())
}

/// Writes where an extent begins at a sector, or ends there, and what it holds.
fn write_sector<W: Write>(
    writer: &mut W,
    expected: &Expected,
    bytes: &[u8],
    sectors: u32,
    number: u32,
) -> io::Result<()>
    requires there { number < sectors }
    requires bytes { sectors * 512 ≤ length bytes.now }
    ensures { OnOk result (Appends (W.contents writer.old) (W.contents writer.new)
        (sector_words expected.now bytes.now sectors number)) }
{
    write_begin(writer, expected, bytes, number)?;
    write_end(writer, expected, bytes, sectors, number)
}

fn write_begin<W: Write>(
    writer: &mut W,
    expected: &Expected,
    bytes: &[u8],
    number: u32,
) -> io::Result<()>
    requires { (number + 1) * 512 ≤ length bytes.now }
    ensures { OnOk result (Appends (W.contents writer.old) (W.contents writer.new)
        (begin_words expected.now bytes.now number)) }
{
    if begins_at(expected, bytes, number) {
        write!(writer, "; {number}")
    } else {
        Ok(())
    }
}

fn write_end<W: Write>(
    writer: &mut W,
    expected: &Expected,
    bytes: &[u8],
    sectors: u32,
    number: u32,
) -> io::Result<()>
    requires there { number < sectors }
    requires bytes { sectors * 512 ≤ length bytes.now }
    ensures { OnOk result (Appends (W.contents writer.old) (W.contents writer.new)
        (end_words expected.now bytes.now sectors number)) }
{
    if ends_at(expected, bytes, sectors, number) {
        write_last_sector(writer, number, piece_at(expected, bytes, number))
    } else {
        Ok(())
    }
}

/// Writes the last sector of an extent, and what it holds.
fn write_last_sector<W: Write>(writer: &mut W, number: u32, piece: Piece) -> io::Result<()>
    ensures { OnOk result (Appends (W.contents writer.old) (W.contents writer.new)
        (last_sector_words number piece)) }
{
    write!(writer, "-{number} ")?;
    write_piece(writer, piece)
}

fn write_piece<W: Write>(writer: &mut W, piece: Piece) -> io::Result<()>
    ensures { OnOk result (Appends (W.contents writer.old) (W.contents writer.new)
        (piece_words piece)) }
{
    match piece {
        Piece::Zeros => write!(writer, "zeros"),
        Piece::Pattern => write!(writer, "pattern"),
        Piece::Unknown => write!(writer, "unknown"),
        Piece::Stamp(stamp) => write_stamp(writer, &stamp),
    }
}

/// Writes what a stamp says.
fn write_stamp<W: Write>(writer: &mut W, stamp: &Stamp) -> io::Result<()>
    ensures { OnOk result (Appends (W.contents writer.old) (W.contents writer.new)
        (stamp_words stamp.now)) }
{
    let Seq(seq) = stamp.write.seq;
    let block = stamp.write.block;
    let JobNo(job) = stamp.write.key.job;
    let ServerNo(server) = stamp.write.key.server;
    let RunNo(run) = stamp.write.key.run;
    let place = stamp.sector;
    write!(
        writer,
        "write {seq} of block {block} of job {job} of server {server} of run {run} place {place}",
    )
}

/// Whether an extent begins at this sector.
fn begins_at(expected: &Expected, bytes: &[u8], number: u32) -> bool
    requires { (number + 1) * 512 ≤ length bytes.now }
    ensures { result ≡ begins_at expected.now bytes.now number }
{
    number == 0
        || !goes_on(
            piece_at(expected, bytes, number - 1),
            piece_at(expected, bytes, number),
        )
}

/// Whether one ends there, of the first so many.
fn ends_at(expected: &Expected, bytes: &[u8], sectors: u32, number: u32) -> bool
    requires there { number < sectors }
    requires bytes { sectors * 512 ≤ length bytes.now }
    ensures { result ≡ ends_at expected.now bytes.now sectors number }
{
    number + 1 == sectors
        || !goes_on(
            piece_at(expected, bytes, number),
            piece_at(expected, bytes, number + 1),
        )
}

/// Whether what a sector holds goes on in the next one.
fn goes_on(first: Piece, next: Piece) -> bool
    ensures { result ≡ goes_on first next }
{
    match (first, next) {
        (Piece::Zeros, Piece::Zeros) => true,
        (Piece::Pattern, Piece::Pattern) => true,
        (Piece::Unknown, Piece::Unknown) => true,
        (Piece::Stamp(first), Piece::Stamp(next)) => is_next(&first, &next),
        _ => false,
    }
}

/// Whether a stamp is that of the next sector of the same write.
fn is_next(first: &Stamp, next: &Stamp) -> bool
    ensures { result ≡ is_next first.now next.now }
{
    is_same_write(&first.write, &next.write)
        && u64::from(next.sector) == u64::from(first.sector) + 1
}

fn is_same_write(first: &Written, next: &Written) -> bool
    ensures { result ≡ is_same_write first.now next.now }
{
    first.seq == next.seq && (first.block == next.block && is_same_key(&first.key, &next.key))
}

fn is_same_key(first: &Key, next: &Key) -> bool
    ensures { result ≡ is_same_key first.now next.now }
{
    first.run == next.run && (first.server == next.server && first.job == next.job)
}
