//! A block is diagnosed.

ghost use Rattle.std.specs.Prelude.{◌≡◌, ◌≢◌, ◌↔◌, ◌<◌, IsTrue, false, length};
ghost use Rattle.recheck.specs.Faults.{is_checked, is_expected, last_write, verdict};
ghost use Rattle.diagnosis.specs.Held.{HoldsWrite, own_write};
ghost use Rattle.diagnosis.specs.Kinds.{BlockHolds, FaultHolds, OtherHolds};
ghost use Rattle.diagnosis.specs.Steps.{filled_kind, mixed_kind, own_kind};

use crate::content::{Content, content_of, unknown_sectors};
use crate::damage::is_damaged;
use crate::holds::Holds;
use crate::stamp::Write;
use fc_base::Seq;
use recheck::{Expected, Verdict};

/// What a block holds that is checked, as [`Recheck::wants`](recheck::Recheck::wants) tells.
/// `bytes` is the whole block.
///
/// What was wanted there is told by [`Expected::last_write`] and [`Expected::in_flight`], and what
/// each sector of a torn or corrupt block holds by [`piece_at`](crate::piece_at). No memory is
/// taken. A sound block costs what its check does; another is gone over once for each write that it
/// may hold, and up to five times more.
pub fn diagnose(expected: &Expected, block: u32, bytes: &[u8]) -> Holds
    requires block { block < expected.now.job.blocks }
    requires checked { IsTrue (is_checked expected.now block) }
    requires bytes { length bytes.now ≡ expected.now.job.bs }
    ensures holds { BlockHolds expected.now block bytes.now result }
    ensures fault { (result ≢ Holds.Sound) ↔ (verdict expected.now block bytes.now
        ≡ Verdict.Fault) }
{
    if expected.verdict(block, bytes) == Verdict::Fault {
        fault(expected, block, bytes)
    } else {
        Holds::Sound
    }
}

/// What a faulty block holds: a damaged copy of a write that it may hold is corrupt.
fn fault(expected: &Expected, block: u32, bytes: &[u8]) -> Holds
    requires checked { IsTrue (is_checked expected.now block) }
    requires bytes { length bytes.now ≡ expected.now.job.bs }
    requires faulty { is_expected expected.now block bytes.now ≡ false }
    ensures { FaultHolds expected.now block bytes.now result }
{
    if is_damaged(expected, block, bytes) {
        Holds::Corrupt(unknown_sectors(expected, bytes))
    } else {
        other(expected, block, bytes)
    }
}

/// What a faulty block holds that is no such copy.
fn other(expected: &Expected, block: u32, bytes: &[u8]) -> Holds
    requires checked { IsTrue (is_checked expected.now block) }
    requires bytes { length bytes.now ≡ expected.now.job.bs }
    requires faulty { is_expected expected.now block bytes.now ≡ false }
    ensures { OtherHolds expected.now block bytes.now result }
{
    match content_of(expected, bytes) {
        Content::Byte(byte) => filled(byte),
        Content::Whole(write) => of_write(expected, block, bytes, write),
        Content::Mixed(unknown) => mixed(unknown),
    }
}

/// What a block holds that is this byte over and over.
fn filled(byte: u8) -> Holds
    ensures { result ≡ filled_kind byte }
{
    match byte {
        0 => Holds::Unwritten,
        _ => Holds::Filled(byte),
    }
}

/// What a block holds that is no whole write, by how many of its sectors are unknown.
fn mixed(unknown: u32) -> Holds
    ensures { result ≡ mixed_kind unknown }
{
    match unknown {
        0 => Holds::Torn,
        _ => Holds::Corrupt(unknown),
    }
}

/// What a faulty block holds that has the bytes of this write.
fn of_write(expected: &Expected, block: u32, bytes: &[u8], write: Write) -> Holds
    requires checked { IsTrue (is_checked expected.now block) }
    requires faulty { is_expected expected.now block bytes.now ≡ false }
    requires held { HoldsWrite expected.now bytes.now write }
    ensures { OtherHolds expected.now block bytes.now result }
{
    if write.key.run != expected.key().run {
        Holds::OtherRun(write)
    } else if is_own(expected, block, &write) {
        own_write(expected, block, write.seq)
    } else {
        Holds::Misdirected(write)
    }
}

/// Whether it is a write of the job that is checked, to this block.
fn is_own(expected: &Expected, block: u32, write: &Write) -> bool
    ensures { IsTrue result ↔ (write.now ≡ own_write expected.now block write.now.seq) }
{
    write.key == expected.key() && write.block == block
}

/// What a faulty block holds that has the bytes of this write of its own job to it.
fn own_write(expected: &Expected, block: u32, seq: Seq) -> Holds
    ensures { result ≡ own_kind (last_write expected.now block) seq }
{
    match expected.last_write(block) {
        Some(last) if seq < last => Holds::Lost(seq),
        _ => Holds::Unissued(seq),
    }
}
