//! What a map tells of a block by its bytes.

ghost use Rattle.std.specs.Prelude.{◌≡◌, ◌≤◌, ◌<◌, false, length, IsTrue, Some, None};
ghost use Rattle.targets.specs.Mapping.{IsFed, TellsBytes};
ghost use Rattle.targets.specs.Units.{fits_blocks, unit_fits};
ghost use Rattle.write_order.specs.Stamps.{written_bytes};

use crate::block_verdict::BlockVerdict;
use crate::units::has_sound_units;
use diagnosis::diagnose;
use fc_base::Seq;
use recheck::{Recheck, Verdict};
use write_order::fill_block;

/// What is told of a block with these bytes. `wanted` is room for another block.
pub(crate) fn tell_bytes(
    check: &mut Recheck,
    unit: Option<u32>,
    block: u32,
    bytes: &[u8],
    wanted: &mut [u8],
) -> BlockVerdict
    requires block { block < check.old.expected.job.blocks }
    requires next { check.old.next ≤ block }
    requires bytes { length bytes.now ≡ check.old.expected.job.bs }
    requires wanted { length wanted.old ≡ check.old.expected.job.bs }
    requires fatal { check.old.fatal ≡ false }
    requires fits { IsTrue (unit_fits unit check.old.expected.job.bs) }
    ensures tells { TellsBytes unit check.old check.new block bytes.now result }
    ensures wanted { length wanted.new ≡ length wanted.old }
{
    match unit {
        None => tell_whole(check, block, bytes),
        Some(unit) => tell_units(check, unit, block, bytes, wanted),
    }
}

/// What is told of it, where the block is the unit.
fn tell_whole(check: &mut Recheck, block: u32, bytes: &[u8]) -> BlockVerdict
    requires block { block < check.old.expected.job.blocks }
    requires next { check.old.next ≤ block }
    requires bytes { length bytes.now ≡ check.old.expected.job.bs }
    requires fatal { check.old.fatal ≡ false }
    ensures { TellsBytes None check.old check.new block bytes.now result }
{
    match check.feed(block, bytes) {
        Verdict::Skipped => BlockVerdict::Unchecked,
        Verdict::Good => BlockVerdict::Sound,
        Verdict::Fault => BlockVerdict::Fault(diagnose(check.expected(), block, bytes)),
    }
}

/// What is told of it by this unit.
fn tell_units(
    check: &mut Recheck,
    unit: u32,
    block: u32,
    bytes: &[u8],
    wanted: &mut [u8],
) -> BlockVerdict
    requires block { block < check.old.expected.job.blocks }
    requires next { check.old.next ≤ block }
    requires bytes { length bytes.now ≡ check.old.expected.job.bs }
    requires wanted { length wanted.old ≡ check.old.expected.job.bs }
    requires fatal { check.old.fatal ≡ false }
    requires fits { IsTrue (fits_blocks unit check.old.expected.job.bs) }
    ensures tells { TellsBytes (Some unit) check.old check.new block bytes.now result }
    ensures wanted { length wanted.new ≡ length wanted.old }
{
    let Some(seq) = check.expected().last_write(block) else {
        return tell_whole(check, block, bytes);
    };
    if has_sound_units(check.expected(), unit, block, bytes, wanted) {
        feed_write(check, block, seq, wanted);
        BlockVerdict::Sound
    } else {
        tell_whole(check, block, bytes)
    }
}

/// Gives the check what a write puts into a block.
fn feed_write(check: &mut Recheck, block: u32, seq: Seq, wanted: &mut [u8])
    requires block { block < check.old.expected.job.blocks }
    requires next { check.old.next ≤ block }
    requires wanted { length wanted.old ≡ check.old.expected.job.bs }
    requires fatal { check.old.fatal ≡ false }
    ensures fed { IsFed check.old check.new block
        (written_bytes check.old.expected.key check.old.expected.job seq block) }
    ensures wanted { length wanted.new ≡ length wanted.old }
{
    let key = check.expected().key();
    let rec = check.expected().rec();
    fill_block(key, &rec, seq, block, wanted);
    check.feed(block, wanted);
}
