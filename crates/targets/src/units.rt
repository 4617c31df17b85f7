//! Whether a block is sound unit by unit.

ghost use Rattle.std.specs.Prelude.{◌≡◌, ◌+◌, ◌*◌, ◌≤◌, ◌<◌, length};
ghost use Rattle.std.specs.List.{list_any};
ghost use Rattle.recheck.specs.Faults.{writes_to};
ghost use Rattle.targets.specs.Units.{fits_blocks, has_sound_units, is_sound_unit, is_unit_of, unit_fits};

use fc_base::Seq;
use recheck::{BlockWrites, Expected};
use write_order::fill_block;

/// Whether a unit, if there is one, fits blocks of this size.
pub(crate) fn unit_fits(unit: Option<u32>, size: u32) -> bool
    ensures { result ≡ unit_fits unit size }
{
    match unit {
        None => true,
        Some(unit) => fits_blocks(unit, size),
    }
}

/// Whether a unit is a multiple of 512 bytes that divides blocks of this size.
fn fits_blocks(unit: u32, size: u32) -> bool
    ensures { result ≡ fits_blocks unit size }
{
    0 < unit && (unit % 512 == 0 && size % unit == 0)
}

/// Whether each unit of a block is that of its last completed write, or of one in flight to it.
/// What a write puts there is made in `wanted`.
pub(crate) fn has_sound_units(
    expected: &Expected,
    unit: u32,
    block: u32,
    bytes: &[u8],
    wanted: &mut [u8],
) -> bool
    requires unit { 0 < unit }
    requires bytes { length bytes.now ≡ expected.now.job.bs }
    requires wanted { length wanted.old ≡ expected.now.job.bs }
    ensures value { result ≡ has_sound_units expected.now unit block bytes.now }
    ensures wanted { length wanted.new ≡ length wanted.old }
{
    for number in 0..expected.rec().bs() / unit {
        if !is_sound_unit(expected, unit, number, block, bytes, wanted) {
            return false;
        }
    }
    true
}

/// Whether this unit is sound.
fn is_sound_unit(
    expected: &Expected,
    unit: u32,
    number: u32,
    block: u32,
    bytes: &[u8],
    wanted: &mut [u8],
) -> bool
    requires bytes { length bytes.now ≡ expected.now.job.bs }
    requires wanted { length wanted.old ≡ expected.now.job.bs }
    requires within { number * unit + unit ≤ length bytes.now }
    ensures value { result ≡ is_sound_unit expected.now unit block bytes.now number }
    ensures wanted { length wanted.new ≡ length wanted.old }
{
    match expected.last_write(block) {
        None => false,
        Some(seq) => {
            let writes = expected.in_flight();
            is_unit_of(expected, unit, number, block, bytes, seq, wanted)
                || is_unit_in_flight(expected, unit, number, block, bytes, writes, wanted)
        }
    }
}

/// Whether it is that of a write in flight to the block.
fn is_unit_in_flight(
    expected: &Expected,
    unit: u32,
    number: u32,
    block: u32,
    bytes: &[u8],
    writes: &[BlockWrites],
    wanted: &mut [u8],
) -> bool
    requires bytes { length bytes.now ≡ expected.now.job.bs }
    requires wanted { length wanted.old ≡ expected.now.job.bs }
    requires within { number * unit + unit ≤ length bytes.now }
    ensures value { result ≡ list_any (is_unit_of expected.now unit block bytes.now number)
        (writes_to block writes.now) }
    ensures wanted { length wanted.new ≡ length wanted.old }
{
    for write in writes {
        if write.block == block
            && is_unit_of(expected, unit, number, block, bytes, write.seq, wanted)
        {
            return true;
        }
    }
    false
}

/// Whether this unit is that of a write.
fn is_unit_of(
    expected: &Expected,
    unit: u32,
    number: u32,
    block: u32,
    bytes: &[u8],
    seq: Seq,
    wanted: &mut [u8],
) -> bool
    requires bytes { length bytes.now ≡ expected.now.job.bs }
    requires wanted { length wanted.old ≡ expected.now.job.bs }
    requires within { number * unit + unit ≤ length bytes.now }
    ensures value { result ≡ is_unit_of expected.now unit block bytes.now number seq }
    ensures wanted { length wanted.new ≡ length wanted.old }
{
    fill_block(expected.key(), &expected.rec(), seq, block, wanted);
    let from = number as usize * unit as usize;
    let end = from + unit as usize;
    bytes[from..end] == wanted[from..end]
}
