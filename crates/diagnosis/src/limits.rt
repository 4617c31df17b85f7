//! Which stamps can be.

ghost use Rattle.std.specs.Prelude.{◌≡◌, ◌/◌};
ghost use Rattle.diagnosis.specs.Limits.{can_be, fits_its_job, is_below, is_of_some_job};

use crate::stamp::Stamp;
use fc_base::{MAX_BLOCK_SIZE, MAX_BLOCKS, MAX_WRITES};
use recheck::Expected;

/// How many sectors a block has at the most.
const MAX_SECTORS: u32 = MAX_BLOCK_SIZE / 512;

/// Whether some job can have written a stamp, and if it says that the checked one did, that one.
pub(crate) fn can_be(expected: &Expected, stamp: &Stamp) -> bool
    ensures { result ≡ can_be expected.now stamp.now }
{
    is_of_some_job(stamp) && fits_its_job(expected, stamp)
}

/// Whether some job can have written it.
fn is_of_some_job(stamp: &Stamp) -> bool
    ensures { result ≡ is_of_some_job stamp.now }
{
    stamp.write.key.is_key() && is_below(MAX_WRITES, MAX_BLOCKS, MAX_SECTORS, stamp)
}

/// Whether the checked job can have written it, if it says so.
fn fits_its_job(expected: &Expected, stamp: &Stamp) -> bool
    ensures { result ≡ fits_its_job expected.now stamp.now }
{
    if stamp.write.key == expected.key() {
        let rec = expected.rec();
        is_below(rec.total(), rec.blocks(), rec.bs() / 512, stamp)
    } else {
        true
    }
}

/// Whether the write, the block and the place that it says are below these.
fn is_below(writes: u64, blocks: u32, places: u32, stamp: &Stamp) -> bool
    ensures { result ≡ is_below writes blocks places stamp.now }
{
    stamp.write.seq.0 < writes && (stamp.write.block < blocks && stamp.sector < places)
}
