//! The one write whose bytes a block holds.

ghost use Rattle.std.specs.Prelude.{◌≡◌, ◌≤◌, MatchOption, length};
ghost use Rattle.diagnosis.specs.Held.{HoldsWrite};
ghost use Rattle.diagnosis.specs.Steps.{HoldsNoWrite, held_write};

use crate::pieces::block_size;
use crate::stamp::{SECTOR, Write, stamp_of};
use fc_base::{JobRecord, Verify};
use recheck::Expected;
use write_order::holds_write;

/// The write whose bytes the block holds, if there is one.
pub(crate) fn whole_write(expected: &Expected, bytes: &[u8]) -> Option<Write>
    requires { length bytes.now ≡ expected.now.job.bs }
    ensures { MatchOption result (HoldsNoWrite expected.now bytes.now)
        (HoldsWrite expected.now bytes.now) }
{
    let _size = block_size(expected);
    match expected.rec().verify() {
        Verify::Pattern => None,
        Verify::Stamp => stamped_write(expected, bytes),
    }
}

/// The write that the first sector says, where the whole block is of it.
fn stamped_write(expected: &Expected, bytes: &[u8]) -> Option<Write>
    requires bytes { length bytes.now ≡ expected.now.job.bs }
    requires long { SECTOR ≤ length bytes.now }
    requires stamps { expected.now.job.verify ≡ Verify.Stamp }
    ensures { MatchOption result (HoldsNoWrite expected.now bytes.now)
        (HoldsWrite expected.now bytes.now) }
{
    let rec = expected.rec();
    match stamp_of(expected, &bytes[..SECTOR]) {
        None => None,
        Some(stamp) => held(&rec, bytes, stamp.write),
    }
}

/// This write, where the block holds its bytes.
fn held(rec: &JobRecord, bytes: &[u8], write: Write) -> Option<Write>
    requires { length bytes.now ≡ rec.now.bs }
    ensures { result ≡ held_write rec.now bytes.now write }
{
    if holds_write(&write.key, rec, write.seq, write.block, bytes) {
        Some(write)
    } else {
        None
    }
}
