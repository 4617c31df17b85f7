//! A faulty block is diagnosed.

ghost use Rattle.std.specs.Prelude.{◌≡◌, IfOk, IfSome, length};
ghost use Rattle.write_order.specs.Stamps.{written_bytes};

use diagnosis::{Holds, diagnose, named_writes_are_held};
use fc_base::{Fault, JobRecord, Key, Seq};
use recheck::Recheck;
use std::alloc::Global;
use verify_state::VerifyState;

/// Which older write stands in a block in the place of its last completed one, if one does.
pub fn older_write(
    alloc: Global,
    key: Key,
    rec: &JobRecord,
    state: &VerifyState,
    block: u32,
    bytes: &[u8],
) -> Result<Option<Seq>, Fault>
    requires { length bytes.now ≡ rec.now.bs }
    ensures { IfOk result (λ older. IfSome older (λ k. bytes.now
        ≡ written_bytes key rec.now k block)) }
{
    named_writes_are_held();
    let check = Recheck::new(alloc, rec, key, Some(state), false)?;
    if !check.wants(block) {
        return Ok(None);
    }
    match diagnose(check.expected(), block, bytes) {
        Holds::Lost(seq) => Ok(Some(seq)),
        _ => Ok(None),
    }
}
