//! The check of a job's region whose blocks come one behind the other.

ghost use Rattle.std.specs.Prelude.{IfSome};
ghost use Rattle.std.specs.Option.{option_copied};
ghost use Rattle.targets.specs.Checks.{Checks};

use fc_base::{CheckReport, Fault, JobRecord, Key};
use program_io::fill;
use recheck::{Recheck, faults_end_checks};
use std::alloc::Global;
use std::io::Read;
use verify_state::VerifyState;

/// The most calls of `read` for a block: more than its bytes.
const MAX_READS: u32 = 1_000_000;

/// Checks a job's region, whose blocks are read one behind the other, as [`Recheck`] does: by a verify state, or
/// without one as a full pass. It ends at the first fault where a fault is fatal, and reads no further.
///
/// Where the input ends before the region does, the report is that of the blocks before the one that isn't whole, and
/// says so. Refused are a state that doesn't fit ([`Fault::OtherKey`], [`Fault::OtherJob`], [`Fault::OtherPlace`]),
/// want of memory ([`Fault::NoMemory`]), and a failed read ([`Fault::ReadError`]).
pub fn check_blocks<R: Read>(
    alloc: Global,
    key: Key,
    rec: &JobRecord,
    state: Option<&VerifyState>,
    fatal: bool,
    reader: &mut R,
) -> Result<CheckReport, Fault>
    ensures { IfSome (R.remaining reader.old)
        (λ bytes. Checks key rec.now (option_copied state.entry) fatal bytes result) }
{
    faults_end_checks();
    let mut check = Recheck::new(alloc, rec, key, state, fatal)?;
    let size = rec.bs() as usize;
    let Ok(mut bytes) = vec![in alloc; 0u8; size] else {
        return Err(Fault::NoMemory);
    };
    for block in 0..rec.blocks() {
        match fill(reader, &mut bytes, MAX_READS) {
            Ok(filled) if filled < size => return Ok(check.finish_at(block)),
            Ok(_) => {}
            Err(_) => return Err(Fault::ReadError),
        }
        check.feed(block, &bytes);
        if check.ended() {
            return Ok(check.finish());
        }
    }
    Ok(check.finish())
}
