//! What a check by a ledger finds at a block.

ghost use Rattle.std.specs.Prelude.{◌≡◌, ◌<◌, List, Some, None, length};
ghost use Rattle.recheck.specs.Faults.{is_checked};
ghost use Rattle.ledger.specs.Entries.{asks, verdict};
ghost use Rattle.ledger.specs.declared.entry.RunWrite.{RunWrite};
ghost use Rattle.targets.specs.Ledgers.{IsFound, has_written};

use crate::block_verdict::BlockVerdict;
use crate::command::Since;
use diagnosis::{Content, content_of, diagnose};
use recheck::{Expected, Verdict};

/// What is found at a block.
#[derive(Clone, Copy)]
pub(crate) enum Found {
    /// Its entry asks for nothing: it may hold anything.
    Unchecked,
    /// It holds a write of its entry.
    Sound,
    /// The run has completed a write to it, and it could not be read, or holds no write of its entry.
    Written(BlockVerdict),
    /// It was at rest, and could not be read.
    RestUnread,
    /// It was at rest, and holds this, which is no write of its entry.
    Rest(Content),
}

/// Whether the run behind which a target is checked has completed a write to the block.
pub(crate) fn has_written(since: Since, expected: &Expected, block: u32) -> bool
    ensures { result ≡ has_written since expected.now block }
{
    match since {
        Since::Run => expected.is_checked(block),
        Since::LostRun => false,
        Since::Rest => false,
    }
}

/// What is found at a block with these bytes, of which a check by its entry has this verdict.
pub(crate) fn find(
    since: Since,
    expected: &Expected,
    block: u32,
    bytes: &[u8],
    seen: Verdict,
) -> Found
    requires block { block < expected.now.job.blocks }
    requires bytes { length bytes.now ≡ expected.now.job.bs }
    ensures { (entry : List RunWrite) → seen ≡ verdict block bytes.now entry
        → IsFound since expected.now entry block (Some bytes.now) result }
{
    match seen {
        Verdict::Skipped => Found::Unchecked,
        Verdict::Good => Found::Sound,
        Verdict::Fault if has_written(since, expected, block) => {
            Found::Written(BlockVerdict::Fault(diagnose(expected, block, bytes)))
        }
        Verdict::Fault => Found::Rest(content_of(expected, bytes)),
    }
}

/// What is found at a block that could not be read, whose entry asks for something or doesn't.
pub(crate) fn find_unread(since: Since, expected: &Expected, block: u32, is_asked: bool) -> Found
    ensures { (entry : List RunWrite) → is_asked ≡ asks entry
        → IsFound since expected.now entry block None result }
{
    if !is_asked {
        Found::Unchecked
    } else if has_written(since, expected, block) {
        Found::Written(BlockVerdict::Unread)
    } else {
        Found::RestUnread
    }
}
