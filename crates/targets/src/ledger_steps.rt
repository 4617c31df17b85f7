//! A check by a ledger under way, block by block.

ghost use Rattle.std.specs.Prelude.{◌≡◌, ◌<◌, ◌+◌, ◌||◌, IfErr, IfOk, Some, None, length};
ghost use Rattle.ledger.specs.Checks.{with_block_fed};
ghost use Rattle.ledger.specs.Entries.{asks};
ghost use Rattle.ledger.specs.Places.{entry_of};
ghost use Rattle.targets.specs.Ledgers.{IsFound};
ghost use Rattle.targets.specs.LedgerSteps.{GoesOn, Takes};

use crate::command::Since;
use crate::ledger_found::{Found, find, find_unread};
use crate::map_input::{BlockRead, next_block};
use fc_base::Fault;
use ledger::{Ledger, LedgerCheck};
use recheck::Recheck;
use std::io::Read;

/// A check by a ledger under way.
#[derive(Drop)]
pub(crate) struct LedgerMap {
    pub(crate) since: Since,
    /// What a check by the run's state alone goes by.
    pub(crate) recheck: Recheck,
    /// What each block has to hold.
    pub(crate) asked: Ledger,
    /// The check of that.
    pub(crate) check: LedgerCheck,
    /// Room for a block.
    pub(crate) bytes: Vec<u8>,
    /// Whether a block could not be read of which something is asked.
    pub(crate) unread: bool,
}

/// Reads the next block, and finds what it holds. `None` where the input ends in it.
pub(crate) fn take_block<R: Read>(
    map: &mut LedgerMap,
    block: u32,
    reader: &mut R,
) -> Result<Option<Found>, Fault>
    requires goes_on { GoesOn map.old.since map.old.recheck.expected map.old.asked map.old block }
    requires block { block < map.old.recheck.expected.job.blocks }
    ensures goes_on { GoesOn map.old.since map.old.recheck.expected map.old.asked map.new (block + 1) }
    ensures takes { Takes map.old.since map.old.recheck.expected map.old map.new block
        (R.remaining reader.old) (R.remaining reader.new) result }
{
    match next_block(reader, &mut map.bytes)? {
        BlockRead::Bytes => {
            let seen = map.check.feed(block, &map.bytes);
            Ok(Some(find(map.since, map.recheck.expected(), block, &map.bytes, seen)))
        }
        BlockRead::Unread => {
            let is_asked = map.check.wants(block);
            map.unread = map.unread || is_asked;
            Ok(Some(find_unread(map.since, map.recheck.expected(), block, is_asked)))
        }
        BlockRead::End => Ok(None),
    }
}
