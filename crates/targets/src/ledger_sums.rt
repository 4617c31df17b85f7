//! How many blocks a check by a ledger tells of each kind.

ghost use Rattle.std.specs.Prelude.{◌≡◌, ◌≤◌, ◌<◌, ◌+◌, ◌++◌, OnOk, codes};
ghost use Rattle.std.specs.Io.KnownBytes.{Appends};
ghost use Rattle.targets.specs.MapKinds.{all_lines, kinds_words, sum_words};
ghost use Rattle.targets.specs.LedgerSteps.{all_told, no_sums, with_found};

use crate::block_verdict::BlockVerdict;
use crate::kind_counts::{KindCounts, no_lines, with_line, write_kinds, write_sum};
use crate::ledger_found::Found;
use fc_base::MAX_BLOCKS;
use std::io;
use std::io::Write;

/// How many blocks are told of each kind that a map has, and how many of those at rest are lost.
#[derive(Clone, Copy)]
pub(crate) struct Sums {
    pub(crate) kinds: KindCounts,
    pub(crate) at_rest: u32,
}

/// No block yet.
pub(crate) fn no_sums() -> Sums
    ensures { result ≡ no_sums }
{
    Sums {
        kinds: no_lines(),
        at_rest: 0,
    }
}

/// The sums with one more block, at which this is found.
pub(crate) fn with_found(sums: Sums, found: &Found) -> Sums
    requires { all_told sums < MAX_BLOCKS }
    ensures value { result ≡ with_found sums found.now }
    ensures few { all_told result ≤ all_told sums + 1 }
{
    match found {
        Found::Unchecked => sums,
        Found::Sound => sums,
        Found::Written(told) => Sums {
            kinds: with_line(sums.kinds, told),
            ..sums
        },
        Found::RestUnread => Sums {
            kinds: with_line(sums.kinds, &BlockVerdict::Unread),
            ..sums
        },
        Found::Rest(_) => Sums {
            at_rest: sums.at_rest + 1,
            ..sums
        },
    }
}

/// Writes the sums that aren't 0, as ` lost 4 torn 1 at-rest 2`.
pub(crate) fn write_sums<W: Write>(writer: &mut W, sums: &Sums) -> io::Result<()>
    ensures { OnOk result (Appends (W.contents writer.old) (W.contents writer.new)
        (kinds_words sums.now.kinds ++ sum_words (codes "at-rest") sums.now.at_rest)) }
{
    write_kinds(writer, &sums.kinds)?;
    write_sum(writer, "at-rest", sums.at_rest)
}
