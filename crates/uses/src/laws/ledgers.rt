//! An instance of the law of `targets` of a check by a ledger. The function has nothing to run.

ghost use Rattle.uses.specs.Ledgers.{ALossAtRestIsReported};
ghost use Rattle.targets.specs.Ledgers.{Cell};

use ledger::examples;
use targets::ledger_law;

/// Two runs with a check between them, and a loss at rest: the check of both blocks by the ledger.
pub fn example_of_ledgers()
    ensures { (first second : Cell) → ALossAtRestIsReported first second }
{
    examples();
    ledger_law();
}
