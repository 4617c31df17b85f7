//! Laws of the check, over all jobs, states and contents, and an example. The functions have
//! nothing to run.

ghost use Rattle.recheck.specs.Laws.{FaultsAreLosses, FaultsEndChecks, HoldersAreNoFaults, SameStatesCheckAlike};
ghost use Rattle.std.specs.Prelude.{◌≡◌, false, [], ◌∷◌, Some, None};
ghost use Rattle.recheck.specs.Expected.{expected_by};
ghost use Rattle.recheck.specs.Report.{report};
ghost use Rattle.recheck.specs.Examples.{first_key, two_writes, one_done, half_written};

use fc_base::ReportEnd;

/// A block is a fault exactly where some write to it has completed, and it holds neither what the
/// last of these put there nor what any write in flight to it does. So a block that holds one of
/// them is none.
pub fn faults_are_losses()
    ensures losses { FaultsAreLosses }
    ensures holders { HoldersAreNoFaults }
{}

/// Checks by two states that are the same tell the same, of any blocks with any content.
pub fn same_states_check_alike()
    ensures { SameStatesCheckAlike }
{}

/// A check that ends at a fatal fault has the report of the whole, however many blocks stand behind.
pub fn faults_end_checks()
    ensures { FaultsEndChecks }
{}

/// Two blocks, of which the second never got its write: in a full pass that is a fault, and by a
/// state that doesn't count the write the block isn't checked.
pub fn examples()
    ensures full_pass { report false (expected_by first_key two_writes None) half_written
        (0 ∷ 1 ∷ [])
        ≡ record { checked = 2; faults = 1; first = 1 ∷ []; end = ReportEnd.Whole } }
    ensures by_a_state { report false
        (expected_by first_key two_writes (Some one_done)) half_written (0 ∷ 1 ∷ [])
        ≡ record { checked = 1; faults = 0; first = []; end = ReportEnd.Whole } }
{}
