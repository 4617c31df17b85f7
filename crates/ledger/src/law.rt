//! What holds of every ledger, over any runs and checks. The functions have nothing to run.

ghost use Rattle.std.specs.Prelude.{◌≡◌, [], ◌∷◌};
ghost use Rattle.ledger.specs.Examples.{sevens, eights_and_zeros, second_run, two_runs, story};
ghost use Rattle.ledger.specs.Places.{after_check};
ghost use Rattle.ledger.specs.Reports.{report};
ghost use Rattle.ledger.specs.Stories.{NothingLost, LeavesAlone, ran};
ghost use Rattle.ledger.specs.Possible.{StaysPossible};
ghost use Rattle.ledger.specs.Laws.{OneRunIsTheCheck, OneRunReports, HoldersAreNoFaults, WhatStaysIsNoFault, NothingIsTold, LossAtRestIsTold, OldLossIsTold, PlacesHaveTheirEntries, NoReportTellsAFault};

use fc_base::ReportEnd;

/// One run over an empty ledger is the check of that run by its state.
pub fn one_run()
    ensures { OneRunIsTheCheck }
{}

/// The report of one run over an empty ledger is that of the check of that run.
pub fn one_run_reports()
    ensures { OneRunReports }
{}

/// What is known behind runs of jobs of the blocks' size is possible.
pub fn stays_possible()
    ensures { StaysPossible }
{}

/// A block that holds a write of its entry is no fault.
pub fn holders()
    ensures { HoldersAreNoFaults }
{}

/// What a check has seen and stays is no fault.
pub fn stays()
    ensures { WhatStaysIsNoFault }
{}

/// Where nothing is lost of a block, it is no fault, over any list of runs, lost runs and checks. Where a check has found
/// a block sound, none of the later runs has a write to it, and it then holds other bytes, it is one.
pub fn rest_law()
    ensures kept { NothingIsTold }
    ensures lost { LossAtRestIsTold }
    ensures old_loss { OldLossIsTold }
{}

/// What is known of a place behind any list of steps is the entry of each block behind them: so where none of them has
/// lost anything, no report tells a fault.
pub fn place_law()
    ensures entries { PlacesHaveTheirEntries }
    ensures reports { NoReportTellsAFault }
{}

/// A story in which nothing is lost of either block, and whose last run has nothing to do with block 1. Behind its two
/// runs and the check between them, block 1, to which the second run has no write, holds zeros: it is lost, and
/// told once. Where both blocks hold what the first run left, it is block 0 that is lost.
pub fn examples()
    ensures kept { NothingLost sevens story 0 × NothingLost sevens story 1 }
    ensures alone { LeavesAlone 1 (ran second_run) }
    ensures at_rest { report two_runs eights_and_zeros
        ≡ record { checked = 2; faults = 1; first = 1 ∷ []; end = ReportEnd.Whole } }
    ensures once { report (after_check eights_and_zeros two_runs) eights_and_zeros
        ≡ record { checked = 1; faults = 0; first = []; end = ReportEnd.Whole } }
    ensures in_flight { report two_runs sevens
        ≡ record { checked = 2; faults = 1; first = 0 ∷ []; end = ReportEnd.Whole } }
{}
