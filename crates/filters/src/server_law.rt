//! What holds of a server's filter that is cut, and of what its checks tell. The functions have nothing to run.

ghost use Rattle.filters.specs.ServerCuts.{LivesGoOn};
ghost use Rattle.filters.specs.ServerLosses.{FaultsAreLosses, ListedHaveLost, SurvivorsAreNoFaults, LossesAreFaults};

use engine::{overlap_law, sets_law, taken_law};
use recheck::faults_are_losses;
use write_order::writes_stay_in_the_region;

/// Wherever the answers of a server's filter are cut, at any byte, the note that was saved last says what the list of
/// its server does, with the cut, and the next life stands on both.
pub fn server_cut_law()
    ensures { LivesGoOn }
{}

/// By the blocks that came to a check, its report tells of no fault just where none of them has lost its writes, and
/// lists only such as have. So where each write survives that the state counts, by itself or by a later one to its
/// block, there is no fault; and where one doesn't that had completed, there is one.
pub fn server_loss_law()
    ensures faults { FaultsAreLosses }
    ensures listed { ListedHaveLost }
    ensures survivors { SurvivorsAreNoFaults }
    ensures losses { LossesAreFaults }
{
    sets_law();
    taken_law();
    overlap_law();
    writes_stay_in_the_region();
    faults_are_losses();
}
