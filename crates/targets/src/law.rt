//! Laws of two runs of one job, of which one was told less, and of what a check by a run's state
//! tells. The functions have nothing to run.

ghost use Rattle.std.specs.Prelude.{◌≡◌, [], ◌∷◌, true, false};
ghost use Rattle.targets.specs.Fronts.{HistoriesAreOne, FrontsAreBehind, HistoriesGoOn, IsBehind, OrdersGoOn, OrderedAreIssued, ToldAreCounted, OrderedAreOpen};
ghost use Rattle.targets.specs.Losses.{is_fault_after, SurvivorsAreNoFaults, LossesAreFaults};
ghost use Rattle.targets.specs.LedgerLaws.{WholeChecks};
ghost use Rattle.targets.specs.Tours.{IsTour};
ghost use Rattle.targets.specs.TourLaws.{TilesAreRuns};
ghost use Rattle.targets.specs.WantedExample.{OneBlockSuffices};
ghost use Rattle.targets.specs.WantedLaws.{AskedBlocksSuffice, CheckedBlocksSuffice, DigitsSayWhatIsAsked, OneRunAsksForItsBlocks};
ghost use Rattle.targets.specs.Units.{BlocksAreUnits, SoundBlocksHaveSoundUnits};
ghost use Rattle.targets.specs.Examples.{three_writes, one_told, two_told, holds_write, two_tiles, two_tiles_written};

use crate::notice::Notice;
use engine::{overlap_law, sets_law, taken_law};
use ledger::place_law;
use recheck::faults_are_losses;
use write_order::{writes_fill_their_blocks, writes_stay_in_the_region};

/// A run that is told of each write only once another run of its job was orders nothing that the
/// other one's state doesn't know: each of its writes is counted there, or in flight. So the run
/// of a witness takes the state for a target to which only the run behind it writes. It counts
/// what the witness was told, and refuses no first notice of a write that was ordered.
pub fn front_law()
    ensures one { HistoriesAreOne }
    ensures behind { FrontsAreBehind }
    ensures history { HistoriesGoOn }
    ensures orders { OrdersGoOn }
    ensures issued { OrderedAreIssued }
    ensures counted { ToldAreCounted }
    ensures open_writes { OrderedAreOpen }
{
    sets_law();
    taken_law();
}

/// Why a target that keeps what it reports as done has no fault, also by the state of a run ahead
/// of the one that orders; and why one that has lost a write has a fault. By the state of a run
/// *behind* the one that orders a good target may have faults: that state doesn't know the last
/// writes, which may have gone over those that it counts.
pub fn loss_law()
    ensures survivors { SurvivorsAreNoFaults }
    ensures losses { LossesAreFaults }
{
    sets_law();
    taken_law();
    overlap_law();
    writes_stay_in_the_region();
    faults_are_losses();
}

/// Three writes to one block, and two runs. By the state of the one that was told of writes 0 and
/// 1 the block may hold write 1, as where the other has ordered no more, or write 2, and not write
/// 0. By the state of the one that was told of write 0 alone, write 2 is a fault: where it may have
/// been ordered, that is no state to check by. And a tour of two tiles, of which one is taken.
#[tactic(auto, unfolding(write_order::specs::Stamps::stamped_sector, write_order::specs::Stamps::counting_bytes))]
pub fn examples()
    ensures behind { IsBehind three_writes (Notice.Done 0 ∷ [])
        (Notice.Done 1 ∷ Notice.Done 0 ∷ []) one_told two_told }
    ensures survives { is_fault_after three_writes two_told (holds_write 1) 0 ≡ false }
    ensures flies { is_fault_after three_writes two_told (holds_write 2) 0 ≡ false }
    ensures lost { is_fault_after three_writes two_told (holds_write 0) 0 ≡ true }
    ensures told_less { is_fault_after three_writes one_told (holds_write 2) 0 ≡ true }
    ensures tour { IsTour 0 three_writes.job two_tiles two_tiles_written }
{}

/// A block that holds a write that it may hold is sound by any unit, and by one that is as long as
/// itself only such a block is: so a map without a unit tells what one with the block as its unit
/// does, and a smaller unit takes faults away and adds none.
pub fn unit_law()
    ensures sound { SoundBlocksHaveSoundUnits }
    ensures whole { BlocksAreUnits }
{
    writes_fill_their_blocks();
}

/// Where each block of a target was read, a check by its ledger reports what the check of that content by the ledger
/// does, and the new ledger is the one behind it: so all that holds of ledgers over runs and checks holds of what
/// `ledger_job` writes.
pub fn ledger_law()
    ensures { WholeChecks }
{}

/// A tile of a tour that was taken is a run of what was told of it, whatever was told of other tiles between that: its
/// orders and its state are those that [`write_blocks`](crate::write_blocks) gives of its own notices. So `front_law`
/// and `loss_law` hold of each tile.
pub fn tour_law()
    ensures { TilesAreRuns }
{}

/// A check by a ledger needs to read no other blocks than those that `wanted_job` tells: its lines, its report, its status
/// and its ledger are the same where any other is left out. Behind one run these are the blocks that the check of the run
/// looks at, and a map needs no other.
pub fn wanted_law()
    ensures digits { DigitsSayWhatIsAsked }
    ensures one_run { OneRunAsksForItsBlocks }
    ensures asked { AskedBlocksSuffice }
    ensures checked { CheckedBlocksSuffice }
{
    place_law();
}

/// One run has written one of two blocks of which nothing was asked: the other needn't be read.
pub fn wanted_example()
    ensures { OneBlockSuffices }
{
    wanted_law();
}
