//! Instances of the laws of `targets`. The function has nothing to run.

ghost use Rattle.uses.specs.Losses.{OneIsAhead, SurvivorsAreThere, LossIsAFault, SoundBlockHasSoundUnits, BlockIsItsUnit, TileIsARun};

use targets::{examples, front_law, loss_law, tour_law, unit_law};

/// Three writes to one block, and two runs, of which one was told less; a block of two sectors that
/// holds a write in flight, whole or torn; and a tour of two tiles, of which one is taken.
pub fn examples_of_targets()
    ensures ahead { OneIsAhead }
    ensures survivors { SurvivorsAreThere }
    ensures losses { LossIsAFault }
    ensures sound { SoundBlockHasSoundUnits }
    ensures whole { BlockIsItsUnit }
    ensures tile { TileIsARun }
{
    examples();
    front_law();
    loss_law();
    unit_law();
    tour_law();
}
