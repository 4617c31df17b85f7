//! Instances of the laws of `diagnosis`. The function has nothing to run.

ghost use Rattle.uses.specs.Diagnoses.{SaysThatAlone, IsLostAlone, IsMisdirected, LostIsOlder, IsUnissued, IsFar, IsToldAsItsStamp};

use diagnosis::{
    each_block_holds_one_kind, named_writes_are_held, other_writes_are_far,
    own_writes_are_what_they_are_told, pieces_say, sectors_say_one_thing,
};

/// Two blocks of one sector, six writes of which three are done, and a block that holds another
/// write than it should: one that is lost, one to the other block, one that was never issued.
pub fn examples_of_diagnosis()
    ensures says { SaysThatAlone }
    ensures alone { IsLostAlone 0 }
    ensures misdirected { IsMisdirected }
    ensures older { LostIsOlder }
    ensures unissued { IsUnissued }
    ensures far { IsFar }
    ensures told { IsToldAsItsStamp }
{
    sectors_say_one_thing();
    each_block_holds_one_kind();
    named_writes_are_held();
    own_writes_are_what_they_are_told();
    other_writes_are_far();
    pieces_say();
}
