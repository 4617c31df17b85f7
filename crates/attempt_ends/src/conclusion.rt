//! How an attempt ended, in one word.

ghost use Rattle.std.specs.Prelude.{◌≡◌, ◌≤◌, length};
ghost use Rattle.attempt_ends.specs.declared.place.TheConstants.{PLACES};
ghost use Rattle.attempt_ends.specs.AttemptEnds.{some_has_faults, some_is_left_out, some_says_nothing, attempt_end, sums_of};

use crate::ends::EndAt;

/// How an attempt ended, by how it ended at all places.
#[derive(Clone, Copy, Debug, PartialEq, Eq)]
pub enum AttemptEnd {
    /// Each place was checked by its state, some blocks of it, and none is at fault.
    Sound,
    /// Blocks are at fault, whatever else there is.
    Faults,
    /// Some of what should have been checked wasn't.
    NotWhole,
    /// There is nothing that a check by a state has said of some place, or there is no place.
    NoVerdict,
}

/// How an attempt ended that ended so at its places.
pub fn attempt_end(ends: &[EndAt]) -> AttemptEnd
    ensures { result ≡ attempt_end ends.now }
{
    if some_has_faults(ends) {
        AttemptEnd::Faults
    } else if some_is_left_out(ends) {
        AttemptEnd::NotWhole
    } else if ends.is_empty() || some_says_nothing(ends) {
        AttemptEnd::NoVerdict
    } else {
        AttemptEnd::Sound
    }
}

fn some_has_faults(ends: &[EndAt]) -> bool
    ensures { result ≡ some_has_faults ends.now }
{
    ends.iter().any(|at| at.end.has_faults())
}

fn some_is_left_out(ends: &[EndAt]) -> bool
    ensures { result ≡ some_is_left_out ends.now }
{
    ends.iter().any(|at| at.end.is_left_out())
}

fn some_says_nothing(ends: &[EndAt]) -> bool
    ensures { result ≡ some_says_nothing ends.now }
{
    ends.iter().any(|at| at.end.says_nothing())
}

/// How many blocks were checked by their states at all places together, and how many are at fault.
#[derive(Clone, Copy, Debug)]
pub struct Sums {
    pub checked: u64,
    pub faults: u64,
}

/// The sums of what was counted by states.
pub fn sums_of(ends: &[EndAt]) -> Sums
    requires { length ends.now ≤ PLACES }
    ensures { result ≡ sums_of ends.now }
{
    let mut checked = 0u64;
    let mut faults = 0u64;
    for at in ends {
        let counts = at.end.counts_by_state();
        checked += u64::from(counts.checked);
        faults += u64::from(counts.faults);
    }
    Sums { checked, faults }
}
