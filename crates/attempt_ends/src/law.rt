//! What holds of each attempt, and rows that can be followed by hand. The functions have nothing to
//! run.

ghost use Rattle.attempt_ends.specs.Laws.{SoundChecksAll, StatesAreGiven};
ghost use Rattle.attempt_ends.specs.Examples.{EndsAtPlaces, Servers, Texts};

/// Where the word is *sound*, each place of which a state of the run is kept was checked by its
/// state, at least one block of it, and none was at fault.
pub fn sound_checks_all()
    ensures { SoundChecksAll }
{}

/// At a place whose check is by a state, each server that wants the state is given it.
pub fn states_are_given()
    ensures { StatesAreGiven }
{
    client_core::first_kept_stays();
}

/// How attempts end.
pub fn examples()
    ensures places { EndsAtPlaces }
    ensures servers { Servers }
    ensures texts { Texts }
{}
