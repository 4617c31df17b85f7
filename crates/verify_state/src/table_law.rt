//! What holds of every table of states, and of its bytes. The functions have nothing to run.

ghost use Rattle.verify_state.specs.TableLaws.{FoundStays, FoundHasItsKey, LastIsFound, FoundOrLast, KeysStayApart, SpelledAreRead, ReadWereSpelled};

use crate::law::bytes_say_states;

/// The state that is found of a key has that key, and stays the one that is found, whatever comes
/// behind.
pub fn found_states()
    ensures stays { FoundStays }
    ensures key { FoundHasItsKey }
{}

/// A state that is added, of whose key there was none, is found; what else is found was found before;
/// and all keys stay different.
pub fn found_after_a_push()
    ensures last { LastIsFound }
    ensures only { FoundOrLast }
    ensures apart { KeysStayApart }
{}

/// States that are spelled are read, in whichever layout they stand.
pub fn spelled_are_read()
    ensures { SpelledAreRead }
{}

/// States that are read were spelled, and keep their ranges.
pub fn read_were_spelled()
    ensures { ReadWereSpelled }
{
    bytes_say_states();
}
