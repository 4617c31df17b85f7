//! What holds of every legal history of a window, and an example. The functions have nothing to run.

ghost use Rattle.engine.specs.Counting.{CountsTheCompleted, ComesToPossible, MarksCountTheCompleted, ComesToPossibleMarks, StaysInOneWindow};
ghost use Rattle.engine.specs.Sets.{InFlightIsNotDone, OpenIsNotFailed, DoneWasIssued, RoomIsRight};
ghost use Rattle.std.specs.Prelude.{◌≡◌, [], ◌∷◌};
ghost use Rattle.engine.specs.History.{issue, done, in_flight, recent};
ghost use Rattle.engine.specs.Kept.{kept_of, room_of};

use crate::room::Room;

/// Why a verify state may forget old completions: the last two windows of them and the number of
/// writes issued count exactly the completed writes, and never make an impossible state.
pub fn counting_law()
    ensures counts_the_completed { CountsTheCompleted }
    ensures comes_to_possible { ComesToPossible }
{}

/// Why a verify state may keep marks alone: with the number of writes issued they count exactly the
/// completed writes, and never make an impossible state.
pub fn marks_law()
    ensures counts_the_completed { MarksCountTheCompleted }
    ensures comes_to_possible { ComesToPossibleMarks }
{}

/// Why a window needs one slot for each of its numbers: all writes in flight lie within one window
/// below the next number.
pub fn in_flight_law()
    ensures { StaysInOneWindow }
{}

/// A write is issued, and is then in flight until it completes, and open until it completes or
/// fails.
pub fn sets_law()
    ensures in_flight { InFlightIsNotDone }
    ensures open_writes { OpenIsNotFailed }
    ensures completed { DoneWasIssued }
{}

/// Why the room may be read from the writes in flight alone.
pub fn room_law()
    ensures { RoomIsRight }
{}

/// At depth and window 2 writes 0 and 1 are issued, and write 1 completes first: write 0 holds the
/// next write back until it completes, too. The completions are kept in the order in which they
/// came.
pub fn window_examples()
    ensures flies { in_flight (done 1 ∷ issue 1 ∷ issue 0 ∷ []) ≡ 0 ∷ [] }
    ensures full { room_of (kept_of 2 2 (issue 1 ∷ issue 0 ∷ [])) ≡ Room.Depth }
    ensures held { room_of (kept_of 2 2 (done 1 ∷ issue 1 ∷ issue 0 ∷ [])) ≡ Room.Held }
    ensures goes_on { room_of (kept_of 2 2 (done 0 ∷ done 1 ∷ issue 1 ∷ issue 0 ∷ [])) ≡ Room.Open }
    ensures kept { recent 2 (done 0 ∷ done 1 ∷ issue 1 ∷ issue 0 ∷ []) ≡ 1 ∷ 0 ∷ [] }
{}
