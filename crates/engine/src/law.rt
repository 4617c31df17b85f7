//! What holds of every legal history, and of one. The functions have nothing to run.

ghost use Rattle.engine.specs.Laws.{AlwaysGoesOn, WritesAreLegal, EndsAreLegal, StatesCountTheDone, LaterWaits, FlyApart, StaysStopped, StaysFinished};
ghost use Rattle.std.specs.Prelude.{◌≡◌, true, false, [], ◌∷◌};
ghost use Rattle.engine.specs.History.{issue, done};
ghost use Rattle.engine.specs.Answers.{answer_to, ticket_of};
ghost use Rattle.engine.specs.Taken.{state_after};
ghost use Rattle.engine.specs.Examples.{first_run};

use crate::issue::Issue;
use crate::window_law::{counting_law, room_law, sets_law};

/// A job never waits for nothing: with no open write it has ended, or it issues its next write.
pub fn progress_law()
    ensures { AlwaysGoesOn }
{}

/// What is answered and accepted keeps the history legal.
pub fn legal_law()
    ensures writes { WritesAreLegal }
    ensures ends { EndsAreLegal }
{
    room_law();
}

/// A state counts every write that has completed, and no other.
pub fn taken_law()
    ensures { StatesCountTheDone }
{
    counting_law();
}

/// Writes to one block follow one another: each is issued only after the one before has completed.
pub fn overlap_law()
    ensures later { LaterWaits }
    ensures apart { FlyApart }
{
    sets_law();
}

/// A job that issues no more writes stays so.
pub fn ended_law()
    ensures stopped { StaysStopped }
    ensures finished { StaysFinished }
{}

/// Of three writes to two blocks the third goes to block 0 again: it waits for write 0, and not for
/// write 1, and after it there is none. A state that is taken in between counts what has completed.
pub fn examples()
    ensures waits { answer_to first_run false (done 1 ∷ issue 1 ∷ issue 0 ∷ []) ≡ Issue.Overlap }
    ensures goes_on { answer_to first_run false (done 0 ∷ issue 1 ∷ issue 0 ∷ [])
        ≡ Issue.Write (ticket_of first_run 2) }
    ensures ends { answer_to first_run false (issue 2 ∷ done 0 ∷ issue 1 ∷ issue 0 ∷ [])
        ≡ Issue.Finished }
    ensures stops { answer_to first_run true (done 0 ∷ issue 1 ∷ issue 0 ∷ []) ≡ Issue.Stopped }
    ensures counts { (state_after first_run (done 1 ∷ issue 1 ∷ issue 0 ∷ [])).counted ≡ 1 ∷ [] }
{}
