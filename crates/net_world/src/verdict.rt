//! The verdict theorem, over every trace. The function has nothing to run.

ghost use Rattle.net_world.specs.Claims.{OfEachList, OfEachTrace};
ghost use Rattle.net_world.specs.Headline.{OneTaking, HeldIsTheTaken, CountsTheCompleted, QuietUntilTheCheck};

use crate::passes::{checked_states_were_sent, held_states_were_sent, sent_states_were_taken};
use server_core::{counts_the_done, one_taking, quiet, with_was_heard};

/// Of a job of a run one state is taken at most; all who hold a state of it hold that one; it counts
/// exactly the writes that were completed by then; and where a job is checked with it, no write was
/// issued at that server since, of any job or run.
pub fn one_state_of_each_job()
    ensures once { OfEachList OneTaking }
    ensures held { OfEachTrace HeldIsTheTaken }
    ensures counted { OfEachTrace CountsTheCompleted }
    ensures quiet { OfEachTrace QuietUntilTheCheck }
{
    one_taking();
    sent_states_were_taken();
    verify_state::found_states();
    held_states_were_sent();
    checked_states_were_sent();
    counts_the_done();
    with_was_heard();
    quiet();
}
