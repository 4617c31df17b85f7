//! What is given once, what never differs, and when states are kept, as laws of every trace. The
//! functions have nothing to run.

ghost use Rattle.net_world.specs.Claims.{OfEachList, OfEachTrace};
ghost use Rattle.net_world.specs.Passes.{NoPacketConflicts, NoCopyConflicts};
ghost use Rattle.net_world.specs.Headline.{StatePacketsAreEqual, OneTextOfEachRun, OneTextOfEachAttempt, RunsAreGivenOnce, AttemptsAreGivenOnce, StartsAreAcceptedOnce, KeptWhereServed, KeptWhereCut};

use crate::passes::{held_states_were_sent, sent_states_were_taken};
use crate::verdict::one_state_of_each_job;
use client_core::{acks_are_for_kept_states, one_text, packets_go_to_peers, triggers_end_well};
use mirror_core::packets_go_to_the_client;
use server_core::{
    cuts_when_kept, numbers_grow, packets_go_to_client, starts, the_taken, the_untaken,
};

/// No state that was sent differs from the kept one of its key, at the client or at the mirror, or from
/// another that was sent.
pub fn nothing_differs()
    ensures kept { OfEachTrace NoPacketConflicts }
    ensures copied { OfEachTrace NoCopyConflicts }
    ensures packets { OfEachList StatePacketsAreEqual }
{
    verify_state::found_states();
    sent_states_were_taken();
    held_states_were_sent();
    one_state_of_each_job();
    the_taken();
    the_untaken();
    numbers_grow();
    starts();
    packets_go_to_client();
    packets_go_to_peers();
    packets_go_to_the_client();
}

/// All Jobs packets of a run carry one text, and all Verify packets of an attempt one run and text.
pub fn one_text_of_each()
    ensures runs { OfEachTrace OneTextOfEachRun }
    ensures attempts { OfEachTrace OneTextOfEachAttempt }
{
    one_text();
    packets_go_to_client();
    packets_go_to_peers();
    packets_go_to_the_client();
}

/// Runs and attempts are given once, and each server accepts a Start of a run once, over cuts, restarts
/// and lost notes.
pub fn numbers_are_given_once()
    ensures runs { OfEachTrace RunsAreGivenOnce }
    ensures attempts { OfEachTrace AttemptsAreGivenOnce }
    ensures starts { OfEachList StartsAreAcceptedOnce }
{
    client_core::numbers_are_given_once();
    numbers_grow();
}

/// Where a trigger has ended well at a server, each state that it took in the run is kept; where the
/// server asked for the cut, each was kept by then.
pub fn ends_are_kept()
    ensures served { OfEachTrace KeptWhereServed }
    ensures cut { OfEachTrace KeptWhereCut }
{
    verify_state::found_states();
    sent_states_were_taken();
    held_states_were_sent();
    one_state_of_each_job();
    the_taken();
    the_untaken();
    numbers_grow();
    starts();
    packets_go_to_client();
    packets_go_to_peers();
    packets_go_to_the_client();
    triggers_end_well();
    acks_are_for_kept_states();
    cuts_when_kept();
}
