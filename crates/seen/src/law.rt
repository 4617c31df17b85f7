//! What holds of all that is seen of each world. The functions have nothing to run.

ghost use Rattle.seen.specs.Claims.{OneState, EachIsTaken, EachReportIsExact, EachReportWasTold, NoSavedIsOfNone, CutsAreBehindAcks, AcksAreOfKept, RefusalsChangeNothing, UnknownIsRefused, WhatComesIsKept, EndedIsKept, NumbersAreGivenOnce};
ghost use Rattle.seen.specs.Watching.{OfAllThatIsSeen};

use client_core::{acks_are_for_kept_states, first_kept_stays, packets_go_to_peers};
use messages::{lengths_are_bounded, only_sent_comes_together};
use mirror_core::packets_go_to_the_client;
use net_world::{
    checks_are_exact, each_world_is_a_trace, frames_are_of_packets, honest_disks,
    one_state_of_each_job, sent_are_in_range, sent_frames_are_read, shown_reports_were_made,
    tags_name_one_body,
};
use recheck::reports_fit;
use server_core::{
    counts_the_done, cuts_when_kept, due_starts, legal_histories, numbers_grow, one_taking,
    open_check_is_last, packets_go_to_client, quiet, starts, the_taken, the_untaken,
    with_was_heard,
};
use verify_state::{found_after_a_push, found_states};

/// Two states of one key that are seen are the same.
pub fn one_state()
    ensures { OfAllThatIsSeen OneState }
{
    sent_frames_are_read();
    frames_are_of_packets();
    each_world_is_a_trace();
    one_state_of_each_job();
    one_taking();
}

/// A state that is seen was taken where it is first seen: by its server, at a Trigger of its run, with
/// exactly the writes that were done by then; and between the taking and any report of a check of that run no further
/// write is given there.
pub fn each_is_taken()
    ensures { OfAllThatIsSeen EachIsTaken }
{
    sent_frames_are_read();
    frames_are_of_packets();
    each_world_is_a_trace();
    one_state_of_each_job();
    one_taking();
    packets_go_to_client();
    packets_go_to_peers();
    packets_go_to_the_client();
    only_sent_comes_together();
    tags_name_one_body();
    sent_are_in_range();
    lengths_are_bounded();
    reports_fit();
    legal_histories();
    numbers_grow();
    starts();
    due_starts();
    open_check_is_last();
    counts_the_done();
    quiet();
    net_world::numbers_are_given_once();
}

/// The report that a check is told is the one of what its file is seen to hold. Where it is made by a state, it blames
/// a disk that is seen to be honest only for blocks to which a write was in flight at the taking.
pub fn each_report_is_exact()
    ensures { OfAllThatIsSeen EachReportIsExact }
{
    sent_frames_are_read();
    frames_are_of_packets();
    each_world_is_a_trace();
    one_state_of_each_job();
    one_taking();
    packets_go_to_client();
    packets_go_to_peers();
    packets_go_to_the_client();
    only_sent_comes_together();
    tags_name_one_body();
    sent_are_in_range();
    lengths_are_bounded();
    reports_fit();
    legal_histories();
    numbers_grow();
    starts();
    due_starts();
    open_check_is_last();
    counts_the_done();
    quiet();
    net_world::numbers_are_given_once();
    checks_are_exact();
    with_was_heard();
    honest_disks();
}

/// Each Report that a server sends is of a check that was told it, of that run, attempt and job, and with that report.
pub fn each_report_was_told()
    ensures { OfAllThatIsSeen EachReportWasTold }
{
    sent_frames_are_read();
    frames_are_of_packets();
    each_world_is_a_trace();
    one_state_of_each_job();
    one_taking();
    packets_go_to_client();
    packets_go_to_peers();
    packets_go_to_the_client();
    only_sent_comes_together();
    tags_name_one_body();
    sent_are_in_range();
    lengths_are_bounded();
    reports_fit();
    legal_histories();
    numbers_grow();
    starts();
    due_starts();
    open_check_is_last();
    counts_the_done();
    quiet();
    net_world::numbers_are_given_once();
    checks_are_exact();
    with_was_heard();
    honest_disks();
    shown_reports_were_made();
}

/// The client tells a check that there is no state only where its note shows none of that key.
pub fn no_saved_is_of_none()
    ensures { OfAllThatIsSeen NoSavedIsOfNone }
{
    sent_frames_are_read();
    frames_are_of_packets();
    packets_go_to_client();
    packets_go_to_peers();
    packets_go_to_the_client();
    client_core::no_saved_is_of_none();
}

/// A server asks for its cut only where a Trigger of the run ordered it, and once each state that was seen of the run
/// and server is acknowledged.
pub fn cuts_are_behind_acks()
    ensures { OfAllThatIsSeen CutsAreBehindAcks }
{
    sent_frames_are_read();
    frames_are_of_packets();
    each_world_is_a_trace();
    one_state_of_each_job();
    one_taking();
    packets_go_to_client();
    packets_go_to_peers();
    packets_go_to_the_client();
    only_sent_comes_together();
    tags_name_one_body();
    sent_are_in_range();
    lengths_are_bounded();
    reports_fit();
    legal_histories();
    numbers_grow();
    starts();
    due_starts();
    open_check_is_last();
    counts_the_done();
    quiet();
    cuts_when_kept();
}

/// The client acknowledges what its note shows then, or a job of which its server has said that it has no state, and of
/// which none is seen.
pub fn acks_are_of_kept()
    ensures { OfAllThatIsSeen AcksAreOfKept }
{
    sent_frames_are_read();
    frames_are_of_packets();
    each_world_is_a_trace();
    packets_go_to_client();
    packets_go_to_peers();
    packets_go_to_the_client();
    only_sent_comes_together();
    tags_name_one_body();
    sent_are_in_range();
    lengths_are_bounded();
    reports_fit();
    legal_histories();
    acks_are_for_kept_states();
    one_state_of_each_job();
    one_taking();
    numbers_grow();
    starts();
    the_taken();
    the_untaken();
}

/// An event that is refused changes nothing of what is seen: no frame is sent, and the client's note shows what it
/// showed before.
pub fn refusals_change_nothing()
    ensures { OfAllThatIsSeen RefusalsChangeNothing }
{}

/// A frame that wasn't sent, and a write that wasn't given, are refused, whatever happens to them.
pub fn unknown_is_refused()
    ensures { OfAllThatIsSeen UnknownIsRefused }
{}

/// A State that has come to the client is shown by its note, at once and behind each later call that the client
/// answers, until the note is lost.
pub fn what_comes_is_kept()
    ensures { OfAllThatIsSeen WhatComesIsKept }
{
    sent_frames_are_read();
    frames_are_of_packets();
    each_world_is_a_trace();
    one_state_of_each_job();
    one_taking();
    found_states();
    found_after_a_push();
    first_kept_stays();
}

/// Where a trigger has ended well at a server, and the note wasn't lost since, it shows each state that is seen of the
/// run and server.
pub fn ended_is_kept()
    ensures { OfAllThatIsSeen EndedIsKept }
{
    sent_frames_are_read();
    frames_are_of_packets();
    each_world_is_a_trace();
    one_state_of_each_job();
    one_taking();
    found_states();
    found_after_a_push();
    first_kept_stays();
    numbers_grow();
    starts();
    the_taken();
    the_untaken();
    packets_go_to_client();
    packets_go_to_peers();
    packets_go_to_the_client();
}

/// No number of a run, and none of an attempt, is told twice, whatever was cut and lost.
pub fn numbers_are_given_once()
    ensures { OfAllThatIsSeen NumbersAreGivenOnce }
{
    each_world_is_a_trace();
    packets_go_to_client();
    packets_go_to_the_client();
    net_world::numbers_are_given_once();
}
