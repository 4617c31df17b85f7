//! How a verify state goes round, as laws of every trace: it is taken by a server, sent, kept by the
//! client and by the mirror, sent back, and held by a check. The functions have nothing to run.

ghost use Rattle.net_world.specs.Claims.{OfEachList, OfEachTrace};
ghost use Rattle.net_world.specs.Passes.{SentStatesWereTaken, CarriedStatesWereSent, KeptStatesWereSent, CopiedStatesWereSent, SavedStatesWereKept, CheckedStatesWereSent};

use client_core::{copies_are_of_states, kept_was_sent, packets_go_to_peers, saved_is_kept};
use mirror_core::{copies_are_kept, packets_go_to_the_client};
use server_core::{packets_go_to_client, the_taken, with_was_heard};

/// Each state that was sent in a State was taken, by the server that its key names.
pub fn sent_states_were_taken()
    ensures { OfEachList SentStatesWereTaken }
{
    the_taken();
    packets_go_to_peers();
    packets_go_to_the_client();
}

/// Each state that a packet carries, or that the client or the mirror has noted, was sent to the client
/// in a State, by the server that its key names, however often a note was lost since.
pub fn held_states_were_sent()
    ensures carried { OfEachTrace CarriedStatesWereSent }
    ensures kept { OfEachTrace KeptStatesWereSent }
    ensures copied { OfEachTrace CopiedStatesWereSent }
{
    the_taken();
    packets_go_to_client();
    packets_go_to_peers();
    packets_go_to_the_client();
    kept_was_sent();
    saved_is_kept();
    copies_are_of_states();
    mirror_core::kept_was_sent();
    copies_are_kept();
}

/// Each state that was sent in a Saved is one that the client kept by then.
pub fn saved_states_were_kept()
    ensures { OfEachList SavedStatesWereKept }
{
    saved_is_kept();
    packets_go_to_client();
    packets_go_to_the_client();
}

/// Each state that a job is checked with was sent to its server in a Saved.
pub fn checked_states_were_sent()
    ensures { OfEachTrace CheckedStatesWereSent }
{
    with_was_heard();
}
