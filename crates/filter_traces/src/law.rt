//! The laws of fleets of filters. The functions have nothing to run.

ghost use Rattle.filter_traces.specs.Laws.{FleetsAreTraces, FleetsCanBegin, FleetsCanBeginAgain};

use client_core::notes_are_read_back;
use messages::{frames_are_read_back, frames_are_readable};
use net_world::{
    ends_are_kept, frames_are_of_packets, nothing_differs, numbers_are_given_once,
    one_state_of_each_job, one_text_of_each, only_sent_is_heard, sent_are_in_range,
    shown_reports_were_made,
};

/// Whatever happens to the filters of a client, its servers and its mirror, what came to their nodes is one trace, of
/// just the frames that they sent; and they hold one state of each job: the one that its server took, which counts the
/// writes that were completed by then, and since which no write was issued there before a check with it. Each report
/// that the client holds is one that a check of its server was done with.
pub fn fleet_law()
    ensures { FleetsAreTraces }
{
    only_sent_is_heard();
    sent_are_in_range();
    frames_are_of_packets();
    frames_are_readable();
    frames_are_read_back();
    one_state_of_each_job();
    shown_reports_were_made();
    ends_are_kept();
    nothing_differs();
    numbers_are_given_once();
    one_text_of_each();
}

/// A fleet of any number of servers can begin over empty notes, with a mirror, in any generation, and without one.
pub fn fleets_begin_law()
    ensures { FleetsCanBegin }
{
    frames_are_of_packets();
}

/// A fleet without a mirror can begin over numbers that are drawn, and over servers that have served other fleets,
/// in runs up to these numbers.
pub fn fleets_begin_again_law()
    ensures { FleetsCanBeginAgain }
{
    frames_are_of_packets();
    notes_are_read_back();
}
