//! The laws of nodes that ran under locks. The functions have nothing to run.

ghost use Rattle.assembly.specs.Rising.{HistoriesRise};
ghost use Rattle.assembly.specs.Laws.{MergesNameATrace, MergedOrdersAreMerges, AgreeingNodesAreATrace, AssembledAreHeard, AssembledNodesHoldOneState};

use messages::{frames_are_read_back, frames_are_readable};
use net_world::{
    frames_are_of_packets, one_state_of_each_job, only_sent_is_heard, sent_are_in_range,
};

/// One event more adds its place and its mark to those of the events before it.
pub fn histories_rise()
    ensures { HistoriesRise }
{}

/// Of nodes that agree with a legal journal, each order that keeps the order of every node's events, and
/// that of the journal, names one trace: of just the lists that the histories make, with just the frames
/// that were sent.
pub fn merges_name_a_trace()
    ensures { MergesNameATrace }
{
    only_sent_is_heard();
    sent_are_in_range();
    frames_are_of_packets();
    frames_are_readable();
    frames_are_read_back();
}

/// The order that the journal gives is such a one: before each of its entries come the events of its node
/// up to it, and behind the last what is left of each node.
pub fn merged_orders_are_merges()
    ensures { MergedOrdersAreMerges }
{}

/// So nodes that agree with a legal journal are one trace, which that order names.
pub fn agreeing_nodes_are_a_trace()
    ensures { AgreeingNodesAreATrace }
{
    merges_name_a_trace();
    merged_orders_are_merges();
}

/// What nodes hear that are one trace is a trace of packets, and they hold one state of each job: the one
/// that its server took, which counts the writes that were completed by then, and since which no write was
/// issued there before a check with it.
pub fn assembled_nodes_hold_one_state()
    ensures heard { AssembledAreHeard }
    ensures state { AssembledNodesHoldOneState }
{
    only_sent_is_heard();
    frames_are_of_packets();
    one_state_of_each_job();
}
