//! Worlds that can be followed by hand, and what is seen of them. The function has nothing to run.

ghost use Rattle.seen.specs.Examples.{SeesAState, SeesAReport, SeesHonestDisks, SeesACut, SeesAnAck, SeesItKept, SeesNoState, SeesARefusal, SeesNoFrame, SeesTwoRuns};

use crate::law::{
    acks_are_of_kept, cuts_are_behind_acks, each_is_taken, each_report_is_exact,
    each_report_was_told, ended_is_kept, no_saved_is_of_none, numbers_are_given_once,
    refusals_change_nothing, unknown_is_refused, what_comes_is_kept,
};
use net_world::sent_frames_are_read;
use verify_state::found_states;

/// In worlds that can be followed by hand there is something of which each claim is.
pub fn examples()
    ensures state { SeesAState }
    ensures report { SeesAReport }
    ensures disks { SeesHonestDisks }
    ensures cut { SeesACut }
    ensures ack { SeesAnAck }
    ensures kept { SeesItKept }
    ensures none { SeesNoState }
    ensures refusal { SeesARefusal }
    ensures frame { SeesNoFrame }
    ensures runs { SeesTwoRuns }
{
    net_world::examples();
    found_states();
    sent_frames_are_read();
    each_is_taken();
    each_report_is_exact();
    each_report_was_told();
    no_saved_is_of_none();
    cuts_are_behind_acks();
    acks_are_of_kept();
    refusals_change_nothing();
    unknown_is_refused();
    what_comes_is_kept();
    ended_is_kept();
    numbers_are_given_once();
}
