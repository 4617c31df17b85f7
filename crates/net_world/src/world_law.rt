//! What holds of every world. The functions have nothing to run.

ghost use Rattle.net_world.specs.WorldLaws.{EachWorldIsAFrameTrace, EachWorldIsATrace, SentAreFrames, SentFramesAreRead};
ghost use Rattle.net_world.specs.Claims.{OfEachWorld};
ghost use Rattle.net_world.specs.Headline.{ExactReports, NoConflict};

use crate::frame_law::{
    frames_are_of_packets, only_sent_is_heard, sent_are_in_range, tags_name_one_body,
};
use crate::fresh::nothing_differs;
use crate::verdict::one_state_of_each_job;
use messages::{frames_are_read_back, frames_are_readable, only_sent_comes_together};
use recheck::reports_fit;
use server_core::legal_histories;

/// The steps of the nodes of a world are a trace of frames, and what they hear is a trace of packets.
pub fn each_world_is_a_trace()
    ensures frames { EachWorldIsAFrameTrace }
    ensures packets { EachWorldIsATrace }
{
    only_sent_is_heard();
    reports_fit();
    legal_histories();
}

/// The report of each check is that of the job, the state that it is made with, and what the file holds
/// then.
pub fn checks_are_exact()
    ensures { OfEachWorld ExactReports }
{
    each_world_is_a_trace();
    one_state_of_each_job();
}

/// Nothing that happens is refused as another state of a key than the one that the client keeps.
pub fn none_is_a_conflict()
    ensures { OfEachWorld NoConflict }
{
    each_world_is_a_trace();
    only_sent_comes_together();
    frames_are_of_packets();
    tags_name_one_body();
    sent_are_in_range();
    nothing_differs();
    reports_fit();
    legal_histories();
}

/// Each frame that was sent is in its ranges.
pub fn sent_are_frames()
    ensures { SentAreFrames }
{
    each_world_is_a_trace();
    frames_are_of_packets();
    sent_are_in_range();
    frames_are_readable();
    reports_fit();
    legal_histories();
}

/// Each frame that was sent is read back from its bytes.
pub fn sent_frames_are_read()
    ensures { SentFramesAreRead }
{
    sent_are_frames();
    frames_are_read_back();
}
