//! Frames that are heard as packets, as laws of every trace of frames. The functions have nothing to
//! run.

ghost use Rattle.net_world.specs.InRange.{SentAreInRange};
ghost use Rattle.net_world.specs.FrameLaws.{NodesHearTheirOwn, ServersStand, FramesAreOfPackets, TagsNameOneBody, OnlySentIsHeard};
ghost use Rattle.net_world.specs.Claims.{OfEachFrameTrace, OfTheHeard};
ghost use Rattle.net_world.specs.Headline.{HeldIsTheTaken, PiecesHoldTheTaken};

use crate::fresh::one_text_of_each;
use crate::verdict::one_state_of_each_job;
use messages::{lengths_are_bounded, only_sent_comes_together};

/// All that is sent in a trace is within the ranges of packets.
pub fn sent_are_in_range()
    ensures { SentAreInRange }
{
    client_core::packets_are_in_range();
    server_core::packets_are_in_range();
    mirror_core::packets_are_in_range();
}

/// In each trace a tag names one body: only job files are long enough to be cut, and a run and an
/// attempt have one.
pub fn tags_name_one_body()
    ensures { TagsNameOneBody }
{
    lengths_are_bounded();
    one_text_of_each();
}

/// Each node hears what its own steps say, and the frames that are sent are those of packets.
pub fn frames_are_of_packets()
    ensures own { NodesHearTheirOwn }
    ensures frames { FramesAreOfPackets }
{}

/// A trace of frames says a trace of packets: only packets that were sent are heard.
pub fn only_sent_is_heard()
    ensures { OnlySentIsHeard }
{
    only_sent_comes_together();
    tags_name_one_body();
    sent_are_in_range();
    frames_are_of_packets();
}

/// Whoever holds a state of a job in a trace of frames, pieces that were sent included, holds the one
/// that was taken.
pub fn frames_hold_the_taken()
    ensures held { OfEachFrameTrace (OfTheHeard HeldIsTheTaken) }
    ensures together { OfEachFrameTrace PiecesHoldTheTaken }
{
    only_sent_comes_together();
    tags_name_one_body();
    sent_are_in_range();
    frames_are_of_packets();
    only_sent_is_heard();
    one_state_of_each_job();
}

/// A server's list of frames, in the words of `server_core`, says what the server hears and sends in the
/// trace.
pub fn servers_stand()
    ensures { ServersStand }
{}
