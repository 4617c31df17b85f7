//! Instances of the laws of fleets of filters. The function has nothing to run.

ghost use Rattle.uses.specs.Fleet.{GoesThroughTheStory, BeginsWithAMirror, BeginsOverOlder};

use filter_traces::{fleet_law, fleets_begin_again_law, fleets_begin_law};
use messages::{frames_are_read_back, lengths_are_bounded};

/// A client and one server go through a story of fourteen steps, with a cut, a state and a check. A
/// fleet begins with a mirror, and one over a server that has served others.
pub fn examples_of_fleets()
    ensures story { GoesThroughTheStory }
    ensures mirror { BeginsWithAMirror }
    ensures older { BeginsOverOlder }
{
    lengths_are_bounded();
    frames_are_read_back();
    client_core::notes_are_read_back();
    fleet_law();
    fleets_begin_law();
    fleets_begin_again_law();
}
