//! A law of frames. The function has nothing to run.

ghost use Rattle.messages.specs.NetworkLaws.{FramesAreSpelled};

use crate::piece_law::frames_are_readable;

/// The frames of a packet in its ranges are spelled, so that a hub can note them.
pub fn frames_are_spelled()
    ensures { FramesAreSpelled }
{
    frames_are_readable();
}
