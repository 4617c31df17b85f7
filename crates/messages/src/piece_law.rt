//! The laws of pieces.

ghost use Rattle.messages.specs.FrameLaws.{FramesAreFew, FramesAreRead, FramesAreReadable, NoFrameBeginsAnother, OnlyFramesAreRead};
ghost use Rattle.messages.specs.PieceLaws.{PiecesGiveTheBytes, PiecesGiveThePacket, OnlyWholeBodiesAreGiven, OnlySentComesTogether, OnlySentIsGiven};

use crate::law::{lengths_are_bounded, one_spelling};

/// The pieces of a body come together in any order, and however often they come.
pub fn pieces_come_together()
    ensures bytes { PiecesGiveTheBytes }
    ensures packet { PiecesGiveThePacket }
{
    verify_state::one_spelling();
}

/// A packet is given exactly where the last place is filled and the bytes in order are its body.
pub fn only_whole_bodies_are_given()
    ensures { OnlyWholeBodiesAreGiven }
{}

/// Of frames of some packets, among which a tag names one body, only those packets come together: from what such frames
/// left, by the next piece, and from nothing, by whatever came.
pub fn only_sent_comes_together()
    ensures step { OnlySentComesTogether }
    ensures all { OnlySentIsGiven }
{
    verify_state::one_spelling();
}

/// The frames of a packet in its ranges are in theirs, also the pieces of one that is cut, and short enough to be read.
pub fn frames_are_readable()
    ensures { FramesAreReadable }
{
    lengths_are_bounded();
}

/// Each frame is read back from its bytes.
pub fn frames_are_read_back()
    ensures { FramesAreRead }
{
    verify_state::one_spelling();
}

/// Packets and pieces can stand one after another without a mark between them: the header tells which it is,
/// and its length says where it ends.
pub fn no_frame_begins_another()
    ensures { NoFrameBeginsAnother }
{
    verify_state::one_spelling();
}

/// What bytes without a fault say is a frame that `encode_frame` takes, and they are its bytes but where a whole packet
/// holds a verify state in layout 1.
pub fn only_frames_are_read()
    ensures { OnlyFramesAreRead }
{
    verify_state::one_spelling();
    verify_state::bytes_say_states();
    one_spelling();
}

/// The frames of a packet are at most 17, of at most 1,073 bytes each, and together they have at most 49 bytes each beyond
/// its body.
pub fn frames_are_few()
    ensures { FramesAreFew }
{
    verify_state::one_spelling();
}
