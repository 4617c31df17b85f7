//! Instances of the laws of `messages`. The functions have nothing to run.

ghost use Rattle.uses.specs.Packets.{IsReadBack, SaysAPacket, BeginsNoOther, IsWithinItsLength};
ghost use Rattle.uses.specs.Pieces.{GivesTheBytes, GivesThePacket, IsGivenWhole, IsOfThoseSent, GivesOneThatWasSent, AreReadableAndFew, PieceIsReadBack, PieceBeginsNoOther, SaysAFrame};

use messages::{
    frames_are_few, frames_are_read_back, frames_are_readable, lengths_are_bounded,
    no_frame_begins_another, no_spelling_begins_another, one_spelling, only_frames_are_read,
    only_sent_comes_together, only_whole_bodies_are_given, pieces_come_together,
};

/// A State with the state of a job that was cut off is read back, and is as long as it may be; the
/// bytes of a Start say it, and begin no other packet.
pub fn examples_of_packets()
    ensures read { IsReadBack }
    ensures says { SaysAPacket }
    ensures begins { BeginsNoOther }
    ensures within { IsWithinItsLength 140 }
{
    one_spelling();
    no_spelling_begins_another();
    lengths_are_bounded();
}

/// The job files of two runs are cut into two pieces each. Of one the last piece comes twice before
/// the first, and a piece of the other one comes between.
pub fn examples_of_pieces()
    ensures bytes { GivesTheBytes }
    ensures packet { GivesThePacket }
    ensures whole { IsGivenWhole }
    ensures sent { IsOfThoseSent }
    ensures given { GivesOneThatWasSent }
{
    pieces_come_together();
    only_whole_bodies_are_given();
    only_sent_comes_together();
}

/// These pieces as bytes: they can be read, are few, are read back, begin no other frame, and say
/// what they are.
pub fn examples_of_frames()
    ensures few { AreReadableAndFew }
    ensures read { PieceIsReadBack }
    ensures begins { PieceBeginsNoOther }
    ensures says { SaysAFrame }
{
    frames_are_readable();
    frames_are_few();
    frames_are_read_back();
    no_frame_begins_another();
    only_frames_are_read();
}
