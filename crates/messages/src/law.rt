//! The laws of frames: each packet has one spelling, and no spelling begins another.

ghost use Rattle.messages.specs.Laws.{SpellingsAreRead, OnlyPacketsAreRead, NoneBeginsAnother, LengthsAreBounded};

/// Each packet is read back from its frame. What bytes without a fault say is a packet, and they are its frame but where
/// they hold a verify state in layout 1, which is read and never written.
pub fn one_spelling()
    ensures read { SpellingsAreRead }
    ensures said { OnlyPacketsAreRead }
{
    verify_state::one_spelling();
    verify_state::bytes_say_states();
}

/// Frames can stand one after another without a mark between them: the length in the header says
/// where a frame ends.
pub fn no_spelling_begins_another()
    ensures { NoneBeginsAnother }
{
    verify_state::one_spelling();
}

/// The most bytes that a body of each kind has, for those who make room first.
pub fn lengths_are_bounded()
    ensures { LengthsAreBounded }
{
    verify_state::one_spelling();
}
