//! What holds of every list of what came to a mirror. The functions have nothing to run.

ghost use Rattle.mirror_core.specs.Laws.{FirstKeptStays, GenerationsRise, KeptWasSent, NotedWasSent, CopiesAreKept, CopiesAreNoted, CopyOksAreFor, GrantsAreNoted, PacketsGoToTheClient, LooksAtAll, NotesKeepRanges, PacketsAreInRange};
ghost use Rattle.mirror_core.specs.Bounds.{FramesAreShort};
ghost use Rattle.mirror_core.specs.Examples.{Grants, KeepsTheFirst, TakesItsOwn, GoesDown, ForgetsNothing};

/// A kept state is never replaced.
pub fn first_kept_stays()
    ensures { FirstKeptStays }
{
    verify_state::found_states();
}

/// The generation never falls.
pub fn generations_rise()
    ensures { GenerationsRise }
{}

/// Each kept state was there at the opening, or came in a Copy of the client.
pub fn kept_was_sent()
    ensures kept { KeptWasSent }
    ensures noted { NotedWasSent }
{
    verify_state::found_after_a_push();
}

/// Each Copy that is sent is of a state in the note, and has the kept state of its key.
pub fn copies_are_kept()
    ensures kept { CopiesAreKept }
    ensures noted { CopiesAreNoted }
{
    verify_state::found_states();
    verify_state::found_after_a_push();
}

/// A CopyOk is sent only for a state that is kept by then.
pub fn copy_oks_are_for_kept_states()
    ensures { CopyOksAreFor }
{
    verify_state::found_after_a_push();
}

/// A Granted is sent only of the generation that the note has by then.
pub fn grants_are_noted()
    ensures { GrantsAreNoted }
{}

/// What a mirror sends goes to the client, and is of a kind that mirrors send.
pub fn packets_go_to_the_client()
    ensures { PacketsGoToTheClient }
{}

/// A mirror that is on answers its looks from all that came.
pub fn looks_at_all()
    ensures { LooksAtAll }
{}

/// A note keeps its ranges, where the packets that come keep theirs.
pub fn notes_keep_ranges()
    ensures { NotesKeepRanges }
{
    verify_state::found_after_a_push();
}

/// The packets that a mirror sends are within the ranges of packets, where what came is within its.
pub fn packets_are_in_range()
    ensures { PacketsAreInRange }
{
    notes_keep_ranges();
}

/// An event sends at most 1,025 frames of together 160,000 bytes, where what came is within its ranges.
pub fn frames_are_short()
    ensures { FramesAreShort }
{
    notes_keep_ranges();
    messages::lengths_are_bounded();
}

/// A list of frames that can be followed by hand, and what a mirror answers in it.
pub fn examples()
    ensures grants { Grants }
    ensures keeps { KeepsTheFirst }
    ensures takes { TakesItsOwn }
    ensures goes_down { GoesDown }
    ensures forgets { ForgetsNothing }
{}
