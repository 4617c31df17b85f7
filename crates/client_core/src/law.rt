//! What holds of every list of what came to a client. The functions have nothing to run.

ghost use Rattle.client_core.specs.Laws.{FirstKeptStays, KeptWasSent, NotedWasSent, SavedIsKept, NoSavedIsOfNone, CopiesAreOfStates, AcksAreFor, LossBeginsAnew, LooksAtAll, TickOnlyLooks, NotesKeepRanges, TriggersEndWell, PacketsGoToPeers, PacketsAreInRange, ReportsCame, OneReportEach};
ghost use Rattle.client_core.specs.Numbering.{RunsAreFresh, AttemptsAreFresh, NumbersAreGivenOnce, OneTextOfARun, OneTextOfAnAttempt};
ghost use Rattle.client_core.specs.Bounds.{PacketsAreFew, FramesAreShort};
ghost use Rattle.client_core.specs.Examples.{Begins, WaitsForTheBusy, KeepsTheFirst, TriggersToTheEnd, Verifies, GoesDown, KeepsWhatIsNoted, ForgetsByACut, AsksAgainInOrder, SpendsNumbers};
ghost use Rattle.client_core.specs.MirrorExamples.{NumbersOnceGranted, CopiesWhatIsKept, FetchesWhatWasLost, HearsItsMirrorAlone};

/// A kept state is never replaced, unless the note is lost.
pub fn first_kept_stays()
    ensures { FirstKeptStays }
{
    verify_state::found_states();
}

/// Each kept state, and each state in the note, was there at the opening, or came from its server or from
/// the mirror.
pub fn kept_was_sent()
    ensures kept { KeptWasSent }
    ensures noted { NotedWasSent }
{
    verify_state::found_after_a_push();
}

/// Each state that is sent to a check is the kept one of its key.
pub fn saved_is_kept()
    ensures { SavedIsKept }
{
    verify_state::found_states();
}

/// That there is no state is told to a check only where none of its key is kept.
pub fn no_saved_is_of_none()
    ensures { NoSavedIsOfNone }
{}

/// Each Copy that is sent has a state of the note, or of the State that has just come.
pub fn copies_are_of_states()
    ensures { CopiesAreOfStates }
{}

/// A state is acknowledged only where it is kept, or where the server says that there is none.
pub fn acks_are_for_kept_states()
    ensures { AcksAreFor }
{
    verify_state::found_after_a_push();
}

/// No run and no attempt is given its number twice, whatever was cut, where the note isn't lost.
pub fn numbers_are_fresh()
    ensures runs { RunsAreFresh }
    ensures attempts { AttemptsAreFresh }
{}

/// No number is given twice, though the note was lost, by a client with a mirror.
pub fn numbers_are_given_once()
    ensures { NumbersAreGivenOnce }
{}

/// After the loss of its note a client goes on as one that opens with a blank note.
pub fn loss_begins_anew()
    ensures { LossBeginsAnew }
{}

/// A run has one text, and so has an attempt, which has one run, too.
pub fn one_text()
    ensures runs { OneTextOfARun }
    ensures attempts { OneTextOfAnAttempt }
{}

/// A client that is on answers its looks from all that came.
pub fn looks_at_all()
    ensures { LooksAtAll }
{}

/// A tick changes nothing.
pub fn tick_only_looks()
    ensures { TickOnlyLooks }
{}

/// A note keeps its ranges, where the packets that come keep theirs.
pub fn notes_keep_ranges()
    ensures { NotesKeepRanges }
{
    verify_state::found_after_a_push();
}

/// A trigger ends well at a server only once it has an answer for each job of the run there: a state
/// that is kept, or that there is none.
pub fn triggers_end_well()
    ensures { TriggersEndWell }
{
    first_kept_stays();
    verify_state::found_after_a_push();
}

/// What a client sends goes to a server that it drives or to its mirror, and is of a kind that is for it.
pub fn packets_go_to_peers()
    ensures { PacketsGoToPeers }
{}

/// The packets that a client sends are within the ranges of packets, where what came is within its.
pub fn packets_are_in_range()
    ensures { PacketsAreInRange }
{
    notes_keep_ranges();
}

/// A call sends at most 8 packets, and a tick one to each server for each request of this life.
pub fn packets_are_few()
    ensures { PacketsAreFew }
{}

/// Each packet goes in at most 17 frames of together 17,233 bytes, where what came is within its ranges.
pub fn frames_are_short()
    ensures { FramesAreShort }
{
    packets_are_few();
    packets_are_in_range();
    messages::frames_are_few();
    messages::lengths_are_bounded();
}

/// Each report came from its server, and of each attempt, server and job one is kept.
pub fn reports_came()
    ensures came { ReportsCame }
    ensures one_each { OneReportEach }
{}

/// Lists of calls that can be followed by hand, and what a client answers in them.
pub fn examples()
    ensures begins { Begins }
    ensures waits { WaitsForTheBusy }
    ensures keeps { KeepsTheFirst }
    ensures triggers { TriggersToTheEnd }
    ensures verifies { Verifies }
    ensures goes_down { GoesDown }
    ensures noted { KeepsWhatIsNoted }
    ensures forgets { ForgetsByACut }
    ensures order { AsksAgainInOrder }
    ensures spends { SpendsNumbers }
    ensures granted { NumbersOnceGranted }
    ensures copies { CopiesWhatIsKept }
    ensures fetches { FetchesWhatWasLost }
    ensures mirror_alone { HearsItsMirrorAlone }
{}
