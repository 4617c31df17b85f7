//! What holds of every list of what came to a server. The functions have nothing to run.

ghost use Rattle.server_core.specs.Laws.{TakenAtMostOnce, NumbersGrow, StartsOnce, PresentIsLast, LooksAtAll, HoldsTheTaken, SendsTheTaken, StatesTellJobs, NoStateIsUntaken, TakingsStay, TextsGiveSets, StagingsHaveSets, RunsHaveSets, ChecksHaveSets, HistoriesAreLegal, CountsTheDone, QuietWhileLast, QuietUntilChecked, WithWasHeard, CutsWhenKept, PacketsAreFew, PacketsAreInRange};
ghost use Rattle.server_core.specs.Bounds.{FramesAreShort};
ghost use Rattle.server_core.specs.DueStart.{DueIsStart};
ghost use Rattle.server_core.specs.Follows.{WordsFollow, StartsFollow};
ghost use Rattle.server_core.specs.Handles.{RefusedStays};
ghost use Rattle.server_core.specs.Examples.{StartsAndIssues, TakesOnce, ForgetsByACut, SavesBeforeItStarts, StopsForGood, ChecksTheLastRun, RefusesAMisfit};

use crate::sent_law::packets_go_to_client;
use engine::{counting_law, legal_law, taken_law};
use job_file::{jobs_are_within_limits, jobs_fit};

/// The last run and the boot never fall.
pub fn numbers_grow()
    ensures { NumbersGrow }
{}

/// Each run is started once, and the present run is the last.
pub fn starts()
    ensures once { StartsOnce }
    ensures last { PresentIsLast }
{}

/// What is due to be recorded is a Start of the staged run, above the last run, with no write open, of a
/// server that is on.
pub fn due_starts()
    ensures { DueIsStart }
{}

/// A run's job is taken at most once.
pub fn one_taking()
    ensures { TakenAtMostOnce }
{}

/// A server that is on shows all that came to it.
pub fn looks_at_all()
    ensures { LooksAtAll }
{}

/// Each state that a server holds or sends is the one that was taken.
pub fn the_taken()
    ensures held { HoldsTheTaken }
    ensures sent { SendsTheTaken }
{}

/// A State or NoState tells how many jobs its run has; of a job without a state none was taken, and
/// none is taken once the run has come to its end.
pub fn the_untaken()
    ensures states { StatesTellJobs }
    ensures no_states { NoStateIsUntaken }
    ensures stay { TakingsStay }
{}

/// The jobs of a text, and so those that are staged, run or checked, are a set, and the history of each
/// job is legal.
pub fn legal_histories()
    ensures texts { TextsGiveSets }
    ensures stagings { StagingsHaveSets }
    ensures runs { RunsHaveSets }
    ensures checks { ChecksHaveSets }
    ensures histories { HistoriesAreLegal }
{
    jobs_are_within_limits();
    jobs_fit();
    legal_law();
}

/// A state counts exactly the writes that were completed between the accepted Start of its run and its
/// taking.
pub fn counts_the_done()
    ensures { CountsTheDone }
{
    legal_histories();
    taken_law();
}

/// Behind a taking of a run no write is issued, of any job or run, for as long as the last run is that
/// one, and so until any moment at which a job is checked with a state of it.
pub fn quiet()
    ensures while_last { QuietWhileLast }
    ensures until_checked { QuietUntilChecked }
{}

/// A state that a job is checked with is of the last run and fits the job, and the client sent it in
/// this life.
pub fn with_was_heard()
    ensures { WithWasHeard }
{}

/// A server asks for the cut only once the client has told of each job of the run that its state is
/// kept.
pub fn cuts_when_kept()
    ensures { CutsWhenKept }
{}

/// A server sends at most 16 packets in answer to one input.
pub fn few_packets()
    ensures { PacketsAreFew }
{
    legal_histories();
}

/// The packets that a server sends are within the ranges of packets, where what came is within its.
pub fn packets_are_in_range()
    ensures { PacketsAreInRange }
{
    legal_histories();
    counting_law();
}

/// What a server sends in answer to one input is at most 16 frames of at most 1,073 bytes, where what came is within its
/// ranges.
pub fn frames_are_short()
    ensures { FramesAreShort }
{
    few_packets();
    packets_are_in_range();
    packets_go_to_client();
    messages::frames_are_few();
    messages::lengths_are_bounded();
}

/// Lists of inputs that can be followed by hand, and what a server answers in them.
pub fn examples()
    ensures starts { StartsAndIssues }
    ensures takes { TakesOnce }
    ensures forgets { ForgetsByACut }
    ensures saves { SavesBeforeItStarts }
    ensures stops { StopsForGood }
    ensures checks { ChecksTheLastRun }
    ensures misfits { RefusesAMisfit }
{}

/// The words behind one more input are read from the words before it: those behind a request that
/// records no run, and those behind a Start that has recorded one.
pub fn words_follow()
    ensures requests { WordsFollow }
    ensures starts { StartsFollow }
{}

/// A request that is refused changes nothing of what is kept, which is then kept of the words behind it,
/// too.
pub fn refused_stays()
    ensures { RefusedStays }
{}
