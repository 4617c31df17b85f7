//! Worlds that can be followed by hand, and what is told in them. The function has nothing to run.

ghost use Rattle.net_world.specs.Examples.{ChecksByItsState, IsHonestlyMade, StartsOnceAfterACut, KeepsBehindACut, ChecksInAFullPass, RefusesByNumber, ComesTogether};
ghost use Rattle.net_world.specs.MirrorExamples.{FetchesWhatWasLost, RefusesOfAMirror, StopsWithinARenewal};

/// Worlds that can be followed by hand, what is told in them, and which frames are sent.
pub fn examples()
    ensures checks { ChecksByItsState }
    ensures honest { IsHonestlyMade }
    ensures starts { StartsOnceAfterACut }
    ensures keeps { KeepsBehindACut }
    ensures full { ChecksInAFullPass }
    ensures refuses { RefusesByNumber }
    ensures pieces { ComesTogether }
    ensures fetches { FetchesWhatWasLost }
    ensures mirror { RefusesOfAMirror }
    ensures renewal { StopsWithinARenewal }
{}
