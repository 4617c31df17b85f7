//! A world from its beginning, and the theorem of it.

ghost use Rattle.std.specs.Prelude.{◌≤◌, IfOk, OnOk};
ghost use Rattle.fc_base.specs.declared.limits.TheConstants.{MAX_SERVERS};
ghost use Rattle.net_world.specs.Setup.{setup_of};
ghost use Rattle.net_world.specs.Stands.{StandsFor};
ghost use Rattle.net_world.specs.Claims.{world_of, AtEachMoment, OfItsTrace, OfItsFrames};
ghost use Rattle.net_world.specs.Headline.{OneTaking, HeldIsTheTaken, PiecesHoldTheTaken, CountsTheCompleted, QuietUntilTheCheck, ExactReports, FewFaults, NoFaults, NoConflict, StatePacketsAreEqual, KeptWhereServed, KeptWhereCut, RunsAreGivenOnce, AttemptsAreGivenOnce, StartsAreAcceptedOnce, OneTextOfEachRun, OneTextOfEachAttempt, HeldReportsWereMade};

use crate::config::Config;
use crate::event::WorldEvent;
use crate::frame_law::frames_hold_the_taken;
use crate::fresh::{ends_are_kept, nothing_differs, numbers_are_given_once, one_text_of_each};
use crate::honest::honest_disks;
use crate::reported::shown_reports_were_made;
use crate::verdict::one_state_of_each_job;
use crate::world::World;
use crate::world_law::{checks_are_exact, each_world_is_a_trace, none_is_a_conflict};
use recheck::reports_fit;
use server_core::legal_histories;
use std::alloc::{AllocError, Global};

/// The world once these have happened in it, the first of them first. What is refused is passed over.
pub fn play(alloc: Global, config: Config, events: &[WorldEvent]) -> Result<World, AllocError>
    requires some { 1 ≤ config.servers }
    requires few { config.servers ≤ MAX_SERVERS }
    ensures stands { IfOk result (StandsFor (setup_of config) (world_of config events.now)) }
    ensures one_taking { OnOk result (AtEachMoment (OfItsTrace OneTaking) config events.now) }
    ensures one_state { OnOk result (AtEachMoment (OfItsTrace HeldIsTheTaken) config events.now) }
    ensures pieces { OnOk result (AtEachMoment (OfItsFrames PiecesHoldTheTaken) config events.now) }
    ensures counts { OnOk result (AtEachMoment (OfItsTrace CountsTheCompleted) config events.now) }
    ensures quiet { OnOk result (AtEachMoment (OfItsTrace QuietUntilTheCheck) config events.now) }
    ensures exact { OnOk result (AtEachMoment ExactReports config events.now) }
    ensures reports { OnOk result
        (AtEachMoment (OfItsTrace HeldReportsWereMade) config events.now) }
    ensures few_faults { OnOk result (AtEachMoment FewFaults config events.now) }
    ensures no_faults { OnOk result (AtEachMoment NoFaults config events.now) }
    ensures conflict { OnOk result (AtEachMoment NoConflict config events.now) }
    ensures equal { OnOk result (AtEachMoment (OfItsTrace StatePacketsAreEqual) config events.now) }
    ensures served { OnOk result (AtEachMoment (OfItsTrace KeptWhereServed) config events.now) }
    ensures cut { OnOk result (AtEachMoment (OfItsTrace KeptWhereCut) config events.now) }
    ensures runs { OnOk result (AtEachMoment (OfItsTrace RunsAreGivenOnce) config events.now) }
    ensures attempts { OnOk result
        (AtEachMoment (OfItsTrace AttemptsAreGivenOnce) config events.now) }
    ensures starts { OnOk result
        (AtEachMoment (OfItsTrace StartsAreAcceptedOnce) config events.now) }
    ensures run_texts { OnOk result (AtEachMoment (OfItsTrace OneTextOfEachRun) config events.now) }
    ensures attempt_texts { OnOk result
        (AtEachMoment (OfItsTrace OneTextOfEachAttempt) config events.now) }
{
    each_world_is_a_trace();
    one_state_of_each_job();
    checks_are_exact();
    shown_reports_were_made();
    honest_disks();
    none_is_a_conflict();
    ends_are_kept();
    numbers_are_given_once();
    nothing_differs();
    one_text_of_each();
    frames_hold_the_taken();
    reports_fit();
    legal_histories();
    let mut world = World::new(alloc, config)?;
    for event in events {
        world.pass(event)?;
    }
    Ok(world)
}
