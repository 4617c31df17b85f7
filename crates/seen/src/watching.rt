//! A world that is watched from its beginning.

ghost use Rattle.std.specs.Prelude.{◌≤◌, IfOk, OnOk};
ghost use Rattle.fc_base.specs.declared.limits.TheConstants.{MAX_SERVERS};
ghost use Rattle.net_world.specs.Setup.{setup_of};
ghost use Rattle.net_world.specs.Stands.{StandsFor};
ghost use Rattle.net_world.specs.Claims.{world_of};
ghost use Rattle.seen.specs.Claims.{OneState, EachIsTaken, EachReportIsExact, EachReportWasTold, NoSavedIsOfNone, CutsAreBehindAcks, AcksAreOfKept, RefusalsChangeNothing, UnknownIsRefused, WhatComesIsKept, EndedIsKept, NumbersAreGivenOnce};
ghost use Rattle.seen.specs.Watching.{WhenSeen};

use crate::law::{
    acks_are_of_kept, cuts_are_behind_acks, each_is_taken, each_report_is_exact,
    each_report_was_told, ended_is_kept, no_saved_is_of_none, numbers_are_given_once, one_state,
    refusals_change_nothing, unknown_is_refused, what_comes_is_kept,
};
use net_world::{Config, World, WorldEvent, play};
use std::alloc::{AllocError, Global};

/// The world once these have happened in it, the first of them first, as [`play`] gives it. What is
/// refused is passed over. Its clauses are claims of all that is seen of it, at each moment of the list.
/// An error is that memory ran out; nothing is left then.
pub fn watch(alloc: Global, config: Config, events: &[WorldEvent]) -> Result<World, AllocError>
    requires some { 1 ≤ config.servers }
    requires few { config.servers ≤ MAX_SERVERS }
    ensures stands { IfOk result (StandsFor (setup_of config) (world_of config events.now)) }
    ensures one_state { OnOk result (WhenSeen OneState config events.now) }
    ensures taken { OnOk result (WhenSeen EachIsTaken config events.now) }
    ensures exact { OnOk result (WhenSeen EachReportIsExact config events.now) }
    ensures told { OnOk result (WhenSeen EachReportWasTold config events.now) }
    ensures none_saved { OnOk result (WhenSeen NoSavedIsOfNone config events.now) }
    ensures cuts { OnOk result (WhenSeen CutsAreBehindAcks config events.now) }
    ensures acks { OnOk result (WhenSeen AcksAreOfKept config events.now) }
    ensures refusals { OnOk result (WhenSeen RefusalsChangeNothing config events.now) }
    ensures unknown { OnOk result (WhenSeen UnknownIsRefused config events.now) }
    ensures kept { OnOk result (WhenSeen WhatComesIsKept config events.now) }
    ensures ended { OnOk result (WhenSeen EndedIsKept config events.now) }
    ensures numbers { OnOk result (WhenSeen NumbersAreGivenOnce config events.now) }
{
    one_state();
    each_is_taken();
    each_report_is_exact();
    each_report_was_told();
    no_saved_is_of_none();
    cuts_are_behind_acks();
    acks_are_of_kept();
    refusals_change_nothing();
    unknown_is_refused();
    what_comes_is_kept();
    ended_is_kept();
    numbers_are_given_once();
    play(alloc, config, events)
}
