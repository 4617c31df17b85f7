//! Events come to a world.

ghost use Rattle.std.specs.Prelude.{◌≡◌, ◌≤◌, [], ◌∷◌, IfOk, IfSome};
ghost use Rattle.fc_base.specs.declared.limits.TheConstants.{MAX_SERVERS};
ghost use Rattle.net_world.specs.Changes.{trace};
ghost use Rattle.net_world.specs.Claims.{world_of};
ghost use Rattle.net_world.specs.Holders.{taken_of};
ghost use Rattle.net_world.specs.Setup.{setup_of};
ghost use Rattle.net_world.specs.Trace.{opening_of, of_server};
ghost use Rattle.server_core.specs.Accepted.{IsTaking};

use fc_base::Key;
use net_world::{Config, WorldEvent, play};
use std::alloc::{AllocError, Global};
use verify_state::VerifyState;

/// The state that the client of a world keeps of a job once these have happened, if it keeps one:
/// it is the only one that was ever taken of the job, and counts just what had completed by then.
pub fn kept_state(
    alloc: Global,
    config: Config,
    events: &[WorldEvent],
    key: Key,
) -> Result<Option<VerifyState>, AllocError>
    requires some { 1 ≤ config.servers }
    requires few { config.servers ≤ MAX_SERVERS }
    ensures taken { let t = trace (setup_of config) (world_of config events.now) in
        IfOk result (λ kept. IfSome kept (λ state. taken_of key t ≡ state ∷ [])) }
    ensures counts { let t = trace (setup_of config) (world_of config events.now) in
        IfOk result (λ kept. IfSome kept
        (IsTaking (opening_of key.server) key.run key.job (of_server key.server t))) }
{
    let world = play(alloc, config, events)?;
    Ok(world.saved(key).copied())
}
