//! Events with a cut put in, for trying a run with a cut at each of its places.

ghost use Rattle.std.specs.Prelude.{◌≡◌, ◌<◌, ◌≤◌, ◌++◌, ◌∷◌, length, map, take, drop, IfOk, OnOk};
ghost use Rattle.std.specs.Option.{option_map};
ghost use Rattle.net_world.specs.Happenings.{Cut, Restart};
ghost use Rattle.net_world.specs.Events.{happening};
ghost use Rattle.net_world.specs.PutIn.{stop_in, with_cut, with_stop};

use crate::event::{PlainEvent, WorldEvent};
use messages::Node;
use std::alloc::{AllocError, Global};

/// A copy of these events in which a node loses its power, and is started again, before the one at a place;
/// at the length it does so behind them all.
pub fn with_cut(
    alloc: Global,
    events: &[WorldEvent],
    at: usize,
    node: Node,
) -> Result<Vec<WorldEvent>, AllocError>
    requires { at ≤ length events.now }
    ensures { IfOk result
        (λ all. map happening all.items ≡ with_cut at node (map happening events.now)) }
{
    put_before(alloc, events, at, cut(&node), restart(&node))
}

/// A copy of these events in which the one at a place is first cut within its save, once the save has
/// `landed` or before, and a node is started again.
///
/// `None`: the event there is a cut within a save, which has no save of its own to be cut in.
pub fn with_stop(
    alloc: Global,
    events: &[WorldEvent],
    at: usize,
    landed: bool,
    node: Node,
) -> Result<Option<Vec<WorldEvent>>, AllocError>
    requires { at < length events.now }
    ensures { IfOk result (λ made. option_map (λ all. map happening all.items) made
        ≡ with_stop at landed node (map happening events.now)) }
{
    let Some(stop) = stop_in(landed, &events[at])? else {
        return Ok(None);
    };
    let all = put_before(alloc, events, at, stop, restart(&node))?;
    Ok(Some(all))
}

/// A copy of these events, with two more before the one at a place.
fn put_before(
    alloc: Global,
    events: &[WorldEvent],
    at: usize,
    first: WorldEvent,
    second: WorldEvent,
) -> Result<Vec<WorldEvent>, AllocError>
    requires { at ≤ length events.now }
    ensures { IfOk result
        (λ all. map happening all.items
        ≡ take at (map happening events.now) ++ happening first ∷ happening second ∷ drop at
        (map happening events.now)) }
{
    let mut all = Vec::new(alloc);
    add_copies(&mut all, &events[..at])?;
    all.push(first)?;
    all.push(second)?;
    add_copies(&mut all, &events[at..])?;
    Ok(all)
}

/// Adds a copy of each event.
fn add_copies(all: &mut Vec<WorldEvent>, events: &[WorldEvent]) -> Result<(), AllocError>
    ensures { OnOk result
        (map happening all.new.items ≡ map happening all.old.items ++ map happening events.now) }
{
    for event in events {
        all.push(copied(event)?)?;
    }
    Ok(())
}

/// A copy of an event.
fn copied(event: &WorldEvent) -> Result<WorldEvent, AllocError>
    ensures { IfOk result (λ copy. happening copy ≡ happening event.now) }
{
    event.clone()
}

/// A cut of a node.
fn cut(node: &Node) -> WorldEvent
    ensures { happening result ≡ Cut node.now }
{
    WorldEvent::Plain(PlainEvent::Cut { node: *node })
}

/// A node's restart.
fn restart(node: &Node) -> WorldEvent
    ensures { happening result ≡ Restart node.now }
{
    WorldEvent::Plain(PlainEvent::Restart { node: *node })
}

/// The cut within the save of an event, where that is no cut within a save itself.
fn stop_in(landed: bool, event: &WorldEvent) -> Result<Option<WorldEvent>, AllocError>
    ensures { IfOk result
        (λ stop. option_map happening stop ≡ stop_in landed (happening event.now)) }
{
    match event {
        WorldEvent::Plain(event) => Ok(Some(WorldEvent::CutIn {
            landed,
            event: event.clone()?,
        })),
        WorldEvent::CutIn { .. } => Ok(None),
    }
}
