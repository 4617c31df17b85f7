//! What is done with a node and the hub, whichever node it is.

ghost use Rattle.std.specs.Prelude.{◌≡◌, false, IfErr, slice_get};
ghost use Rattle.messages.specs.Waiting.{picked_frame, waiting_frames};
ghost use Rattle.cells.specs.Calls.{Replays, Delivers, RefusedAt, RefusedAfter, Commands};
ghost use Rattle.cells.specs.Failures.{Counts};

use cells::{Node, Receipt};
use fc_base::Fault;
use messages::{Hub, Node as NodeName};

/// Has a node take the frame at this position of the hub.
///
/// In this order: `NodeOff`, it isn't on; `NoFrame`, the hub has no such frame; the node's own. Where a
/// save fails, or a piece completes a body that isn't the packet of its tag, that is entered in the
/// history and in the hub's journal, as what is answered is; any other refusal, and `NoMemory`, changes
/// nothing.
pub fn deliver<T: Node>(hub: &mut Hub, node: &mut T, position: u64) -> Result<Receipt, Fault>
    ensures opening { T.opening node.new ≡ T.opening node.old }
    ensures failures { Counts false (T.failures node.old) (T.failures node.new) result }
    ensures ends { Delivers (T.name (T.opening node.old)) position
        (slice_get hub.old.net.frames position) hub.old.net hub.new.net (T.log node.old)
        (T.log node.new) result }
    ensures why { IfErr result
        (RefusedAt (T.rules (T.opening node.old)) (T.log node.old)
        (slice_get hub.old.net.frames position)) }
    ensures replay { Replays (T.rules (T.opening node.new)) (T.log node.new) }
{
    node.deliver(hub, position)
}

/// Has a node do this, whose frames go to the hub: a server takes the report of a check, the client a
/// request or a tick.
///
/// `NodeOff`, it isn't on; the node's own. A save that fails is entered in the history, as what is answered
/// is; any other refusal, and `NoMemory`, changes nothing.
pub fn post<T: Node>(hub: &mut Hub, node: &mut T, command: T::Command) -> Result<Receipt, Fault>
    ensures opening { T.opening node.new ≡ T.opening node.old }
    ensures failures { Counts false (T.failures node.old) (T.failures node.new) result }
    ensures ends { Commands (T.rules (T.opening node.old)) (T.asks command)
        (T.name (T.opening node.old)) hub.old.net hub.new.net (T.log node.old)
        (T.log node.new) result }
    ensures why { IfErr result
        (RefusedAfter (T.rules (T.opening node.old)) (T.log node.old) (T.asks command)) }
    ensures replay { Replays (T.rules (T.opening node.new)) (T.log node.new) }
{
    node.post(hub, command)
}

/// Of the frames to this node that it hasn't taken, the oldest first, the one at this word modulo their
/// number: its position at the hub. `None` where there is none.
pub fn pick(hub: &Hub, node: NodeName, word: u64) -> Option<u64>
    ensures { result ≡ picked_frame word (waiting_frames hub.now.net node) }
{
    hub.pick(node, word)
}
