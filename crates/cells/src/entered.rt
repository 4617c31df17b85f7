//! What came to a node at the hub is entered.

ghost use Rattle.std.specs.Prelude.{◌≡◌, ◌<◌, ◌≤◌, List, length, sum_by, reverse, All, OnOk};
ghost use Rattle.std.specs.Option.{ForSome};
ghost use Rattle.messages.specs.Network.{HasRoom, IsSpelled};
ghost use Rattle.cells.specs.AtHub.{is_left_out, told_at, Hears};
ghost use Rattle.node.specs.Kinds.{Stands};
ghost use Rattle.cells.specs.Powers.{IsReady};

use crate::answer::{Receipt, Reply};
use crate::at_hub::{is_left_out, told_at};
use crate::cell_core::CellCore;
use crate::entry::HistoryEntry;
use crate::history::History;
use crate::input::NodeInput;
use fc_base::Fault;
use messages::{Frames, Hub, Node};
use node::Power;
use std::alloc::AllocError;

/// Makes room for what comes to a node that is on: for one more entry of its history, and at the hub for so
/// many frames of so many bytes together.
///
/// `NodeOff`, it isn't on; `NoMemory`: nothing changes.
pub(crate) fn make_room<N: Drop, C: CellCore<N>>(
    power: &Power<C, N>,
    history: &mut History,
    hub: &mut Hub,
    frames: usize,
    bytes: usize,
) -> Result<(), Fault>
    ensures ready { (opening : C.Opening) (past : List C.Entry) →
        Stands (C.kind opening) past power.now →
        IsReady ((C.kind opening).core.words.is_up past) result }
    ensures place { OnOk result (1 ≤ history.new.room) }
    ensures room { OnOk result (HasRoom hub.new.room frames bytes) }
    ensures items { history.new.items ≡ history.old.items }
    ensures net { hub.new.net ≡ hub.old.net }
{
    if !C::is_on(power) {
        return Err(Fault::NodeOff);
    }
    match reserve(history, hub, frames, bytes) {
        Ok(()) => Ok(()),
        Err(_) => Err(Fault::NoMemory),
    }
}

/// Makes that room in the history first, and then at the hub.
fn reserve(
    history: &mut History,
    hub: &mut Hub,
    frames: usize,
    bytes: usize,
) -> Result<(), AllocError>
    ensures place { OnOk result (1 ≤ history.new.room) }
    ensures room { OnOk result (HasRoom hub.new.room frames bytes) }
    ensures items { history.new.items ≡ history.old.items }
    ensures net { hub.new.net ≡ hub.old.net }
{
    history.reserve()?;
    hub.reserve(frames, bytes)
}

/// Enters what came in the node's history, with its answer and the frames that were sent, and at the
/// hub; or leaves it out where it was refused and nothing has changed.
pub fn enter(
    history: &mut History,
    hub: &mut Hub,
    node: Node,
    came: NodeInput,
    taken: Option<u64>,
    outcome: (Result<Reply, Fault>, Frames),
) -> Result<Receipt, Fault>
    requires place { 1 ≤ history.old.room }
    requires room { HasRoom hub.old.room (length outcome.1)
        (sum_by (λ frame. length frame) outcome.1) }
    requires taken { ForSome taken (λ i. i < length hub.old.net.frames) }
    requires spelled { All IsSpelled outcome.1 }
    ensures told { result ≡ told_at (length hub.old.net.frames) (length outcome.1) outcome.0 }
    ensures heard { Hears
        (is_left_out outcome.0) node came taken outcome.0 outcome.1 hub.old.net hub.new.net
        (reverse history.old.items) (reverse history.new.items) }
{
    let (answer, sent) = outcome;
    if is_left_out(&answer) {
        return told_at(0, 0, &answer);
    }
    let told = told_at(hub.len() as u64, sent.len() as u64, &answer);
    hub.note(node, history.len() as u64, taken, &sent);
    history.push(HistoryEntry {
        by: None,
        came,
        answer,
        sent,
    });
    told
}
