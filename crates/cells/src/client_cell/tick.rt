//! The client asks again for all that isn't answered.

ghost use Rattle.std.specs.Prelude.{◌≡◌, false, List, length, None, reverse, sum_by, IfSome};
ghost use Rattle.messages.specs.declared.node.Node.TheVariants.{Client as ClientNode};
ghost use Rattle.node.specs.Kinds.{Stands};
ghost use Rattle.client_core.specs.Inputs as inputs;
ghost use Rattle.client_core.specs.Hearing.{FrameEntry};
ghost use Rattle.client_core.specs.History.{Opening};
ghost use Rattle.client_core.specs.NodeKind.{client_kind};
ghost use Rattle.cells.specs.declared.input.NodeInput.TheVariants as came;
ghost use Rattle.cells.specs.AtHub.{Posts};
ghost use Rattle.cells.specs.Calls.{RefusedAfter};
ghost use Rattle.cells.specs.ClientRules.{core};
ghost use Rattle.cells.specs.CoreLaws.{Leaves};
ghost use Rattle.cells.specs.ClientStands.{failures_of, reply_and_frames};
ghost use Rattle.cells.specs.Failures.{Counts};
ghost use Rattle.cells.specs.Moves.{Keeps, StepEnds};
ghost use Rattle.cells.specs.Rules.{Meets};

use super::cell_core::told;
use crate::answer::Receipt;
use crate::entered::{enter, make_room};
use crate::input::NodeInput;
use crate::node_cell::{Cell, outcome};
use client_core::{Answer, Client, Outs, packets_are_in_range};
use disk_model::Notes;
use fc_base::Fault;
use messages::{Frames, Hub, Node, frames_are_spelled};
use node::Power;

/// Has the client ask again for all that isn't answered.
///
/// `NodeOff`, it isn't on; `NoMemory`: nothing changes.
pub(super) fn tick<N: Notes + Drop>(
    cell: &mut Cell<Client<N>, N>,
    hub: &mut Hub,
) -> Result<Receipt, Fault>
    requires kept { (opening : Opening) ×
        Keeps (client_kind N.note opening) (core opening) cell.old }
    ensures leaves { (opening : Opening) →
        Keeps (client_kind N.note opening) (core opening) cell.old →
        Leaves (client_kind N.note opening) (core opening) cell.old cell.new
        (λ rules history. RefusedAfter rules history (Meets inputs.Tick)) result }
    ensures ends { Posts ClientNode came.Tick None hub.old.net hub.new.net
        (reverse cell.old.history.items) (reverse cell.new.history.items) result }
{
    packets_are_in_range();
    frames_are_spelled();
    if cell.power.core().is_none() {
        return Err(Fault::NodeOff);
    }
    let done = outcome(cell.alloc, told(ask_again(&cell.power)));
    let Some(bytes) = bytes_of(&done.1) else {
        return Err(Fault::NoMemory);
    };
    make_room(&cell.power, &mut cell.history, hub, done.1.len(), bytes)?;
    let came = NodeInput::Tick;
    enter(&mut cell.history, hub, Node::Client, came, None, done)
}

/// Asks again for all that isn't answered, and changes nothing. `NodeOff`: it isn't on. `NoMemory`.
fn ask_again<N: Notes + Drop>(power: &Power<Client<N>, N>) -> Result<Outs, Fault>
    ensures ends { (opening : Opening) (past : List FrameEntry) →
        Stands (client_kind N.note opening) past power.now →
        StepEnds (client_kind N.note opening) (core opening) past inputs.Tick power.now
        (reply_and_frames result) }
    ensures count { (opening : Opening) (past : List FrameEntry) →
        Stands (client_kind N.note opening) past power.now →
        Counts false (failures_of N.note power.now) (failures_of N.note power.now)
        (reply_and_frames result) }
{
    match power.core() {
        Some(client) => {
            let frames = client.tick()?;
            let answer = Answer::Plain;
            Ok(Outs { answer, frames })
        }
        None => Err(Fault::NodeOff),
    }
}

/// How many bytes these frames have together, where that is a number of eight bytes.
fn bytes_of(frames: &Frames) -> Option<usize>
    ensures { IfSome result (λ bytes. bytes ≡ sum_by (λ frame. length frame) frames.now) }
{
    let mut bytes: usize = 0;
    for i in 0..frames.len() {
        let frame = frames.get(i)?;
        bytes = bytes.checked_add(frame.len())?;
    }
    Some(bytes)
}
