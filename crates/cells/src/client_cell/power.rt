//! What a client takes that has power, or none.

ghost use Rattle.std.specs.Prelude.{◌≡◌, ◌≤◌, false, List, IfOk};
ghost use Rattle.node.specs.Kinds.{Stands};
ghost use Rattle.client_core.specs.History.{Opening};
ghost use Rattle.client_core.specs.Answers as answers;
ghost use Rattle.client_core.specs.Bounds.{AreShort};
ghost use Rattle.client_core.specs.FrameEnds.{most_packets};
ghost use Rattle.client_core.specs.Hearing.{FrameEntry};
ghost use Rattle.client_core.specs.NodeKind.{client_kind};
ghost use Rattle.cells.specs.ClientRules.{ask_of, core};
ghost use Rattle.cells.specs.Failures.{Counts};
ghost use Rattle.cells.specs.Moves.{StepEnds, TaskEnds};
ghost use Rattle.cells.specs.ClientTasks.{came_by, came_in, input_in, loads_note};
ghost use Rattle.cells.specs.ClientStands.{reply_and_frames, failures_of};

use super::incoming::Incoming;
use super::task::ClientTask;
use crate::answer::Reply;
use crate::input::NodeInput;
use crate::node_cell::{cut, restart};
use client_core::{Client, Input, Outs};
use disk_model::Notes;
use fc_base::{Fault, MAX_SERVERS};
use node::{NodeCore, Power};
use std::alloc::Global;

/// Does what is asked without the network.
pub(crate) fn perform<N: Notes + Drop>(
    power: &mut Power<Client<N>, N>,
    alloc: Global,
    servers: u32,
    task: &ClientTask,
) -> Result<Reply, Fault>
    requires some { 1 ≤ servers }
    requires few { servers ≤ MAX_SERVERS }
    ensures ends { (opening : Opening) (past : List FrameEntry) → opening.servers ≡ servers →
        Stands (client_kind N.note opening) past power.old →
        TaskEnds (client_kind N.note opening) (core opening) past (ask_of (came_by task.now))
        power.new result }
    ensures count { (opening : Opening) (past : List FrameEntry) → opening.servers ≡ servers →
        Stands (client_kind N.note opening) past power.old →
        Counts (loads_note task.now) (failures_of N.note power.old)
        (failures_of N.note power.new) result }
{
    match task {
        ClientTask::Cut => cut(power),
        ClientTask::Restart => restart(power, alloc, servers),
    }
}

/// Makes a step of the client. `NodeOff`: it isn't on, and nothing changes. Any other fault is the client's.
fn step<N: Notes + Drop>(power: &mut Power<Client<N>, N>, input: Input<'_>) -> Result<Outs, Fault>
    ensures ends { (opening : Opening) (past : List FrameEntry) →
        Stands (client_kind N.note opening) past power.old →
        StepEnds (client_kind N.note opening) (core opening) past
        (answers.input_of input.entry) power.new (reply_and_frames result) }
    ensures count { (opening : Opening) (past : List FrameEntry) →
        Stands (client_kind N.note opening) past power.old →
        Counts false (failures_of N.note power.old) (failures_of N.note power.new)
        (reply_and_frames result) }
    ensures short { (opening : Opening) (past : List FrameEntry) →
        Stands (client_kind N.note opening) past power.old → (core opening).InRange past →
        IfOk result (λ outs.
        AreShort (most_packets opening past (answers.input_of input.entry)) outs.frames) }
{
    power.on()?.step(input)
}

/// Takes what comes, a frame or a request; and as what it comes.
pub(crate) fn hear<N: Notes + Drop>(
    power: &mut Power<Client<N>, N>,
    incoming: Incoming,
) -> (Result<Outs, Fault>, NodeInput)
    ensures came { result.1 ≡ came_in incoming }
    ensures ends { (opening : Opening) (past : List FrameEntry) →
        Stands (client_kind N.note opening) past power.old →
        StepEnds (client_kind N.note opening) (core opening) past (input_in incoming) power.new
        (reply_and_frames result.0) }
    ensures count { (opening : Opening) (past : List FrameEntry) →
        Stands (client_kind N.note opening) past power.old →
        Counts false (failures_of N.note power.old) (failures_of N.note power.new)
        (reply_and_frames result.0) }
    ensures short { (opening : Opening) (past : List FrameEntry) →
        Stands (client_kind N.note opening) past power.old → (core opening).InRange past →
        IfOk result.0 (λ outs. AreShort (most_packets opening past (input_in incoming))
        outs.frames) }
{
    match incoming {
        Incoming::Frame(came, frame) => (step(power, Input::Deliver(frame)), came),
        Incoming::Request(request) => {
            let done = step(power, request.as_input());
            (done, NodeInput::Request(request))
        }
    }
}
