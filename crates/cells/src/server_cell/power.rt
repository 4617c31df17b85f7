//! What a server takes that has power, or none.

ghost use Rattle.std.specs.Prelude.{◌≡◌, ◌<◌, false, List, IfOk};
ghost use Rattle.node.specs.Kinds.{Stands};
ghost use Rattle.server_core.specs.declared.input.Input.TheVariants as inputs;
ghost use Rattle.server_core.specs.Bounds.{AreShort};
ghost use Rattle.server_core.specs.Handles.{outs_of_issue, outs_of_end};
ghost use Rattle.server_core.specs.Hearing.{FrameEntry};
ghost use Rattle.server_core.specs.History.{Opening};
ghost use Rattle.server_core.specs.NodeKind.{server_kind};
ghost use Rattle.cells.specs.Failures.{Counts};
ghost use Rattle.cells.specs.Moves.{StepEnds, TaskEnds};
ghost use Rattle.cells.specs.ServerRules.{ask_of, core};
ghost use Rattle.cells.specs.ServerStands.{failures_of, reply_and_frames};
ghost use Rattle.cells.specs.ServerTasks.{came_by, loads_note};

use super::task::ServerTask;
use crate::answer::{Answer, Reply};
use crate::node_cell::{cut, restart};
use disk_model::Notes;
use engine::{Issue, Ticket};
use fc_base::{Fault, JobNo, MAX_SERVERS, ServerNo};
use messages::{Act, Frame};
use node::Power;
use server_core::{Input, Outs, Server, WriteEnd};
use std::alloc::Global;

/// Takes what comes. `NodeOff`: it isn't on, and nothing changes. Any other fault is the server's.
pub(crate) fn step<N: Notes + Drop>(
    power: &mut Power<Server<N>, N>,
    input: Input<Frame>,
) -> Result<Outs, Fault>
    ensures ends { (opening : Opening) (past : List FrameEntry) →
        Stands (server_kind N.note opening) past power.old →
        StepEnds (server_kind N.note opening) (core opening) past input power.new
        (reply_and_frames result) }
    ensures count { (opening : Opening) (past : List FrameEntry) →
        Stands (server_kind N.note opening) past power.old →
        Counts false (failures_of N.note power.old) (failures_of N.note power.new)
        (reply_and_frames result) }
    ensures short { (opening : Opening) (past : List FrameEntry) →
        Stands (server_kind N.note opening) past power.old → (core opening).InRange past →
        IfOk result (λ outs. AreShort outs.frames) }
{
    power.on()?.step(input)
}

/// Asks for the next write of a job, as `step` does.
#[inline(always)]
fn issue<N: Notes + Drop>(power: &mut Power<Server<N>, N>, job: JobNo) -> Result<Issue, Fault>
    ensures ends { (opening : Opening) (past : List FrameEntry) →
        Stands (server_kind N.note opening) past power.old →
        StepEnds (server_kind N.note opening) (core opening) past (inputs.Issue job) power.new
        (reply_and_frames (outs_of_issue result)) }
    ensures count { (opening : Opening) (past : List FrameEntry) →
        Stands (server_kind N.note opening) past power.old →
        Counts false (failures_of N.note power.old) (failures_of N.note power.new)
        (reply_and_frames (outs_of_issue result)) }
{
    power.on()?.issue(job)
}

/// Tells how a write has ended, as `step` does.
#[inline(always)]
fn end_write<N: Notes + Drop>(
    power: &mut Power<Server<N>, N>,
    ticket: Ticket,
    end: WriteEnd,
) -> Result<(), Fault>
    ensures ends { (opening : Opening) (past : List FrameEntry) →
        Stands (server_kind N.note opening) past power.old →
        StepEnds (server_kind N.note opening) (core opening) past (inputs.WriteDone ticket end)
        power.new (reply_and_frames (outs_of_end result)) }
    ensures count { (opening : Opening) (past : List FrameEntry) →
        Stands (server_kind N.note opening) past power.old →
        Counts false (failures_of N.note power.old) (failures_of N.note power.new)
        (reply_and_frames (outs_of_end result)) }
{
    power.on()?.end_write(ticket, end)
}

/// Does what is asked from a seat, which sends nothing.
#[inline(always)]
pub(crate) fn perform<N: Notes + Drop>(
    power: &mut Power<Server<N>, N>,
    alloc: Global,
    me: ServerNo,
    task: &ServerTask,
) -> Result<Reply, Fault>
    requires { me < MAX_SERVERS }
    ensures ends { (opening : Opening) (past : List FrameEntry) → opening.me ≡ me →
        Stands (server_kind N.note opening) past power.old →
        TaskEnds (server_kind N.note opening) (core opening) past (ask_of (came_by task.now))
        power.new result }
    ensures count { (opening : Opening) (past : List FrameEntry) → opening.me ≡ me →
        Stands (server_kind N.note opening) past power.old →
        Counts (loads_note task.now) (failures_of N.note power.old)
        (failures_of N.note power.new) result }
{
    match task {
        ServerTask::Issue(job) => {
            let answer = Answer::Issued(issue(power, *job)?);
            let act = Act::None;
            Ok(Reply { answer, act })
        }
        ServerTask::WriteDone(ticket, end) => {
            end_write(power, *ticket, *end)?;
            Ok(Reply::plain())
        }
        ServerTask::Cut => cut(power),
        ServerTask::Restart => restart(power, alloc, me),
    }
}
