//! What comes to the client of a world.

ghost use Rattle.std.specs.Prelude.{List};
ghost use Rattle.client_core.specs.Answers.{input_of};
ghost use Rattle.client_core.specs.History.{Opening};
ghost use Rattle.client_core.specs.Hearing.{FrameEntry};
ghost use Rattle.net_world.specs.ClientNodes.{Stands, Asks};

use super::ClientNode;
use client_core::{Input, Outs};
use fc_base::Fault;

/// It is asked this, or a frame comes to it. `NodeOff`: it doesn't run. Any other fault is the client's own.
pub(crate) fn ask(node: &mut ClientNode, input: Input<'_>) -> Result<Outs, Fault>
    ensures { (opening : Opening) (past : List FrameEntry) → Stands opening past node.old →
        Asks opening past (input_of input.entry) node.new result }
{
    node.step(input)
}
