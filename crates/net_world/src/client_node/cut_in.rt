//! The client of a world loses its power within a save. `NodeOff`; `NoSave`: what comes would make none;
//! `NoMemory`: nothing changes.

ghost use Rattle.std.specs.Prelude.{List};
ghost use Rattle.client_core.specs.Answers.{input_of};
ghost use Rattle.client_core.specs.History.{Opening};
ghost use Rattle.client_core.specs.Hearing.{FrameEntry};
ghost use Rattle.net_world.specs.Nodes.{CutsIn};
ghost use Rattle.net_world.specs.ClientNodes.{client_nodes, Stands};

use super::{ClientNode, forget, says_nothing};
use client_core::Input;
use fc_base::Fault;
use std::alloc::Global;

/// It loses its power within the save that it would make of what it is asked, or of a frame that comes to it.
/// Where that is its first save, and it doesn't land, it has no note.
pub(crate) fn cut_in(
    node: &mut ClientNode,
    alloc: Global,
    landed: bool,
    input: Input<'_>,
) -> Result<(), Fault>
    ensures { (opening : Opening) (past : List FrameEntry) → Stands opening past node.old →
        CutsIn (client_nodes opening) past landed (input_of input.entry) node.new result }
{
    let says_nothing = says_nothing(node);
    node.cut_in(landed, input)?;
    if says_nothing && !landed {
        forget(node, alloc);
    }
    Ok(())
}
