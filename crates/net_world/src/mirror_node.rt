//! The mirror of a world, which may be off.

ghost use Rattle.std.specs.Prelude.{◌≡◌, ◌∷◌, [], List, IfOk};
ghost use Rattle.mirror_core.specs.declared.note.MirrorNote.{MirrorNote};
ghost use Rattle.mirror_core.specs.Note.{blank};
ghost use Rattle.mirror_core.specs.History.{Entry, Restart, Cut};
ghost use Rattle.mirror_core.specs.Words.{is_on};
ghost use Rattle.net_world.specs.Nodes.{Ends, CutsIn};
ghost use Rattle.net_world.specs.MirrorNodes.{mirror_nodes, Stands, Restarts};

use disk_model::MemNotes;
use fc_base::Fault;
use messages::{Frame, Frames};
use mirror_core::Mirror;
use node::Power;
use std::alloc::{AllocError, Global};

/// A mirror that runs, or the notes of one that is off.
pub(crate) type MirrorNode = Power<Mirror<MemNotes>, MemNotes>;

/// The mirror of a world, if it has one, and the greatest generation that was handed in: 0 where none was.
pub struct MirrorSlot {
    pub(crate) node: Option<MirrorNode>,
    pub(crate) greatest: u64,
}

/// It is written by hand so that it is one function.
impl Drop for MirrorSlot {
    fn drop(self) {
        let MirrorSlot { node, greatest: _ } = self;
        if let Some(node) = node {
            let _notes = node.into_notes();
        }
    }
}

/// A mirror on a blank note.
pub(crate) fn open(alloc: Global) -> Result<MirrorNode, AllocError>
    ensures { IfOk result (Stands blank (Restart ∷ [])) }
{
    match Mirror::restart(alloc, MemNotes::new(Vec::new(alloc))) {
        Ok(mirror) => Ok(Power::On(mirror)),
        Err(_) => Err(AllocError),
    }
}

/// Whether it runs.
pub(crate) fn runs(node: &MirrorNode) -> bool
    ensures { (opening : MirrorNote) (past : List Entry) → Stands opening past node.now →
        result ≡ is_on past }
{
    node.core().is_some()
}

/// A frame comes to it. `NodeOff`: it doesn't run. Any other fault is the mirror's own.
pub(crate) fn deliver(node: &mut MirrorNode, frame: Frame) -> Result<Frames, Fault>
    ensures { (opening : MirrorNote) (past : List Entry) → Stands opening past node.old →
        Ends (mirror_nodes opening) past frame node.new result }
{
    node.step(frame)
}

/// Loses its power, where it has any.
pub(crate) fn cut(node: &mut MirrorNode)
    ensures { (opening : MirrorNote) (past : List Entry) → Stands opening past node.old →
        Stands opening (Cut ∷ past) node.new }
{
    let _was_on = node.cut();
}

/// Starts again.
///
/// `NodeOn`: it runs. `NoMemory`. Nothing changes.
pub(crate) fn restart(node: &mut MirrorNode, alloc: Global) -> Result<(), Fault>
    ensures { (opening : MirrorNote) (past : List Entry) → Stands opening past node.old →
        Restarts opening past node.new result }
{
    node.restart(alloc, ())
}

/// Loses its power within the save that a frame would make.
///
/// `NodeOff`; `NoSave`: it would make none; `NoMemory`. Nothing changes.
pub(crate) fn cut_in_delivery(
    node: &mut MirrorNode,
    landed: bool,
    frame: Frame,
) -> Result<(), Fault>
    ensures { (opening : MirrorNote) (past : List Entry) → Stands opening past node.old →
        CutsIn (mirror_nodes opening) past landed frame node.new result }
{
    node.cut_in(landed, frame)
}
