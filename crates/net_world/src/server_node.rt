//! A server of a world, which may be off.

ghost use Rattle.std.specs.Prelude.{◌≡◌, ◌<◌, ◌∷◌, [], false, List, IfOk};
ghost use Rattle.std.specs.Option.{option_copied};
ghost use Rattle.fc_base.specs.declared.limits.TheConstants.{MAX_SERVERS};
ghost use Rattle.disk_model.specs.declared.save_outcome.SaveOutcome.TheVariants.{Saved};
ghost use Rattle.server_core.specs.declared.input.Input.TheVariants.{Deliver};
ghost use Rattle.server_core.specs.declared.note.ServerNote.{ServerNote};
ghost use Rattle.server_core.specs.History.{Opening};
ghost use Rattle.server_core.specs.Hearing.{FrameEntry, Restart, Cut, packets_heard};
ghost use Rattle.server_core.specs.Note.{Says};
ghost use Rattle.server_core.specs.Words.{is_on};
ghost use Rattle.node.specs.Kinds.{Shows};
ghost use Rattle.net_world.specs.Nodes.{CutsIn};
ghost use Rattle.net_world.specs.ServerNodes.{server_nodes, no_save, boots, Stands, Restarts, CutsInRestart};
ghost use Rattle.net_world.specs.Trace.{opening_of};

use disk_model::{MemNotes, Notes};
use fc_base::{Fault, ServerNo};
use messages::Frame;
use node::Power;
use server_core::{Input, Server, ServerNote, one_note};
use std::alloc::{AllocError, Global};

/// A server that runs, or the notes of one that is off.
pub(crate) type ServerNode = Power<Server<MemNotes>, MemNotes>;

/// The server with this number on a blank note.
pub(crate) fn open(alloc: Global, me: ServerNo) -> Result<ServerNode, AllocError>
    requires { me < MAX_SERVERS }
    ensures { IfOk result (Stands (opening_of me) (Restart Saved ∷ [])) }
{
    match Server::restart(alloc, me, MemNotes::new(Vec::new(alloc))) {
        Ok(server) => Ok(Power::On(server)),
        Err(_) => Err(AllocError),
    }
}

/// Whether it runs.
pub(crate) fn runs(node: &ServerNode) -> bool
    ensures { (opening : Opening) (past : List FrameEntry) → Stands opening past node.now →
        result ≡ is_on (packets_heard opening past) }
{
    node.core().is_some()
}

/// The server, while it runs.
pub(crate) fn server(node: &ServerNode) -> Option<&Server<MemNotes>>
    ensures { (opening : Opening) (past : List FrameEntry) → Stands opening past node.now →
        Shows (server_nodes opening) past node.now (option_copied result) }
{
    node.core()
}

/// Loses its power, where it has any.
pub(crate) fn cut(node: &mut ServerNode)
    ensures { (opening : Opening) (past : List FrameEntry) → Stands opening past node.old →
        Stands opening (Cut ∷ past) node.new }
{
    let _was_on = node.cut();
}

/// Starts again, with the next boot.
///
/// `NodeOn`: it runs. `NumbersSpent`: its boots are used up. `NoMemory`. Nothing changes.
pub(crate) fn restart(node: &mut ServerNode, alloc: Global, me: ServerNo) -> Result<(), Fault>
    requires { me < MAX_SERVERS }
    ensures { (opening : Opening) (past : List FrameEntry) → opening.me ≡ me →
        Stands opening past node.old →
        Restarts opening past node.new result }
{
    node.restart(alloc, me)
}

/// Loses its power within the save that a frame would make.
///
/// `NodeOff`; `NoSave`: it would make none; `NoMemory`. Nothing changes.
pub(crate) fn cut_in_delivery(
    node: &mut ServerNode,
    landed: bool,
    frame: Frame,
) -> Result<(), Fault>
    ensures { (opening : Opening) (past : List FrameEntry) → Stands opening past node.old →
        CutsIn (server_nodes opening) past landed (Deliver frame) node.new result }
{
    node.cut_in(landed, Input::Deliver(frame))
}

/// Loses its power within the save of its restart.
///
/// `NodeOn`; `NoSave`: its boots are used up; `NoMemory`. Nothing changes.
pub(crate) fn cut_in_restart(
    node: &mut ServerNode,
    alloc: Global,
    landed: bool,
    me: ServerNo,
) -> Result<(), Fault>
    requires { me < MAX_SERVERS }
    ensures { (opening : Opening) (past : List FrameEntry) → opening.me ≡ me →
        Stands opening past node.old →
        CutsInRestart opening past landed node.new result }
{
    if !landed {
        return try_restart(node);
    }
    match restart(node, alloc, me) {
        Ok(()) => {
            cut(node);
            Ok(())
        }
        Err(fault) => Err(no_save(fault)),
    }
}

/// Loses its power before the next boot is saved.
fn try_restart(node: &mut ServerNode) -> Result<(), Fault>
    ensures { (opening : Opening) (past : List FrameEntry) → Stands opening past node.old →
        CutsInRestart opening past false node.new result }
{
    let Power::Off(notes) = node else {
        return Err(Fault::NodeOn);
    };
    match notes.load() {
        Ok(bytes) => try_boot(&bytes),
        Err(_) => Err(Fault::NoMemory),
    }
}

/// Whether a note leaves a boot above those that were used: `NoSave` where it doesn't.
fn try_boot(bytes: &[u8]) -> Result<(), Fault>
    ensures { (n : ServerNote) → Says bytes.now n → result ≡ boots n }
{
    one_note();
    match ServerNote::decode(bytes) {
        Some(noted) => {
            if noted.boot < u64::MAX {
                Ok(())
            } else {
                Err(Fault::NoSave)
            }
        }
        None => Err(Fault::NoSave),
    }
}

/// A restart whose boots are used up makes no save.
fn no_save(fault: Fault) -> Fault
    ensures { result ≡ no_save fault }
{
    match fault {
        Fault::NumbersSpent => Fault::NoSave,
        other => other,
    }
}
