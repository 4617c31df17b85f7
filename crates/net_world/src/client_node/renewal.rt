//! The client of a world loses its note, and is begun anew.

ghost use Rattle.std.specs.Prelude.{◌≡◌, ◌≤◌, ◌∷◌, [], List, IfOk, IsTrue};
ghost use Rattle.fc_base.specs.declared.limits.TheConstants.{MAX_SERVERS};
ghost use Rattle.messages.specs.Ranges.{is_generation};
ghost use Rattle.disk_model.specs.declared.save_outcome.SaveOutcome.TheVariants.{Saved};
ghost use Rattle.client_core.specs.Note.{blank};
ghost use Rattle.client_core.specs.History.{Opening};
ghost use Rattle.client_core.specs.Hearing.{FrameEntry, Renew};
ghost use Rattle.net_world.specs.ClientNodes.{Stands, Renews, Loses, CutsInRenewal};

use super::{ClientNode, cut, forget};
use client_core::Client;
use disk_model::MemNotes;
use fc_base::{Fault, Generation};
use node::Power;
use std::alloc::{AllocError, Global};

/// A client with a mirror, of so many servers, in the first generation.
pub(crate) fn open_renewed(alloc: Global, servers: u32) -> Result<ClientNode, AllocError>
    requires some { 1 ≤ servers }
    requires few { servers ≤ MAX_SERVERS }
    ensures { IfOk result
        (Stands (record { servers = servers; noted = blank }) (Renew 1 Saved ∷ [])) }
{
    let notes = MemNotes::new(Vec::new(alloc));
    match Client::renew(alloc, servers, notes, Generation(1)) {
        Ok(client) => Ok(Power::On(client)),
        Err(_) => Err(AllocError),
    }
}

/// Its note is lost.
///
/// `NodeOn`: it runs, and nothing changes.
pub(crate) fn lose(node: &mut ClientNode, alloc: Global) -> Result<(), Fault>
    ensures { (opening : Opening) (past : List FrameEntry) → Stands opening past node.old →
        Loses opening past node.new result }
{
    match node {
        Power::Off(notes) => {
            *notes = MemNotes::new(Vec::new(alloc));
            Ok(())
        }
        _ => Err(Fault::NodeOn),
    }
}

/// Starts in this generation, with a mirror.
///
/// `NodeOn`: it runs. `BadNote`: it has a note. `NoMemory`. Nothing changes.
pub(crate) fn renew(
    node: &mut ClientNode,
    alloc: Global,
    servers: u32,
    generation: Generation,
) -> Result<(), Fault>
    requires some { 1 ≤ servers }
    requires few { servers ≤ MAX_SERVERS }
    requires fits { IsTrue (is_generation generation) }
    ensures { (opening : Opening) (past : List FrameEntry) → opening.servers ≡ servers →
        Stands opening past node.old →
        Renews opening past generation node.new result }
{
    client_core::one_note();
    if node.core().is_some() {
        return Err(Fault::NodeOn);
    }
    match node.lend() {
        Some(notes) => node.put(Client::renew(alloc, servers, notes, generation)),
        None => Err(Fault::NodeOn),
    }
}

/// Loses its power within the save of its generation.
///
/// `NodeOn`: it runs. `NoSave`: it has a note, and would make none. `NoMemory`. Nothing changes.
pub(crate) fn cut_in_renewal(
    node: &mut ClientNode,
    alloc: Global,
    servers: u32,
    landed: bool,
    generation: Generation,
) -> Result<(), Fault>
    requires some { 1 ≤ servers }
    requires few { servers ≤ MAX_SERVERS }
    requires fits { IsTrue (is_generation generation) }
    ensures { (opening : Opening) (past : List FrameEntry) → opening.servers ≡ servers →
        Stands opening past node.old →
        CutsInRenewal opening past landed generation node.new result }
{
    if let Err(fault) = renew(node, alloc, servers, generation) {
        return Err(if fault == Fault::BadNote {
            Fault::NoSave
        } else {
            fault
        });
    }
    cut(node, alloc);
    if !landed {
        forget(node, alloc);
    }
    Ok(())
}
