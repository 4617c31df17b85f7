//! The client of a world, which may be off.

ghost use Rattle.std.specs.Prelude.{◌≡◌, ◌≤◌, ◌&&◌, ◌∷◌, [], false, List, IfOk, IfErr};
ghost use Rattle.std.specs.Option.{option_copied};
ghost use Rattle.fc_base.specs.declared.limits.TheConstants.{MAX_SERVERS};
ghost use Rattle.fc_base.specs.declared.fault.Fault.TheVariants.{NoMemory};
ghost use Rattle.disk_model.specs.MemNotes.{Saved as Kept};
ghost use Rattle.client_core.specs.Note.{blank, is_blank};
ghost use Rattle.client_core.specs.History.{Opening};
ghost use Rattle.client_core.specs.Hearing.{FrameEntry, Restart, Cut, is_up, packets_heard};
ghost use Rattle.client_core.specs.Words.{words_noted};
ghost use Rattle.node.specs.declared.power.Power.TheVariants.{Off};
ghost use Rattle.node.specs.Kinds.{Shows};
ghost use Rattle.net_world.specs.ClientNodes.{client_nodes, HasNone, Stands, Restarts};

mod asks;
mod cut_in;
mod renewal;

pub(crate) use asks::ask;
use client_core::{Client, ClientSeed};
pub(crate) use cut_in::cut_in;
use disk_model::MemNotes;
use fc_base::Fault;
use node::Power;
pub(crate) use renewal::{cut_in_renewal, lose, open_renewed, renew};
use std::alloc::Global;

/// A client that runs, or the notes of one that is off. Where these say nothing, they have no bytes: a client
/// that was never saved leaves none.
pub(crate) type ClientNode = Power<Client<MemNotes>, MemNotes>;

/// A client of so many servers on a blank note.
pub(crate) fn open(alloc: Global, servers: u32) -> Result<ClientNode, Fault>
    requires some { 1 ≤ servers }
    requires few { servers ≤ MAX_SERVERS }
    ensures stands { IfOk result
        (Stands (record { servers = servers; noted = blank }) (Restart false ∷ [])) }
    ensures fault { IfErr result (λ fault. fault ≡ NoMemory) }
{
    match Client::restart(alloc, servers, false, MemNotes::new(Vec::new(alloc))) {
        Ok(client) => Ok(Power::On(client)),
        Err(_) => Err(Fault::NoMemory),
    }
}

/// Whether it runs.
pub(crate) fn runs(node: &ClientNode) -> bool
    ensures { (opening : Opening) (past : List FrameEntry) → Stands opening past node.now →
        result ≡ is_up opening past }
{
    node.core().is_some()
}

/// The client, while it runs.
pub(crate) fn client(node: &ClientNode) -> Option<&Client<MemNotes>>
    ensures { (opening : Opening) (past : List FrameEntry) → Stands opening past node.now →
        Shows (client_nodes opening) past node.now (option_copied result) }
{
    node.core()
}

/// Loses its power, where it has any.
pub(crate) fn cut(node: &mut ClientNode, alloc: Global)
    ensures { (opening : Opening) (past : List FrameEntry) → Stands opening past node.old →
        Stands opening (Cut ∷ past) node.new }
{
    let says_nothing = says_nothing(node);
    let _was_on = node.cut();
    if says_nothing {
        forget(node, alloc);
    }
}

/// Whether it runs, and its note says nothing.
fn says_nothing(node: &ClientNode) -> bool
    ensures { (opening : Opening) (past : List FrameEntry) → Stands opening past node.now →
        result ≡ (is_up opening past
        && is_blank (words_noted opening (packets_heard opening past))) }
{
    client_core::looks_at_all();
    match client(node) {
        Some(client) => client.is_blank(),
        None => false,
    }
}

/// The notes of one that is off are lost.
fn forget(node: &mut ClientNode, alloc: Global)
    ensures { (notes : Kept) → node.old ≡ Off notes → HasNone node.new }
{
    if let Power::Off(notes) = node {
        *notes = MemNotes::new(Vec::new(alloc));
    }
}

/// Starts again, with a mirror or without one.
///
/// `NodeOn`: it runs. `BadNote`: there is a mirror, and no note. `NoMemory`. Nothing changes.
pub(crate) fn restart(
    node: &mut ClientNode,
    alloc: Global,
    servers: u32,
    mirror: bool,
) -> Result<(), Fault>
    requires some { 1 ≤ servers }
    requires few { servers ≤ MAX_SERVERS }
    ensures { (opening : Opening) (past : List FrameEntry) → opening.servers ≡ servers →
        Stands opening past node.old →
        Restarts opening past mirror node.new result }
{
    client_core::one_note();
    node.restart(alloc, ClientSeed { servers, mirror })
}
