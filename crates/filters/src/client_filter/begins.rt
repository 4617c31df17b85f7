//! The client is opened over its note.

ghost use Rattle.std.specs.Prelude.{◌≤◌};
ghost use Rattle.fc_base.specs.declared.limits.TheConstants.{MAX_SERVERS};
ghost use Rattle.filters.specs.declared.beginning.Beginning.TheVariants.{Renewed};
ghost use Rattle.filters.specs.ClientLives.{restarts};
ghost use Rattle.filters.specs.ClientRuns.{OpensOver};

use crate::beginning::Beginning;
use crate::note_buffer::NoteBuffer;
use client_core::Client;
use fc_base::{Fault, Generation};
use std::alloc::Global;

/// The client of so many servers over this note, as it begins.
pub(super) fn open(
    alloc: Global,
    servers: u32,
    beginning: &Beginning,
    note: Vec<u8>,
) -> Result<Client<NoteBuffer>, Fault>
    requires some { 1 ≤ servers }
    requires few { servers ≤ MAX_SERVERS }
    ensures { OpensOver beginning.now servers note.items result }
{
    match beginning {
        Beginning::Alone => restart(alloc, servers, false, note),
        Beginning::Mirrored => restart(alloc, servers, true, note),
        Beginning::Renewed(generation) => renew(alloc, servers, *generation, note),
    }
}

/// The client is restarted, with a mirror or without one.
fn restart(
    alloc: Global,
    servers: u32,
    mirror: bool,
    note: Vec<u8>,
) -> Result<Client<NoteBuffer>, Fault>
    requires some { 1 ≤ servers }
    requires few { servers ≤ MAX_SERVERS }
    ensures { OpensOver (restarts mirror) servers note.items result }
{
    match Client::restart(alloc, servers, mirror, NoteBuffer::new(note)) {
        Ok(client) => Ok(client),
        Err((_, fault)) => Err(fault),
    }
}

/// The client begins anew in this generation, since its note was lost.
fn renew(
    alloc: Global,
    servers: u32,
    generation: Generation,
    note: Vec<u8>,
) -> Result<Client<NoteBuffer>, Fault>
    requires some { 1 ≤ servers }
    requires few { servers ≤ MAX_SERVERS }
    ensures { OpensOver (Renewed generation) servers note.items result }
{
    match Client::renew(alloc, servers, NoteBuffer::new(note), generation) {
        Ok(client) => Ok(client),
        Err((_, fault)) => Err(fault),
    }
}
