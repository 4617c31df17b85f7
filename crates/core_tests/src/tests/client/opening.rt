//! How a client is opened over its notes.

ghost use Rattle.std.specs.Prelude.{◌≤◌};

use client_core::Client;
use disk_model::Notes;
use fc_base::{Fault, Generation};
use std::alloc::Global;

/// How a client is opened.
#[derive(Clone, Copy)]
pub enum Opening {
    Restarted,
    RestartedWithMirror,
    Renewed(Generation),
}

/// What a row says: `restart`, `restart mirror`, or `renew GENERATION`.
pub fn opening_in(words: &str) -> Option<Opening> {
    match words {
        "restart" => Some(Opening::Restarted),
        "restart mirror" => Some(Opening::RestartedWithMirror),
        _ => renewal_in(words),
    }
}

fn renewal_in(words: &str) -> Option<Opening> {
    let generation = words.strip_prefix("renew ")?;
    Some(Opening::Renewed(Generation(generation.parse::<u64>().ok()?)))
}

/// A client of so many servers, 1 or 2, that is opened so.
pub fn opened<N: Notes>(
    alloc: Global,
    servers: u32,
    notes: N,
    opening: &Opening,
) -> Result<Client<N>, (N, Fault)> {
    let servers = one_or_two(servers);
    match opening {
        Opening::Restarted => Client::restart(alloc, servers, false, notes),
        Opening::RestartedWithMirror => Client::restart(alloc, servers, true, notes),
        Opening::Renewed(generation) => Client::renew(alloc, servers, notes, *generation),
    }
}

/// So many servers, which are 1 or 2.
fn one_or_two(servers: u32) -> u32
    ensures some { 1 ≤ result }
    ensures few { result ≤ 2 }
{
    if servers == 2 { 2 } else { 1 }
}
