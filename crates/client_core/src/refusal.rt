//! Which packets a client takes, and which of them it saves.

ghost use Rattle.std.specs.Prelude.{◌≡◌, ◌+◌, ◌<◌, ◌^◌, IsTrue, MatchOption};
ghost use Rattle.std.specs.Prelude.{None, Some, is_some, slice_get, true};
ghost use Rattle.messages.specs.Nodes.{node_number};
ghost use Rattle.messages.specs.Ranges.{is_run, is_text};
ghost use Rattle.client_core.specs.Refusals.{is_server_of, is_own, is_from_server, is_from_mirror, is_for_client, is_begun, is_of_generation, is_free_to_number, has_next, faults_of_body};
ghost use Rattle.client_core.specs.Saves.{Keep, addition_by};

use crate::generation::NotedGeneration;
use crate::note::{ClientNote, GENERATION_NUMBERS};
use crate::peers::Peers;
use fc_base::{Fault, MAX_TEXT, RunNo};
use messages::{Body, Node, Packet};
use verify_state::{KEPT_LIMIT, VerifyState};

/// Whether the packet is for the client, and from one of its servers or from the mirror.
#[tactic(auto, unfolding(crate::specs::Refusals::is_for_client))]
pub(crate) fn is_for_client(peers: &Peers, packet: &Packet) -> bool
    ensures { result ≡ is_for_client peers.now packet.now }
{
    packet.to().is_client()
        && (is_from_server(peers.servers.count(), packet) || is_from_mirror(peers.mirror, packet))
}

/// Whether the packet is from one of so many servers, of a kind that servers send, and has no state but
/// the sender's.
#[tactic(auto, unfolding(crate::specs::Refusals::is_from_server))]
fn is_from_server(servers: u32, packet: &Packet) -> bool
    ensures { result ≡ is_from_server servers packet.now }
{
    is_server_of(servers, packet.from())
        && (packet.kind().is_of_server() && is_own(packet.from(), packet.body()))
}

/// Whether there is a mirror, and the packet is from it, of a kind that it sends.
#[tactic(auto, unfolding(crate::specs::Refusals::is_from_mirror))]
fn is_from_mirror(mirror: bool, packet: &Packet) -> bool
    ensures { result ≡ is_from_mirror mirror packet.now }
{
    mirror && (packet.from().is_mirror() && packet.kind().is_of_mirror())
}

/// Whether the node is one of so many servers.
pub(crate) fn is_server_of(servers: u32, node: Node) -> bool
    ensures { result ≡ is_server_of servers node }
{
    match node {
        Node::Server(server) => server.0 < servers,
        Node::Client | Node::Mirror => false,
    }
}

/// Whether a state that the sender sends is its own.
fn is_own(from: Node, body: &Body) -> bool
    ensures { result ≡ is_own (node_number from) body.now }
{
    match body {
        Body::State { state, .. } => state.key().server.0 == from.number(),
        _ => true,
    }
}

/// Whether there is a number above those that were used, which is of the generation, and this was granted.
#[tactic(auto, unfolding(crate::specs::Refusals::has_next))]
pub(crate) fn has_next(peers: &Peers, generation: NotedGeneration, used: u64) -> bool
    ensures { result ≡ has_next peers.now generation used }
{
    used < u64::MAX
        && (is_next_of_generation(peers.mirror, generation, used)
            && is_free_to_number(peers.granted, generation))
}

/// Whether, with a mirror or in a generation, the next number is below those of the next generation.
#[tactic(auto, unfolding(crate::specs::Refusals::is_of_generation))]
fn is_next_of_generation(mirror: bool, generation: NotedGeneration, used: u64) -> bool
    requires { used + 1 < 2 ^ 64 }
    ensures { result ≡ is_of_generation mirror generation (used + 1) }
{
    let generation = generation.number();
    !(mirror || 0 < generation) || (used + 1) / GENERATION_NUMBERS <= generation
}

/// Whether a client of this generation may give numbers: it is of none, or the mirror granted it.
#[tactic(auto, unfolding(crate::specs::Refusals::is_free_to_number))]
fn is_free_to_number(granted: bool, generation: NotedGeneration) -> bool
    ensures { result ≡ is_free_to_number granted generation }
{
    generation.number() == 0 || granted
}

/// Whether the run was begun.
#[tactic(auto, unfolding(crate::specs::Refusals::is_begun))]
pub(crate) fn is_begun(noted: &ClientNote, run: RunNo) -> bool
    ensures begun { result ≡ is_begun noted.now run }
    ensures range { result ≡ true → IsTrue (is_run run) }
{
    let runs = noted.runs;
    run.0 >= 1 && run.0 <= runs
}

/// Whether the text is not too long.
pub(crate) fn is_text(text: &[u8]) -> bool
    ensures { result ≡ is_text text.now }
{
    text.len() <= MAX_TEXT
}

/// Why what a server or the mirror says is refused: another state of the key is kept, or there is no room
/// for one more.
pub(crate) fn fault_of(noted: &ClientNote, body: &Body) -> Option<Fault>
    ensures { result ≡ slice_get (faults_of_body noted.now body.now) 0 }
{
    let (Body::State { state, .. } | Body::Copy { state }) = body else {
        return None;
    };
    match noted.kept.get(state.key()) {
        Some(kept) if !kept.same(state) => Some(Fault::Conflict),
        None if noted.kept.len() >= KEPT_LIMIT => Some(Fault::TableFull),
        _ => None,
    }
}

/// Whether what a server or the mirror says is a state of a key of which none is kept.
pub(crate) fn adds(noted: &ClientNote, body: &Body) -> bool
    ensures { result ≡ is_some (addition_by noted.now body.now) }
{
    match body {
        Body::State { state, .. } | Body::Copy { state } => !noted.kept.has(state.key()),
        _ => false,
    }
}

/// The state that is to be kept: what a server or the mirror says is a state of a key of which none is.
pub(crate) fn new_state(noted: &ClientNote, body: &Body) -> Option<VerifyState>
    ensures { MatchOption result (addition_by noted.now body.now ≡ None)
        (λ s. addition_by noted.now body.now ≡ Some (Keep s)) }
{
    match body {
        Body::State { state, .. } | Body::Copy { state } if !noted.kept.has(state.key()) => {
            Some(*state)
        }
        _ => None,
    }
}
