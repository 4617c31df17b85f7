//! One list of events out of the histories of all nodes.

ghost use Rattle.std.specs.Prelude.{◌≡◌, length, reverse, IfOk, IfErr, OnOk};
ghost use Rattle.assembly.specs.Orders.{merged_order};
ghost use Rattle.assembly.specs.Names.{IsOrder};
ghost use Rattle.assembly.specs.Ran.{ran_of, history_of};
ghost use Rattle.assembly.specs.Agrees.{AllAgree};
ghost use Rattle.assembly.specs.Unlike.{IsWhy};
ghost use Rattle.assembly.specs.Verdict.{HoldOneStateEach};

use crate::fault::AssembleFault;
use crate::law::{agreeing_nodes_are_a_trace, assembled_nodes_hold_one_state};
use crate::opened::{wrongly_opened, wrongly_seated};
use crate::place::Place;
use crate::told::told;
use cells::{ClientCell, Seat, ServerCell};
use disk_model::Notes;
use messages::Hub;
use std::alloc::Global;

/// All events that stand in the nodes' lists, the oldest first.
#[derive(Drop)]
pub struct Assembled {
    pub order: Vec<Place>,
}

/// One list of all events, in the order that the journal gives: its entries, each behind what its node did
/// since its entry before; then what is left of each server, and of the client.
///
/// `Unlike`: a node doesn't agree with the journal. At place 0 it may be that the client wasn't opened over
/// a blank note, or for just these servers; that a cell isn't the server of its place, or wasn't opened
/// over a blank note; or that a seat of a server hasn't applied as many events as its history has of it.
/// Else it is the first place at which the node's history and the journal differ.
pub fn assemble<N: Notes + Drop>(
    alloc: Global,
    hub: &Hub,
    client: &ClientCell<N>,
    servers: &[ServerCell<N>],
    seats: &[Seat],
) -> Result<Assembled, AssembleFault>
    ensures agrees { OnOk result (AllAgree (ran_of client.now servers.now) hub.now.net seats.now) }
    ensures why { IfErr result (IsWhy (ran_of client.now servers.now) hub.now.net seats.now) }
    ensures order { IfOk result
        (λ a. a.order.items ≡ reverse
        (merged_order (length servers.now)
        (history_of (ran_of client.now servers.now)) hub.now.net.journal)) }
    ensures trace { IfOk result
        (λ a. IsOrder (length servers.now) hub.now.net (history_of (ran_of client.now servers.now))
        (reverse a.order.items)) }
    ensures state { OnOk result (HoldOneStateEach (ran_of client.now servers.now) hub.now.net) }
{
    agreeing_nodes_are_a_trace();
    assembled_nodes_hold_one_state();
    if let Some(node) = wrongly_opened(client, servers) {
        return Err(AssembleFault::Unlike { node, at: 0 });
    }
    if let Some(node) = wrongly_seated(client, servers, seats) {
        return Err(AssembleFault::Unlike { node, at: 0 });
    }
    let order = told(alloc, hub, client, servers)?;
    Ok(Assembled { order })
}
