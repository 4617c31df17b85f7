//! What is left of a fleet.

ghost use Rattle.std.specs.Prelude.{IfOk};
ghost use Rattle.node_threads.specs.OneRun.{IsOneRun};

use assembly::{Assembled, Place, assemble};
use cells::Seat;
use fc_base::Fault;
use fleet_threads::{Client, Nodes, Server, WorkerSeat, add};
use messages::Hub;
use std::alloc::Global;

/// What is left of a fleet that has ended: the network, the nodes with their histories, the seats of all
/// servers, and all that has happened in one order, the oldest first.
pub struct FleetLeft {
    pub hub: Hub,
    pub client: Client,
    pub servers: Vec<Server>,
    pub seats: Vec<Seat>,
    pub order: Vec<Place>,
}

/// By hand, so that the crates above need no proof of it.
impl Drop for FleetLeft {
    fn drop(self) {
        let FleetLeft {
            hub: _,
            client: _,
            servers: _,
            seats: _,
            order: _,
        } = self;
    }
}

/// Takes the nodes out of their locks, and the seats out of all hands, and makes one list of all events.
pub(crate) fn take_apart(
    alloc: Global,
    nodes: Nodes,
    posts: Vec<Seat>,
    hands: Vec<WorkerSeat>,
) -> Result<FleetLeft, Fault>
    ensures { IfOk result IsOneRun }
{
    let Nodes {
        hub,
        client,
        servers: cells,
        files: _,
    } = nodes;
    let mut servers = Vec::new(alloc);
    for cell in cells {
        add(&mut servers, cell.into_inner())?;
    }
    let mut seats = posts;
    for hand in hands {
        if let Some(seat) = hand.into_seat() {
            add(&mut seats, seat)?;
        }
    }
    put_in_order(alloc, hub.into_inner(), client.into_inner(), servers, seats)
}

/// Puts all that has happened in one order.
fn put_in_order(
    alloc: Global,
    hub: Hub,
    client: Client,
    servers: Vec<Server>,
    seats: Vec<Seat>,
) -> Result<FleetLeft, Fault>
    ensures { IfOk result IsOneRun }
{
    let order = match assemble(alloc, &hub, &client, &servers, &seats) {
        Ok(Assembled { order }) => order,
        Err(fault) => return Err(fault.fault()),
    };
    Ok(FleetLeft {
        hub,
        client,
        servers,
        seats,
        order,
    })
}
