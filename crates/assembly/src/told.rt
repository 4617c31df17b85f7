//! All events, told in the order of the journal.

ghost use Rattle.std.specs.Prelude.{◌≡◌, ◌≤◌, [], length, reverse, IfOk, IfErr, OnOk};
ghost use Rattle.messages.specs.Journal.{IsLegal};
ghost use Rattle.assembly.specs.Laws.{Agree};
ghost use Rattle.assembly.specs.Orders.{merged_order};
ghost use Rattle.messages.specs.declared.node.Node.{Node as Name};
ghost use Rattle.assembly.specs.Ran.{ran_of, history_of};
ghost use Rattle.assembly.specs.Agrees.{IsOpened, IsMarked};
ghost use Rattle.assembly.specs.Order.{Differs, IsFollowed, nothing_followed};

use crate::fault::AssembleFault;
use crate::law::histories_rise;
use crate::order::Order;
use crate::place::Place;
use cells::{ClientCell, History, ServerCell};
use disk_model::Notes;
use fc_base::{MAX_SERVERS, ServerNo};
use messages::{Hub, Node};
use std::alloc::Global;

/// The events of nodes that were opened rightly, in the order that the journal gives. A node and the journal
/// that differ are `Unlike`.
pub(crate) fn told<N: Notes + Drop>(
    alloc: Global,
    hub: &Hub,
    client: &ClientCell<N>,
    servers: &[ServerCell<N>],
) -> Result<Vec<Place>, AssembleFault>
    requires { (node : Name) → IsOpened (ran_of client.now servers.now) node }
    ensures agree { OnOk result
        (Agree (length servers.now) hub.now.net (history_of (ran_of client.now servers.now))) }
    ensures merged { IfOk result
        (λ places. places.items
        ≡ reverse (merged_order (length servers.now)
        (history_of (ran_of client.now servers.now)) hub.now.net.journal)) }
    ensures differs { IfErr result (Differs (ran_of client.now servers.now) hub.now.net) }
{
    let mut order = Order::new(alloc);
    let none = History::new(alloc);
    follow_journal(&mut order, hub, client, servers, &none)?;
    follow_rest(&mut order, hub, client, servers)?;
    Ok(order.into_places())
}

/// Follows each node up to its last entry in the journal. One that has no cell has no history.
fn follow_journal<N: Notes + Drop>(
    order: &mut Order,
    hub: &Hub,
    client: &ClientCell<N>,
    servers: &[ServerCell<N>],
    none: &History,
) -> Result<(), AssembleFault>
    requires none { none.now.items ≡ [] }
    requires few { length servers.now ≤ MAX_SERVERS }
    requires new { order.old ≡ nothing_followed }
    ensures legal { IsLegal hub.now.net }
    ensures followed { OnOk result
        (IsFollowed (ran_of client.now servers.now) hub.now.net hub.now.net.journal order.new) }
    ensures differs { IfErr result (Differs (ran_of client.now servers.now) hub.now.net) }
{
    histories_rise();
    let _frames = hub.len();
    let mut sent = 0;
    for line in hub.journal() {
        let history = history_of(client, servers, line.node, none);
        order.tell(hub, sent, line, history)?;
        sent += line.sent;
    }
    Ok(())
}

/// Follows each node to its end, behind its last entry: the servers, and then the client.
fn follow_rest<N: Notes + Drop>(
    order: &mut Order,
    hub: &Hub,
    client: &ClientCell<N>,
    servers: &[ServerCell<N>],
) -> Result<(), AssembleFault>
    requires opened { (node : Name) → IsOpened (ran_of client.now servers.now) node }
    requires followed { IsFollowed
        (ran_of client.now servers.now) hub.now.net hub.now.net.journal order.old }
    ensures marked { OnOk result
        ((node : Name) → IsMarked (ran_of client.now servers.now) hub.now.net node) }
    ensures merged { OnOk result
        (order.new.places ≡ reverse
        (merged_order (length servers.now)
        (history_of (ran_of client.now servers.now)) hub.now.net.journal)) }
    ensures differs { IfErr result (Differs (ran_of client.now servers.now) hub.now.net) }
{
    histories_rise();
    for number in 0..client.servers() {
        let history = servers[number as usize].history();
        order.pass(
            &Node::Server(ServerNo(number)),
            history,
            history.len() as u64,
        )?;
    }
    let history = client.history();
    order.pass(&Node::Client, history, history.len() as u64)
}

/// The history of a node, the oldest event first; the empty one where it has no cell.
fn history_of<'a, N: Notes + Drop>(
    client: &'a ClientCell<N>,
    servers: &'a [ServerCell<N>],
    node: Node,
    none: &'a History,
) -> &'a History
    requires { none.now.items ≡ [] }
    ensures { result.now.items ≡ reverse (history_of (ran_of client.now servers.now) node) }
{
    match node {
        Node::Client => client.history(),
        Node::Mirror => none,
        Node::Server(number) => match servers.get(number.0 as usize) {
            Some(cell) => cell.history(),
            None => none,
        },
    }
}
