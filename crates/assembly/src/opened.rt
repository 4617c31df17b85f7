//! How the nodes were opened, and their seats.

ghost use Rattle.std.specs.Prelude.{◌≡◌, All, Decides, IfSome, IfNone};
ghost use Rattle.messages.specs.declared.node.Node.{Node as Name};
ghost use Rattle.messages.specs.declared.node.Node.TheVariants.{Server, Client};
ghost use Rattle.net_world.specs.Trace.{opening_of};
ghost use Rattle.assembly.specs.Ran.{ran_of};
ghost use Rattle.assembly.specs.Agrees.{IsOpened, IsSeatOf};

use cells::{ClientCell, Seat, ServerCell};
use disk_model::Notes;
use fc_base::{MAX_SERVERS, ServerNo};
use messages::Node;

/// A node that wasn't opened rightly, if there is one.
pub(crate) fn wrongly_opened<N: Notes + Drop>(
    client: &ClientCell<N>,
    servers: &[ServerCell<N>],
) -> Option<Node>
    ensures none { IfNone result ((node : Name) → IsOpened (ran_of client.now servers.now) node) }
    ensures some { IfSome result (λ node. IsOpened (ran_of client.now servers.now) node → ⊥) }
{
    if !is_opened_for(client, servers) {
        return Some(Node::Client);
    }
    for number in 0..client.servers() {
        if !is_opened_as(&servers[number as usize], number) {
            return Some(Node::Server(ServerNo(number)));
        }
    }
    None
}

/// Whether the client was opened over a blank note, and drives just these servers, eight at most.
fn is_opened_for<N: Notes + Drop>(client: &ClientCell<N>, servers: &[ServerCell<N>]) -> bool
    ensures { Decides result (IsOpened (ran_of client.now servers.now) Client) }
{
    let count = client.servers();
    if count as usize != servers.len() || count > MAX_SERVERS {
        return false;
    }
    client.is_blank()
}

/// Whether a cell is the server of this number, and was opened over a blank note.
fn is_opened_as<N: Notes + Drop>(cell: &ServerCell<N>, number: u32) -> bool
    ensures { Decides result (cell.now.opening ≡ opening_of number) }
{
    cell.me().0 == number && cell.is_blank()
}

/// A server of which a seat doesn't fit the history, if there is one.
pub(crate) fn wrongly_seated<N: Notes + Drop>(
    client: &ClientCell<N>,
    servers: &[ServerCell<N>],
    seats: &[Seat],
) -> Option<Node>
    requires { (node : Name) → IsOpened (ran_of client.now servers.now) node }
    ensures none { IfNone result
        ((node : Name) → All (IsSeatOf (ran_of client.now servers.now) node) seats.now) }
    ensures some { IfSome result
        (λ node. All (IsSeatOf (ran_of client.now servers.now) node) seats.now → ⊥) }
{
    for seat in seats {
        if !fits(client, servers, seat) {
            return Some(Node::Server(seat.server()));
        }
    }
    None
}

/// Whether a seat has applied as many events as the history of its server has of it.
fn fits<N: Notes + Drop>(client: &ClientCell<N>, servers: &[ServerCell<N>], seat: &Seat) -> bool
    requires { (node : Name) → IsOpened (ran_of client.now servers.now) node }
    ensures { Decides result
        (IsSeatOf (ran_of client.now servers.now) (Server seat.now.server) seat.now) }
{
    match servers.get(seat.server().0 as usize) {
        Some(cell) => cell.is_right(seat),
        None => seat.applied() == 0,
    }
}
