//! What no clause shows: that each call succeeds where memory is there, and what is picked by numbers that
//! were counted by hand.

ghost use Rattle.std.specs.Prelude.{◌≡◌, ◌*◌, ◌≤◌, length, sum_by, All, IfOk, IfSome, OnOk};
ghost use Rattle.messages.specs.Bodies.{length_of};
ghost use Rattle.messages.specs.Network.{IsSpelled, HasRoom};

use fc_base::{RunNo, ServerNo};
use messages::{
    Body, Frames, Hub, Node, Packet, PacketParts, frames_are_spelled, frames_of, look_at,
};
use std::alloc::{AllocError, Global};
use std::test::Fail;

/// The nodes of the rows: two servers, the client, and a server that can't be.
const FIRST: u32 = 0;

const LAST: u32 = 7;

const CLIENT: u32 = 8;

const MIRROR: u32 = 9;

const NONE: u32 = 9;

/// An event of a node: the number of the frame that it takes, to whom it sends one each, and the numbers
/// that words then pick for nodes.
struct Row {
    node: u32,
    taken: Option<u64>,
    to: &'static [u32],
    picks: &'static [(u32, u64, Option<u64>)],
}

const ROWS: [Row; 9] = [
    // Frames 0 to 3.
    Row {
        node: CLIENT,
        taken: None,
        to: &[FIRST, LAST, FIRST, FIRST],
        picks: &[
            (FIRST, 0, Some(0)),
            (FIRST, 1, Some(2)),
            (FIRST, 5, Some(3)),
            (FIRST, u64::MAX, Some(0)),
            (LAST, 9, Some(1)),
            (CLIENT, 0, None),
            (NONE, 0, None),
        ],
    },
    // The one in the middle comes, and frame 4 answers it.
    Row {
        node: FIRST,
        taken: Some(2),
        to: &[CLIENT],
        picks: &[
            (FIRST, 0, Some(0)),
            (FIRST, 1, Some(3)),
            (CLIENT, 3, Some(4)),
        ],
    },
    // It comes once more, and at a node that it isn't for.
    Row {
        node: FIRST,
        taken: Some(2),
        to: &[],
        picks: &[(FIRST, 3, Some(3))],
    },
    Row {
        node: LAST,
        taken: Some(0),
        to: &[],
        picks: &[(FIRST, 0, Some(0)), (LAST, 0, Some(1))],
    },
    // Nothing happens at the network.
    Row {
        node: LAST,
        taken: None,
        to: &[],
        picks: &[(LAST, 0, Some(1))],
    },
    Row {
        node: CLIENT,
        taken: Some(4),
        to: &[LAST],
        picks: &[(CLIENT, 0, None), (LAST, 1, Some(5))],
    },
    Row {
        node: LAST,
        taken: Some(1),
        to: &[],
        picks: &[(LAST, 0, Some(5)), (FIRST, 7, Some(3))],
    },
    Row {
        node: CLIENT,
        taken: None,
        to: &[MIRROR],
        picks: &[(MIRROR, 0, Some(6)), (LAST, 0, Some(5))],
    },
    Row {
        node: MIRROR,
        taken: Some(6),
        to: &[CLIENT],
        picks: &[(MIRROR, 0, None), (CLIENT, 2, Some(7))],
    },
];

/// To whom the frames of all rows went, and the entries of the journal: the node, the row, the frame that it took, and
/// how many it sent.
const TO: [u32; 8] = [FIRST, LAST, FIRST, FIRST, CLIENT, LAST, MIRROR, CLIENT];

const LINES: [(u32, u64, Option<u64>, u64); 8] = [
    (CLIENT, 0, None, 4),
    (FIRST, 1, Some(2), 1),
    (FIRST, 2, Some(2), 0),
    (LAST, 3, Some(0), 0),
    (CLIENT, 5, Some(4), 1),
    (LAST, 6, Some(1), 0),
    (CLIENT, 7, None, 1),
    (MIRROR, 8, Some(6), 1),
];

fn node(number: u32) -> Node {
    match number {
        CLIENT => Node::Client,
        MIRROR => Node::Mirror,
        _ => Node::Server(ServerNo(number)),
    }
}

/// A packet that is short enough for one frame, where the nodes are there.
fn stop(from: Node, to: Node) -> Option<Packet>
    ensures { IfSome result (λ p. length_of p.body ≡ 8) }
{
    let run = RunNo(1);
    let parts = PacketParts {
        from,
        to,
        body: Body::Stop { run },
    };
    if parts.is_packet() {
        Some(Packet::new(parts))
    } else {
        None
    }
}

/// A frame to each of these nodes.
fn frames_to(alloc: Global, from: u32, nodes: &[u32]) -> Result<Frames, AllocError>
    ensures spelled { IfOk result (All IsSpelled) }
    ensures few { IfOk result (λ frames. length frames ≤ 17 * length nodes.now) }
    ensures short { IfOk result (λ frames. sum_by (λ frame. length frame) frames ≤ 841 * length nodes.now) }
{
    frames_are_spelled();
    let mut frames = Frames::new(alloc);
    for to in nodes {
        let Some(packet) = stop(node(from), node(*to)) else {
            return Err(AllocError);
        };
        packet.keeps_its_ranges();
        let more = frames_of(alloc, &packet)?;
        frames.append(&more)?;
    }
    Ok(frames)
}

/// The same, at the second try where the first is refused memory.
fn frames_again(alloc: Global, from: u32, nodes: &[u32]) -> Result<Frames, AllocError>
    ensures spelled { IfOk result (All IsSpelled) }
    ensures few { IfOk result (λ frames. length frames ≤ 17 * length nodes.now) }
    ensures short { IfOk result (λ frames. sum_by (λ frame. length frame) frames ≤ 841 * length nodes.now) }
{
    match frames_to(alloc, from, nodes) {
        Ok(frames) => Ok(frames),
        Err(_) => frames_to(alloc, from, nodes),
    }
}

/// Room for an event that sends to so many nodes, likewise. A try that is refused changes nothing.
fn reserve_again(hub: &mut Hub, nodes: usize) -> Result<(), AllocError>
    requires { nodes ≤ 9 }
    ensures room { OnOk result (HasRoom hub.new.room (17 * nodes) (841 * nodes)) }
    ensures same { hub.new.net ≡ hub.old.net }
{
    match hub.reserve(17 * nodes, 841 * nodes) {
        Ok(()) => Ok(()),
        Err(_) => hub.reserve(17 * nodes, 841 * nodes),
    }
}

/// An event.
fn note(alloc: Global, hub: &mut Hub, at: u64, row: &Row) -> Result<(), Fail> {
    if row.to.len() > 9 {
        return Err("few nodes")?;
    }
    let sent = frames_again(alloc, row.node, row.to)?;
    reserve_again(hub, row.to.len())?;
    match row.taken {
        Some(i) if i >= hub.len() as u64 => Err("a frame")?,
        taken => hub.note(node(row.node), at, taken, &sent),
    }
    Ok(())
}

/// Whether the words of a row pick its numbers.
fn picks(hub: &Hub, row: &Row) -> bool {
    let mut agree = true;
    for (to, word, number) in row.picks {
        agree = agree && hub.pick(node(*to), *word) == *number;
    }
    agree
}

/// Whether the frames go to these nodes, and there are no more.
fn go_to(hub: &Hub, nodes: &[u32]) -> bool {
    let mut agree = hub.frame(nodes.len() as u64).is_none();
    for (i, to) in nodes.iter().enumerate() {
        agree = agree && goes_to(hub, i as u64, node(*to));
    }
    agree
}

fn goes_to(hub: &Hub, i: u64, node: Node) -> bool {
    match hub.frame(i) {
        Some(frame) => look_at(frame).is_some_and(|look| look.to == node),
        None => false,
    }
}

fn has_lines(hub: &Hub, lines: &[(u32, u64, Option<u64>, u64)]) -> bool {
    let mut agree = hub.journal().len() == lines.len();
    for (line, row) in hub.journal().iter().zip(lines) {
        agree = agree && (line.node.number(), line.at, line.taken, line.sent) == *row;
    }
    agree
}

#[test]
fn a_network_by_hand(rt: HostRuntime) -> Result<(), Fail> {
    let mut hub = Hub::new(rt.alloc());
    for (at, row) in ROWS.iter().enumerate() {
        note(rt.alloc(), &mut hub, at as u64, row)?;
        assert!(rt; picks(&hub, row), "after {at}");
    }
    assert!(rt; go_to(&hub, &TO) && has_lines(&hub, &LINES));
    Ok(())
}
