//! The events of a fleet that has ended, which happen once more in a world, one after the other.

use fc_base::{Fault, ServerNo};
use messages::{Node, Text};
use net_world::{Config, PlainEvent, World, WorldEvent};
use node_threads::{ClientRequest, FleetLeft, Hub, LentEntry, NodeInput, Place};
use server_core::WriteEnd;
use std::alloc::Global;

/// Whether a world in which the events happen, in the order in which they were put, sends the same frames.
/// The sector of each write lands before the write is done.
pub fn sends_the_same(alloc: Global, left: &FleetLeft) -> Result<bool, Fault> {
    let servers = left.client.servers();
    if servers == 0 || servers > 8 {
        return Err(Fault::NoServer);
    }
    let Ok(mut world) = World::new(
        alloc,
        Config {
            servers,
            mirror: false,
        },
    ) else {
        return Err(Fault::NoMemory);
    };
    happen_all(alloc, &mut world, left)?;
    Ok(has_frames(&world, &left.hub))
}

fn happen_all(alloc: Global, world: &mut World, left: &FleetLeft) -> Result<(), Fault> {
    for place in &left.order {
        happen_at(alloc, world, left, place)?;
    }
    Ok(())
}

fn happen_at(
    alloc: Global,
    world: &mut World,
    left: &FleetLeft,
    place: &Place,
) -> Result<(), Fault> {
    let Some(entry) = entry(left, place) else {
        return Err(Fault::NoFrame);
    };
    let server = server_of(place.node);
    let came = &entry.as_entry().came;
    if let Some(landing) = landing(server, came) {
        happen(world, landing)?;
    }
    let event = match came {
        NodeInput::Frame(_) => PlainEvent::Deliver {
            frame: taken_at(&left.hub, place)?,
        },
        came => event_of(alloc, place.node, server, came)?,
    };
    happen(world, event)
}

fn happen(world: &mut World, event: PlainEvent) -> Result<(), Fault> {
    match world.apply(&WorldEvent::Plain(event)) {
        Ok(_) => Ok(()),
        Err(fault) => Err(fault),
    }
}

/// The entry of the node's history at its place.
fn entry<'a>(left: &'a FleetLeft, place: &Place) -> Option<LentEntry<'a>> {
    let history = if place.node == Node::Client {
        left.client.history()
    } else {
        left.servers
            .get(server_of(place.node).0 as usize)?
            .history()
    };
    history.get(place.at as usize)
}

/// What lands before a write is done: the one sector of its block.
fn landing(server: ServerNo, came: &NodeInput) -> Option<PlainEvent> {
    match came {
        NodeInput::WriteDone(ticket, WriteEnd::Done) => Some(PlainEvent::Land {
            server,
            job: ticket.key.job,
            write: ticket.seq,
            mask: 1,
        }),
        _ => None,
    }
}

/// What happens in a world where this comes to a node, which is no frame.
fn event_of(
    alloc: Global,
    node: Node,
    server: ServerNo,
    came: &NodeInput,
) -> Result<PlainEvent, Fault> {
    Ok(match came {
        NodeInput::Frame(_) => return Err(Fault::NoFrame),
        NodeInput::Issue(job) => PlainEvent::Issue { server, job: *job },
        NodeInput::WriteDone(ticket, end) => {
            let (job, write) = (ticket.key.job, ticket.seq);
            match end {
                WriteEnd::Done => PlainEvent::Done { server, job, write },
                WriteEnd::Failed => PlainEvent::Fail { server, job, write },
            }
        }
        NodeInput::CheckDone { job, .. } => PlainEvent::Check { server, job: *job },
        NodeInput::Request(request) => asked(alloc, request)?,
        NodeInput::Tick => PlainEvent::Tick,
        NodeInput::Cut => PlainEvent::Cut { node },
        NodeInput::Restart => PlainEvent::Restart { node },
    })
}

/// What a request of the client's caller is in a world.
fn asked(alloc: Global, request: &ClientRequest) -> Result<PlainEvent, Fault> {
    Ok(match request {
        ClientRequest::Begin(text) => PlainEvent::Begin {
            text: bytes_of(alloc, text)?,
        },
        ClientRequest::Trigger(run, act) => PlainEvent::Trigger {
            run: *run,
            act: *act,
        },
        ClientRequest::Stop(run) => PlainEvent::StopRun { run: *run },
        ClientRequest::Verify(run, text) => PlainEvent::Verify {
            run: *run,
            text: bytes_of(alloc, text)?,
        },
    })
}

/// The server's number; of the client, that of no server.
fn server_of(node: Node) -> ServerNo {
    ServerNo(node.number())
}

/// The number of the frame that was taken there, by the journal.
fn taken_at(hub: &Hub, place: &Place) -> Result<u64, Fault> {
    for line in hub.journal() {
        if line.node == place.node && line.at == place.at {
            return line.taken.ok_or(Fault::NoFrame);
        }
    }
    Err(Fault::NoFrame)
}

fn bytes_of(alloc: Global, text: &Text) -> Result<Vec<u8>, Fault> {
    Vec::from_slice(alloc, text.as_slice()).or(Err(Fault::NoMemory))
}

/// Whether the world's frames are those of the network.
fn has_frames(world: &World, hub: &Hub) -> bool {
    let sent = world.frames();
    if sent.len() != hub.len() {
        return false;
    }
    for number in 0..hub.len() {
        if sent.get(number) != hub.frame(number as u64) {
            return false;
        }
    }
    true
}
