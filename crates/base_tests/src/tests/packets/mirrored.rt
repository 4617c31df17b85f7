//! Frames of what the client and the mirror say to each other.

use super::pieces::old_state;
use super::rows::Rows;
use super::vectors::MIRRORED;
use super::*;
use fc_base::{Fault, Generation};
use messages::decode_frame;
use std::test::Fail;

fn to_mirror(body: Body) -> PacketParts {
    PacketParts {
        from: Node::Client,
        to: Node::Mirror,
        body,
    }
}

fn from_mirror(body: Body) -> PacketParts {
    PacketParts {
        from: Node::Mirror,
        to: Node::Client,
        body,
    }
}

fn copy(alloc: Global, from: Node, to: Node) -> Option<PacketParts> {
    let state = state_of(alloc, JobNo(0))?;
    let body = Body::Copy { state };
    Some(PacketParts { from, to, body })
}

fn copy_ok() -> Body {
    Body::CopyOk {
        run: RunNo(5),
        server: ServerNo(7),
        job: JobNo(15),
    }
}

fn compare_grants(rows: &mut Rows) {
    let generation = Generation(1);
    rows.compare(to_mirror(Body::Fetch { generation }));
    let generation = Generation(4_294_967_295);
    rows.compare(from_mirror(Body::Granted { generation }));
}

fn compare_copies(alloc: Global, rows: &mut Rows) {
    rows.compare_made(copy(alloc, Node::Client, Node::Mirror));
    rows.compare_made(copy(alloc, Node::Mirror, Node::Client));
}

#[test]
fn frames_of_a_mirror(rt: HostRuntime) -> Result<(), Fail> {
    let mut rows = Rows::new(rt.alloc(), &MIRRORED);
    compare_copies(rt.alloc(), &mut rows);
    rows.compare(from_mirror(copy_ok()));
    compare_grants(&mut rows);
    rows.end()
}

/// A Copy of a state in layout 1, in 1,028 bytes.
fn long_copy(alloc: Global) -> Option<Vec<u8>> {
    let state = old_state(alloc)?;
    let header: &[u8] = b"FC\x01\x12\0\0\0\x09\0\0\0\x08\0\0\x04\x04";
    joined(alloc, &[header, state.get(4..)?])
}

/// Whether a frame goes whole: it is written with so many bytes once it is read, and is no frame itself.
fn goes_whole(alloc: Global, frame: &[u8], len: usize) -> bool {
    match written_again(alloc, frame) {
        Some(written) => written.len() == len && is_bad_field(alloc, frame),
        None => false,
    }
}

fn is_bad_field(alloc: Global, frame: &[u8]) -> bool {
    decode_frame(alloc, frame).err() == Some(Fault::FrameBadField)
}

#[test]
fn a_copy_goes_whole(rt: HostRuntime) {
    let whole = match long_copy(rt.alloc()) {
        Some(frame) => goes_whole(rt.alloc(), &frame, 152),
        None => false,
    };
    assert!(rt; whole);
}
