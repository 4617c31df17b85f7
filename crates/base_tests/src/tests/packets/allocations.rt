//! Calls that are refused memory once: what is there stays, and the next try answers.

use super::pieces::piece_in;
use super::*;
use fc_base::Fault;
use messages::{Assembly, Frame, Frames, Piece, decode_frame, frames_of};

/// A packet in two pieces, at the second try where the first is refused memory.
fn packet_again(alloc: Global) -> Option<Packet> {
    match packet_of_letters(alloc, 1, 2_000) {
        None => packet_of_letters(alloc, 1, 2_000),
        packet => packet,
    }
}

/// The frames of a packet, likewise.
fn frames_again(alloc: Global, packet: &Packet) -> Option<Frames> {
    match frames_of(alloc, packet) {
        Ok(frames) => Some(frames),
        Err(_) => frames_of(alloc, packet).ok(),
    }
}

/// The piece that these bytes are, likewise.
fn piece_again(alloc: Global, bytes: &[u8]) -> Option<Piece> {
    match decode_frame(alloc, bytes) {
        Ok(Frame::Piece(piece)) => Some(piece),
        Err(Fault::FrameNoMemory) => piece_in(alloc, bytes),
        _ => None,
    }
}

/// What looking at a piece gives, likewise.
fn look_again(kept: &Assembly, piece: &Piece) -> Result<Option<Packet>, Fault> {
    match kept.look(piece) {
        Err(Fault::NoMemory) => kept.look(piece),
        answer => answer,
    }
}

fn gives_nothing(kept: &Assembly, piece: &Piece) -> bool {
    match look_again(kept, piece) {
        Ok(None) => true,
        Ok(Some(packet)) => {
            drop(packet);
            false
        }
        Err(_) => false,
    }
}

/// Whether looking at a piece gives this packet.
fn gives(alloc: Global, kept: &Assembly, piece: &Piece, packet: &Packet) -> bool {
    match look_again(kept, piece) {
        Ok(Some(given)) => {
            let same = are_alike(alloc, &given, packet);
            drop(given);
            same
        }
        _ => false,
    }
}

/// Whether two packets have the same frame.
fn are_alike(alloc: Global, one: &Packet, other: &Packet) -> bool {
    match frame_again(alloc, one) {
        Some(frame) => has_frame(alloc, other, &frame) || has_frame(alloc, other, &frame),
        None => false,
    }
}

/// The frame of a packet, likewise.
fn frame_again(alloc: Global, packet: &Packet) -> Option<Vec<u8>> {
    match encode(alloc, packet) {
        Ok(frame) => Some(frame),
        Err(_) => encode(alloc, packet).ok(),
    }
}

/// Takes the first of two pieces, likewise. A try that is refused leaves the last one to give nothing.
fn takes_again(kept: &mut Assembly, first: &Piece, last: &Piece) -> bool {
    kept.take(first).is_ok() || (gives_nothing(kept, last) && kept.take(first).is_ok())
}

/// Whether two pieces that are taken one after the other give this packet, though one allocation of the
/// calls is refused.
fn come_together(alloc: Global, first: &Piece, last: &Piece, packet: &Packet) -> bool {
    let mut kept = Assembly::new(alloc);
    let together = come_together_in(alloc, &mut kept, first, last, packet);
    drop(kept);
    together
}

fn come_together_in(
    alloc: Global,
    kept: &mut Assembly,
    first: &Piece,
    last: &Piece,
    packet: &Packet,
) -> bool {
    gives_nothing(kept, last)
        && takes_again(kept, first, last)
        && gives(alloc, kept, last, packet)
        && kept.take(last).is_ok()
        && gives_nothing(kept, last)
}

/// The same of the pieces that these bytes are.
fn bytes_come_together(alloc: Global, first: &[u8], last: &[u8], packet: &Packet) -> bool {
    let Some(first) = piece_again(alloc, first) else {
        return false;
    };
    match piece_again(alloc, last) {
        Some(last) => come_together(alloc, &first, &last, packet),
        None => false,
    }
}

/// The same of a packet's frames.
fn frames_come_together(alloc: Global, frames: &Frames, packet: &Packet) -> bool {
    match (frames.get(0), frames.get(1)) {
        (Some(first), Some(last)) => bytes_come_together(alloc, first, last, packet),
        _ => false,
    }
}

fn comes_together(alloc: Global, packet: &Packet) -> bool {
    match frames_again(alloc, packet) {
        Some(frames) => frames_come_together(alloc, &frames, packet),
        None => false,
    }
}

#[test]
fn a_refused_allocation_changes_nothing(rt: HostRuntime) {
    let together = match packet_again(rt.alloc()) {
        Some(packet) => comes_together(rt.alloc(), &packet),
        None => false,
    };
    assert!(rt; together);
}
