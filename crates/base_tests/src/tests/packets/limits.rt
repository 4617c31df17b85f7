//! The longest text, and packets past a range.

use super::refusals::refused;
use super::*;
use messages::{Reason, RefusedRequest};

/// Whether so many letters are a text.
fn are_text(alloc: Global, count: usize) -> Option<bool> {
    let letters = vec![in alloc; b'a'; count].ok()?;
    Some(Text::make(letters).is_ok())
}

/// The frame of a text of this many letters.
fn frame_of_letters(alloc: Global, count: usize) -> Option<Vec<u8>> {
    let packet = packet_of_letters(alloc, 1, count)?;
    encode(alloc, &packet).ok()
}

/// The refusals of a frame with a letter more, and of the same with this last byte of its length.
fn refusals_of_longer(alloc: Global, frame: &mut Vec<u8>, length: u8) -> Option<(u8, u8)> {
    frame.push(b'a').ok()?;
    let longer = refusal(alloc, frame);
    *frame.get_mut(15)? = length;
    Some((longer, refusal(alloc, frame)))
}

/// The length of the longest text's frame, its refusal, which is none, and those of longer ones.
fn longest(alloc: Global) -> Option<(usize, u8, (u8, u8))> {
    let mut frame = frame_of_letters(alloc, 16_384)?;
    let (len, none) = (frame.len(), refusal(alloc, &frame));
    Some((len, none, refusals_of_longer(alloc, &mut frame, 9)?))
}

#[test]
fn longest_text(rt: HostRuntime) {
    assert!(rt; are_text(rt.alloc(), 16_385) == Some(false));
    assert!(rt; longest(rt.alloc()) == Some((16_408, 0, (45, 43))));
}

fn is_packet(parts: PacketParts) -> bool {
    Packet::make(parts).is_ok()
}

fn is_stopped(server: u32, run: u64) -> bool {
    is_packet(from_server(server, Body::Stopped { run: RunNo(run) }))
}

/// Whether a packet has the state of a job of so many jobs.
fn is_state(alloc: Global, job: u32, jobs: u32) -> Option<bool> {
    let state = state_of(alloc, JobNo(job))?;
    Some(is_packet(from_server(0, Body::State { jobs, state })))
}

fn is_refused_without_a_job() -> bool {
    is_packet(refused(RefusedRequest::Jobs, Reason::Old, 0, 1, 1, 0, 7))
}

#[test]
fn packets_out_of_their_ranges(rt: HostRuntime) {
    assert!(rt; is_state(rt.alloc(), 1, 1) == Some(false));
    assert!(rt; !is_stopped(0, 0) && !is_stopped(8, 1) && !is_refused_without_a_job());
}
