//! Refusals: their frames, and frames that are refused.

use super::refused::REFUSED;
use super::rows::Rows;
use super::vectors::{LISTED, REFUSALS, WHOLE};
use super::*;
use fc_base::Attempt;
use messages::{Reason, Refusal, RefusedRequest};
use std::test::Fail;

pub(super) fn refused(
    asked: RefusedRequest,
    reason: Reason,
    job: u32,
    jobs: u32,
    run: u64,
    attempt: u64,
    value: u64,
) -> PacketParts {
    let refusal = Refusal {
        asked,
        reason,
        job: JobNo(job),
        jobs,
        run: RunNo(run),
        attempt: Attempt(attempt),
        value,
    };
    from_server(0, Body::Refused(refusal))
}

#[test]
fn frames_of_refusals(rt: HostRuntime) -> Result<(), Fail> {
    let mut rows = Rows::new(rt.alloc(), &REFUSALS);
    rows.compare(refused(RefusedRequest::Jobs, Reason::Old, 0, 0, 1, 0, 7));
    rows.compare(refused(RefusedRequest::Verify, Reason::Misfit, 3, 4, 1, 9, 38));
    rows.compare(refused(RefusedRequest::Trigger, Reason::Unknown, 0, 0, 9, 0, 1));
    rows.end()
}

#[test]
fn refused_frames(rt: HostRuntime) -> Result<(), Fail> {
    for (row, (number, bytes)) in REFUSED.iter().enumerate() {
        if refusal(rt.alloc(), bytes) != *number {
            return Err(Fail::new(row));
        }
    }
    Ok(())
}

/// Whether each prefix is refused as too short.
fn are_short(alloc: Global, frame: &[u8]) -> bool {
    let mut agree = true;
    for len in 0..frame.len() {
        agree = agree && refusal(alloc, &frame[..len]) == 40;
    }
    agree
}

#[test]
fn fronts_of_frames_are_short(rt: HostRuntime) -> Result<(), Fail> {
    for (row, frame) in WHOLE.iter().enumerate() {
        if !are_short(rt.alloc(), frame) {
            return Err(Fail::new(row));
        }
    }
    Ok(())
}

/// Whether bytes are refused, or else say a packet whose frame they are, or, where they hold a state in
/// layout 1, one whose frame is read and written again as it is.
fn says_or_refuses(alloc: Global, frame: &[u8]) -> bool {
    let Ok(packet) = decode(alloc, frame) else {
        return true;
    };
    let agree = says(alloc, &packet, frame);
    drop(packet);
    agree
}

fn says(alloc: Global, packet: &Packet, frame: &[u8]) -> bool {
    match encode(alloc, packet) {
        Ok(again) => again.as_slice() == frame || is_written_as(alloc, &again, &again),
        Err(_) => false,
    }
}

/// Whether the packet that a frame says has this frame.
fn is_written_as(alloc: Global, frame: &[u8], written: &[u8]) -> bool {
    match written_again(alloc, frame) {
        Some(again) => again.as_slice() == written,
        None => false,
    }
}

/// The same of the bytes with another byte at this place. They are left as they were.
fn says_or_refuses_with(alloc: Global, bytes: &mut [u8], at: usize, byte: u8) -> bool {
    if at >= bytes.len() {
        return false;
    }
    let old = bytes[at];
    bytes[at] = byte;
    let agree = says_or_refuses(alloc, bytes);
    bytes[at] = old;
    agree
}

/// The same of the bytes, of which each in turn is another.
fn says_or_refuses_each(alloc: Global, bytes: &mut [u8], byte: u8) -> bool {
    let mut agree = true;
    for at in 0..bytes.len() {
        agree = agree && says_or_refuses_with(alloc, bytes, at, byte);
    }
    agree
}

fn says_or_refuses_changed(alloc: Global, frame: &[u8], byte: u8) -> bool {
    match Vec::from_slice(alloc, frame) {
        Ok(mut bytes) => says_or_refuses_each(alloc, &mut bytes, byte),
        Err(_) => false,
    }
}

/// The same of each of the frames.
fn all_say_or_refuse(alloc: Global, byte: u8) -> bool {
    let mut agree = true;
    for frame in &WHOLE {
        agree = agree && says_or_refuses_changed(alloc, frame, byte);
    }
    agree
}

#[test]
fn each_byte_changed(rt: HostRuntime) -> Result<(), Fail> {
    for byte in &CHANGED {
        if !all_say_or_refuse(rt.alloc(), *byte) {
            return Err(Fail::new(*byte));
        }
    }
    Ok(())
}

#[test]
fn states_in_layout_1(rt: HostRuntime) -> Result<(), Fail> {
    for (row, (listed, frame)) in LISTED.iter().enumerate() {
        if !is_written_as(rt.alloc(), listed, frame) {
            return Err(Fail::new(row));
        }
    }
    Ok(())
}
