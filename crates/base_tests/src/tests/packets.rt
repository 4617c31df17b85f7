//! What no clause shows: that frames are those that others computed, and that each call answers with
//! ample memory.

mod allocations;
mod changed_frames;
mod changed_pieces;
mod frames;
mod limits;
mod looks;
mod mirror_changes;
mod mirrored;
mod pieces;
mod refusals;
mod refused;
mod reports;
mod rows;
mod run;
mod sweeps;
mod vectors;

use fc_base::{JobNo, JobParts, JobRecord, Key, Kind, RunNo, Seq, ServerNo, Verify};
use messages::{Body, Node, Packet, PacketParts, Text, decode, encode};
use std::alloc::{AllocGlobal, Global};
use verify_state::VerifyState;

/// Two blocks, written in turn, two at a time.
const JOB: JobParts = JobParts {
    kind: Kind::Sequential,
    verify: Verify::Stamp,
    pattern: 0,
    bs: 512,
    blocks: 2,
    total: 2,
    seed: 1,
    depth: 2,
    window: 2,
};

/// What each byte of a frame is changed to.
static CHANGED: [u8; 4] = [0, 1, 0x80, 0xff];

/// Where the generator stands for that job.
const PLACE: [u64; 4] = [
    0xcfc5_d07f_6f03_c29b,
    0xbf42_4132_963f_e08d,
    0x19a3_7d57_57aa_f520,
    0xbf08_119f_05cd_56d6,
];

/// A state of that job: write 0 is done, and write 1 open.
fn state_of(alloc: Global, job: JobNo) -> Option<VerifyState> {
    let key = Key {
        run: RunNo(1),
        server: ServerNo(0),
        job,
    };
    let record = JobRecord::make(JOB)?;
    let done = vec![in alloc; Seq(0)].ok()?;
    VerifyState::make(key, &record, 2, PLACE, done).ok()
}

fn text(alloc: Global, bytes: &[u8]) -> Option<Text> {
    Text::make(Vec::from_slice(alloc, bytes).ok()?).ok()
}

fn from_client(server: u32, body: Body) -> PacketParts {
    PacketParts {
        from: Node::Client,
        to: Node::Server(ServerNo(server)),
        body,
    }
}

fn from_server(server: u32, body: Body) -> PacketParts {
    PacketParts {
        from: Node::Server(ServerNo(server)),
        to: Node::Client,
        body,
    }
}

/// The parts of a packet with this text.
fn jobs(alloc: Global, server: u32, run: u64, bytes: &[u8]) -> Option<PacketParts> {
    let text = text(alloc, bytes)?;
    let run = RunNo(run);
    Some(from_client(server, Body::Jobs { run, text }))
}

/// The packet with a text of so many letters, in a run.
fn packet_of_letters(alloc: Global, run: u64, count: usize) -> Option<Packet> {
    let letters = vec![in alloc; b'a'; count].ok()?;
    Packet::make(jobs(alloc, 0, run, &letters)?).ok()
}

/// Whether a packet has this frame.
fn has_frame(alloc: Global, packet: &Packet, frame: &[u8]) -> bool {
    match encode(alloc, packet) {
        Ok(written) => written.as_slice() == frame,
        Err(_) => false,
    }
}

/// The frame of the packet that a frame says.
fn written_again(alloc: Global, frame: &[u8]) -> Option<Vec<u8>> {
    match decode(alloc, frame) {
        Ok(packet) => encode(alloc, &packet).ok(),
        Err(_) => None,
    }
}

/// The bytes of these parts, one behind the other.
fn joined(alloc: Global, parts: &[&[u8]]) -> Option<Vec<u8>> {
    let mut bytes = Vec::new(alloc);
    for part in parts {
        bytes.extend_from_slice(part).ok()?;
    }
    Some(bytes)
}

/// The number of the refusal of these bytes, or 0.
fn refusal(alloc: Global, bytes: &[u8]) -> u8 {
    match decode(alloc, bytes) {
        Ok(_) => 0,
        Err(fault) => fault.number(),
    }
}
