//! What worlds show.

use fc_base::{JobNo, Key, RunNo, ServerNo};
use net_world::World;
use server_core::Status;
use verify_state::VerifyState;

/// What a world shows of itself in short: how many frames there are, and its first servers and keys.
#[derive(Clone, Copy, PartialEq)]
pub struct Shown {
    frames: usize,
    servers: [Option<Status>; 2],
    kept: [bool; 2],
}

pub fn shown_by(world: &World) -> Shown {
    Shown {
        frames: world.frames().len(),
        servers: [world.status(ServerNo(0)), world.status(ServerNo(1))],
        kept: [
            world.saved(key(1, 0, 0)).is_some(),
            world.saved(key(2, 0, 0)).is_some(),
        ],
    }
}

/// The key of this run, server and job.
pub fn key(run: u64, server: u32, job: u32) -> Key {
    Key {
        run: RunNo(run),
        server: ServerNo(server),
        job: JobNo(job),
    }
}

/// Whether two worlds show the same: each frame, each server, and what is kept of the keys of the first
/// runs.
pub fn are_same(one: &World, other: &World) -> bool {
    have_same_frames(one, other)
        && (0..9).all(|server| one.status(ServerNo(server)) == other.status(ServerNo(server)))
        && (0..4).all(|run| keep_same_of_run(one, other, run))
}

fn have_same_frames(one: &World, other: &World) -> bool {
    let frames = one.frames().len();
    frames == other.frames().len()
        && (0..frames).all(|index| one.frames().get(index) == other.frames().get(index))
}

fn keep_same_of_run(one: &World, other: &World, run: u64) -> bool {
    (0..8).all(|server| {
        (0..16).all(|job| {
            are_same_states(
                one.saved(key(run, server, job)),
                other.saved(key(run, server, job)),
            )
        })
    })
}

/// Whether two states are the same, or neither is there.
pub fn are_same_states(one: Option<&VerifyState>, other: Option<&VerifyState>) -> bool {
    match (one, other) {
        (None, None) => true,
        (Some(one), Some(other)) => one.same(other),
        _ => false,
    }
}
