//! What the client's note shows of each state, command by command.

use fc_base::Key;
use messages::{Body, Frame, decode_frame};
use net_world::{FrameLog, World};
use std::alloc::Global;
use verify_state::VerifyState;

/// A key, and the state of it that was shown last.
#[derive(Clone, Copy)]
struct Watched {
    key: Key,
    state: Option<VerifyState>,
}

/// From a command on, the note shows another state of a key, in these bytes, or none.
#[derive(Drop)]
pub struct Change {
    pub command: usize,
    pub key: Key,
    pub spelling: Option<Vec<u8>>,
}

/// What was shown of each key whose state a frame has carried.
#[derive(Drop)]
pub struct Notes {
    alloc: Global,
    /// How many frames were looked at.
    looked: usize,
    watched: Vec<Watched>,
    changes: Vec<Change>,
}

/// Each of these looks at a world. `None`: memory ran out.
impl Notes {
    /// Those of a world to which nothing has happened.
    pub fn new(alloc: Global) -> Notes {
        Notes {
            alloc,
            looked: 0,
            watched: Vec::new(alloc),
            changes: Vec::new(alloc),
        }
    }

    /// The changes, the oldest first.
    pub fn changes(&self) -> &[Change] {
        self.changes.as_slice()
    }

    /// Looks behind a command: at the frames that are new, and at what is shown of each key. So a script
    /// takes as many looks as it has commands times keys.
    pub fn look(&mut self, command: usize, world: &World) -> Option<()> {
        self.look_at_frames(world.frames())?;
        for watched in self.watched.iter_mut() {
            let state = world.saved(watched.key);
            if !are_same(watched.state.as_ref(), state) {
                let change = Change {
                    command,
                    key: watched.key,
                    spelling: spelling_of(self.alloc, state)?,
                };
                self.changes.push(change).ok()?;
                watched.state = state.copied();
            }
        }
        Some(())
    }

    /// Adds the keys of the frames that are new.
    fn look_at_frames(&mut self, frames: &FrameLog) -> Option<()> {
        for number in self.looked..frames.len() {
            if let Some(bytes) = frames.get(number) {
                self.look_at_frame(bytes)?;
            }
        }
        self.looked = frames.len();
        Some(())
    }

    /// Adds the key of a frame, unless it has none or is there. Of a new one nothing was shown yet.
    fn look_at_frame(&mut self, bytes: &[u8]) -> Option<()> {
        match key_in(self.alloc, bytes) {
            Some(key) if !has_key(self.watched.as_slice(), &key) => self.add(key),
            _ => Some(()),
        }
    }

    /// Adds a key of which nothing was shown yet.
    fn add(&mut self, key: Key) -> Option<()> {
        self.watched.push(Watched { key, state: None }).ok()
    }
}

/// Whether this key is one of these.
fn has_key(watched: &[Watched], key: &Key) -> bool {
    watched.iter().any(|watched| watched.key == *key)
}

/// The key of the state that a frame carries, if it carries one.
fn key_in(alloc: Global, bytes: &[u8]) -> Option<Key> {
    match decode_frame(alloc, bytes) {
        Ok(Frame::Whole(packet)) => key_of(packet.body()),
        Ok(Frame::Piece(_)) | Err(_) => None,
    }
}

/// The key of the state that a packet carries, if it carries one.
fn key_of(body: &Body) -> Option<Key> {
    match body {
        Body::State { state, .. } | Body::Saved { state, .. } | Body::Copy { state } => {
            Some(state.key())
        }
        _ => None,
    }
}

/// Whether the note shows what it showed before.
fn are_same(before: Option<&VerifyState>, now: Option<&VerifyState>) -> bool {
    match (before, now) {
        (Some(before), Some(now)) => before.same(now),
        (None, None) => true,
        _ => false,
    }
}

/// The bytes of a state, if there is one.
fn spelling_of(alloc: Global, state: Option<&VerifyState>) -> Option<Option<Vec<u8>>> {
    match state {
        Some(state) => Some(Some(state.encode(alloc).ok()?)),
        None => Some(None),
    }
}
