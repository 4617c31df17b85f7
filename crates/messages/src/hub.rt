//! The frames that were ever sent, and who took and sent which.

ghost use Rattle.std.specs.Prelude.{◌≡◌, ◌+◌, ◌<◌, ◌≤◌, ◌^◌, [], ◌∷◌, ◌++◌, length, reverse, slice_get, sum_by, All, MatchOption, IfSome, OnOk, Some, IsTrue};
ghost use Rattle.std.specs.Option.{ForSome};
ghost use Rattle.messages.specs.Network.{empty, line_of, HasRoom, IsSpelled};
ghost use Rattle.messages.specs.Journal.{IsLegal};
ghost use Rattle.messages.specs.KeptNetwork.{StayKept};
ghost use Rattle.messages.specs.Waiting.{node_of, waiting_frames, picked_frame};
ghost use Rattle.messages.specs.Nodes.{is_node};

use crate::frames::Frames;
use crate::line::Line;
use crate::node::Node;
use crate::piece_law::frames_are_read_back;
use crate::queues::Queues;
use crate::reading::look_at;
use crate::store::Store;
use std::alloc::{AllocError, Global};
use std::marker::Model;

/// The frames, numbered from 0 as they were sent, the journal, and for each node the numbers of the
/// frames that it hasn't taken.
pub struct Hub {
    store: Store,
    journal: Vec<Line>,
    queues: Queues,
}

/// By hand, so that the crates above need no proof of it.
impl Drop for Hub {
    fn drop(self) {
        let Hub {
            store: _,
            journal: _,
            queues: _,
        } = self;
    }
}

impl Model for Hub {
    ghost use Rattle.std.specs.Prelude.{◌-◌, min, reverse, vec_len, vec_capacity};
    ghost use Rattle.messages.specs.Network.{Held};
    ghost use Rattle.messages.specs.KeptNetwork.{IsHub};

    ghost Value = { Held };

    ghost view = { λ h. record {
      net = record { frames = h.store.frames; journal = reverse h.journal.items };
      room = record {
        frames = min h.store.more h.queues.more;
        bytes = h.store.bytes;
        lines = vec_capacity h.journal - vec_len h.journal;
      };
    } };

    ghost invariant = { λ h. IsHub (record
        { frames = h.store.frames; journal = reverse h.journal.items }) h.queues.lists };
}

impl Hub {
    /// Nothing was sent yet.
    pub fn new(alloc: Global) -> Hub
        ensures { result.net ≡ empty }
    {
        Hub {
            store: Store::new(alloc),
            journal: Vec::new(alloc),
            queues: Queues::new(alloc),
        }
    }

    /// How many frames were sent.
    pub fn len(&self) -> usize
        ensures { result ≡ length self.now.net.frames }
    {
        self.store.len()
    }

    /// The bytes of frame `i`, `None` where no more than `i` were sent.
    pub fn frame(&self, i: u64) -> Option<&[u8]>
        ensures bytes { MatchOption result (length self.now.net.frames ≤ i)
            (λ bytes. slice_get self.now.net.frames i ≡ Some bytes.now) }
        ensures spelled { IfSome result (λ bytes. IsSpelled bytes.now) }
    {
        self.store.get(i as usize)
    }

    /// The journal, the oldest entry first.
    pub fn journal(&self) -> &[Line]
        ensures entries { result.now ≡ reverse self.now.net.journal }
        ensures legal { IsLegal self.now.net }
    {
        self.journal.as_slice()
    }

    /// Of the frames to a node that it hasn't taken, the oldest first, the number of the one at `word`
    /// mod their number; `None` where there are none.
    pub fn pick(&self, node: Node, word: u64) -> Option<u64>
        ensures { result ≡ picked_frame word (waiting_frames self.now.net node) }
    {
        let numbers = self.queues.of(node);
        if numbers.is_empty() {
            return None;
        }
        let place = word % numbers.len() as u64;
        Some(numbers[place as usize])
    }

    /// Makes room for one more event, which sends at most so many frames of at most so many bytes
    /// together. For want of memory nothing changes, but that there may be more room.
    pub fn reserve(&mut self, frames: usize, bytes: usize) -> Result<(), AllocError>
        ensures room { OnOk result (HasRoom self.new.room frames bytes) }
        ensures same { self.new.net ≡ self.old.net }
    {
        self.store.reserve(frames, bytes)?;
        self.queues.reserve(frames)?;
        self.journal.reserve(1)
    }

    /// Notes an event of a node, at a place in its own list: it took a frame, or none, and sent these.
    /// A frame may be taken again.
    pub fn note(&mut self, node: Node, at: u64, taken: Option<u64>, sent: &Frames)
        requires room { HasRoom self.old.room (length sent.now)
            (sum_by (λ frame. length frame) sent.now) }
        requires taken { ForSome taken (λ i. i < length self.old.net.frames) }
        requires spelled { All IsSpelled sent.now }
        ensures frames { self.new.net.frames ≡ self.old.net.frames ++ sent.now }
        ensures journal { self.new.net.journal
            ≡ line_of node at taken (length sent.now) ++ self.old.net.journal }
    {
        if taken.is_none() && sent.len() == 0 {
            return;
        }
        let line = Line {
            node,
            at,
            taken,
            sent: sent.len() as u64,
        };
        self.queues.take(&line);
        self.journal.push_reserved(line);
        add_all(&mut self.store, &mut self.queues, sent);
    }
}

/// Adds frames that were sent, each of which then waits for its node.
fn add_all(store: &mut Store, queues: &mut Queues, sent: &Frames)
    requires fits { length sent.now < 2 ^ 64 }
    requires frames { length sent.now ≤ store.old.more }
    requires waiting { length sent.now ≤ queues.old.more }
    requires bytes { sum_by (λ frame. length frame) sent.now ≤ store.old.bytes }
    requires spelled { All IsSpelled sent.now }
    ensures frames { store.new.frames ≡ store.old.frames ++ sent.now }
    ensures kept { StayKept store.old.frames store.new.frames queues.old.lists queues.new.lists }
{
    let mut i = 0;
    while let Some(frame) = sent.get(i) {
        add(store, queues, frame);
        i += 1;
    }
}

/// Adds a frame that was sent, which then waits for its node.
fn add(store: &mut Store, queues: &mut Queues, frame: &[u8])
    requires frames { 1 ≤ store.old.more }
    requires waiting { 1 ≤ queues.old.more }
    requires bytes { length frame.now ≤ store.old.bytes }
    requires spelled { IsSpelled frame.now }
    ensures frames { store.new.frames ≡ store.old.frames ++ frame.now ∷ [] }
    ensures more { store.old.more ≤ store.new.more + 1 }
    ensures waiting { queues.old.more ≤ queues.new.more + 1 }
    ensures bytes { store.old.bytes ≤ store.new.bytes + length frame.now }
    ensures kept { StayKept store.old.frames store.new.frames queues.old.lists queues.new.lists }
{
    let node = node_of(frame);
    queues.push(node, store.len() as u64);
    store.push(frame);
}

/// The node that a frame is for.
fn node_of(frame: &[u8]) -> Node
    requires { IsSpelled frame.now }
    ensures value { node_of frame.now ≡ Some result }
    ensures range { IsTrue (is_node result) }
{
    frames_are_read_back();
    look_at(frame).unwrap().to
}
