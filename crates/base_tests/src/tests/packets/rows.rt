//! Packets that come in turn, and rows that say their frames.

use super::*;
use std::test::Fail;

/// The name of a packet's kind, and its frame.
pub(super) type Row = (&'static str, &'static [u8]);

/// Rows, a packet for each of which is still to come, behind those that came.
#[derive(Clone, Copy)]
pub(super) struct Rows {
    alloc: Global,
    rows: &'static [Row],
    /// How many packets came.
    count: usize,
    /// The first that isn't as its row says.
    unlike: Option<usize>,
}

impl Rows {
    pub(super) fn new(alloc: Global, rows: &'static [Row]) -> Rows {
        Rows {
            alloc,
            rows,
            count: 0,
            unlike: None,
        }
    }

    /// Compares a packet of these parts with the next row.
    pub(super) fn compare(&mut self, parts: PacketParts) {
        let alike = match self.rows.get(self.count) {
            Some((name, frame)) => is_frame_of(self.alloc, parts, name, frame),
            None => false,
        };
        if !alike && self.unlike.is_none() {
            self.unlike = Some(self.count);
        }
        self.count = self.count.saturating_add(1);
    }

    /// The same, where the parts could be made.
    pub(super) fn compare_made(&mut self, parts: Option<PacketParts>) {
        match parts {
            Some(parts) => self.compare(parts),
            None => self.unlike = Some(self.count),
        }
    }

    /// The first packet that isn't as its row says, or the first that never came.
    fn first_unlike(&self) -> Option<usize> {
        if self.unlike.is_none() && self.count < self.rows.len() {
            return Some(self.count);
        }
        self.unlike
    }

    /// Each packet came, and is as its row says.
    pub(super) fn end(&self) -> Result<(), Fail> {
        match self.first_unlike() {
            None => Ok(()),
            Some(row) => Err(Fail::new(row)),
        }
    }
}

/// Whether the packet of these parts has this frame, and the frame says this packet.
fn is_frame_of(alloc: Global, parts: PacketParts, name: &str, frame: &[u8]) -> bool {
    let Ok(packet) = Packet::make(parts) else {
        return false;
    };
    let same = has_row(alloc, &packet, name, frame);
    drop(packet);
    same
}

fn has_row(alloc: Global, packet: &Packet, name: &str, frame: &[u8]) -> bool {
    is_written(alloc, packet, name, frame) && is_read_back(alloc, packet, name, frame)
}

/// Whether a packet has this name and this frame.
fn is_written(alloc: Global, packet: &Packet, name: &str, frame: &[u8]) -> bool {
    packet.kind_name() == name && has_frame(alloc, packet, frame)
}

/// Whether the frame is read as a packet with this name, these ends and this frame again.
fn is_read_back(alloc: Global, packet: &Packet, name: &str, frame: &[u8]) -> bool {
    let Ok(read) = decode(alloc, frame) else {
        return false;
    };
    let same = have_same_ends(&read, packet) && is_written(alloc, &read, name, frame);
    drop(read);
    same
}

fn have_same_ends(one: &Packet, other: &Packet) -> bool {
    one.from() == other.from() && one.to() == other.to()
}
