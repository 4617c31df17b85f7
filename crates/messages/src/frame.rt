//! A frame: a whole packet, or a piece of one.

ghost use Rattle.std.specs.Prelude.{◌≡◌};
ghost use Rattle.messages.specs.FrameBytes.{sort_numbered};
ghost use Rattle.messages.specs.Looks.{sort_name};

use crate::kind::PacketKind;
use crate::packet::Packet;
use crate::piece::Piece;

/// What goes over a network at once.
#[derive(Drop)]
pub enum Frame {
    /// A packet, whose body has at most 1,024 bytes.
    Whole(Packet),
    /// A piece of the body of a packet that is longer.
    Piece(Piece),
}

/// The kind of a frame.
#[derive(Clone, Copy, Debug, PartialEq, Eq)]
pub enum FrameKind {
    /// That of its packet.
    Packet(PacketKind),
    /// A piece.
    Piece,
}

/// A piece's number.
pub(crate) const PIECE: u8 = 17;

impl FrameKind {
    /// The kind with this number in a frame, if there is one.
    pub(crate) fn numbered(number: u8) -> Option<FrameKind>
        ensures { result ≡ sort_numbered number }
    {
        if number == PIECE {
            return Some(FrameKind::Piece);
        }
        let kind = PacketKind::numbered(number)?;
        Some(FrameKind::Packet(kind))
    }

    /// The kind's name, as it is printed.
    pub fn name(self) -> &'static str
        ensures { result.now ≡ sort_name self }
    {
        match self {
            FrameKind::Packet(kind) => kind.name(),
            FrameKind::Piece => "Piece",
        }
    }
}
