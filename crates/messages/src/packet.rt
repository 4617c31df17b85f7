//! A packet: who says what to whom.

ghost use Rattle.std.specs.Prelude.{◌≡◌, IsTrue, Ok, Err, if◌then◌else◌};

use crate::body::Body;
use crate::kind::PacketKind;
use crate::node::Node;
use std::marker::Model;

/// What a packet is made of, with no ranges.
#[derive(Drop)]
pub struct PacketParts {
    pub from: Node,
    pub to: Node,
    pub body: Body,
}

/// A packet whose numbers are in their ranges. Whether a sender may send its kind is not asked here.
#[derive(Drop)]
pub struct Packet {
    parts: PacketParts,
}

impl Model for Packet {
    ghost use Rattle.std.specs.Prelude.{IsTrue};
    ghost use Rattle.messages.specs.declared.packet.PacketParts.{PacketParts};
    ghost use Rattle.messages.specs.Packets.{is_packet};

    ghost Value = { PacketParts };

    ghost view = { λ p. p.parts };

    ghost invariant = { λ p. IsTrue (is_packet p.parts) };
}

impl PacketParts {
    ghost use Rattle.messages.specs.Packets.{is_packet};

    /// Whether all numbers are in their ranges, so that a packet can be made of the parts.
    pub fn is_packet(&self) -> bool
        ensures { result ≡ is_packet self.now }
    {
        self.from.is_node() && self.to.is_node() && self.body.is_in_range()
    }
}

impl Packet {
    ghost use Rattle.messages.specs.Packets.{is_packet};
    ghost use Rattle.messages.specs.Kinds.{name_of};
    ghost use Rattle.messages.specs.Bodies.{kind_of};
    ghost use Rattle.messages.specs.Laws.{IsPacket};

    /// The packet of these parts.
    pub fn new(parts: PacketParts) -> Packet
        requires { IsTrue (is_packet parts) }
        ensures { result ≡ parts }
    {
        Packet { parts }
    }

    /// The packet of these parts; where a number is out of its range, they come back.
    pub fn make(parts: PacketParts) -> Result<Packet, PacketParts>
        ensures { result ≡ (if is_packet parts then Ok parts else Err parts) }
    {
        if parts.is_packet() {
            Ok(Packet { parts })
        } else {
            Err(parts)
        }
    }

    /// Who sends it.
    pub fn from(&self) -> Node
        ensures { result ≡ self.now.from }
    {
        self.parts.from
    }

    /// To whom it goes.
    pub fn to(&self) -> Node
        ensures { result ≡ self.now.to }
    {
        self.parts.to
    }

    /// What it says.
    pub fn body(&self) -> &Body
        ensures { result.now ≡ self.now.body }
    {
        &self.parts.body
    }

    /// The kind of what it says.
    pub fn kind(&self) -> PacketKind
        ensures { result ≡ kind_of self.now.body }
    {
        self.parts.body.kind()
    }

    /// The ranges that every packet keeps, for proofs: nothing runs.
    pub fn keeps_its_ranges(&self)
        ensures { IsPacket self.now }
    {
        self.parts.body.keeps_its_state();
    }

    /// The name of its kind, as it is printed.
    pub fn kind_name(&self) -> &'static str
        ensures { result.now ≡ name_of (kind_of self.now.body) }
    {
        self.kind().name()
    }

    /// The parts.
    pub fn into_parts(self) -> PacketParts
        ensures value { result ≡ self }
        ensures ranges { IsPacket result }
    {
        self.keeps_its_ranges();
        let Packet { parts } = self;
        parts
    }
}
