//! A core over packets that hears frames.

ghost use Rattle.std.specs.Prelude.{List};
ghost use Rattle.disk_model.specs.declared.save_outcome.SaveOutcome.{SaveOutcome};
ghost use Rattle.messages.specs.declared.frame.Frame.TheVariants.{Whole, Piece as OfPiece};
ghost use Rattle.messages.specs.Hearing.{Coming};
ghost use Rattle.messages.specs.Senses.{Framed};
ghost use Rattle.node.specs.Hearers.{StandsFor, Accepts, IsSensed};

use crate::packet_core::PacketCore;
use fc_base::Fault;
use messages::{Assembly, Frame, Packet, Piece};

/// A core, and the pieces that came and whose packets aren't whole yet.
#[derive(Drop)]
pub struct Hearer<C> {
    pub core: C,
    pub pieces: Assembly,
}

impl<C: PacketCore> Hearer<C> {
    /// Accepts a frame: the packet that it is or completes, or else the piece alone.
    ///
    /// `Down`; `Misdirected`, a piece isn't for it; `FrameBadField`, a piece completes a body that isn't the
    /// packet of its tag, which is dropped; what the core refuses; `NoMemory`, and nothing changes.
    pub fn deliver(&mut self, frame: Frame) -> Result<C::Outs, Fault>
        ensures { (opening : C.Opening) (past : List (Coming C.Entry SaveOutcome)) →
            StandsFor (C.kind opening) past self.old →
            Accepts (C.kind opening) past (Framed frame) self.old self.new result }
    {
        match frame {
            Frame::Whole(packet) => self.accept(packet),
            Frame::Piece(piece) => self.join(&piece),
        }
    }

    /// Accepts a packet, or refuses it.
    fn accept(&mut self, packet: Packet) -> Result<C::Outs, Fault>
        ensures { (opening : C.Opening) (past : List (Coming C.Entry SaveOutcome)) →
            StandsFor (C.kind opening) past self.old →
            Accepts (C.kind opening) past (Framed (Whole packet)) self.old self.new result }
    {
        packet.keeps_its_ranges();
        self.core.accept(packet)
    }

    /// Accepts a piece: the packet that it completes, or else the piece alone.
    fn join(&mut self, piece: &Piece) -> Result<C::Outs, Fault>
        ensures { (opening : C.Opening) (past : List (Coming C.Entry SaveOutcome)) →
            StandsFor (C.kind opening) past self.old →
            Accepts (C.kind opening) past (Framed (OfPiece piece.now)) self.old self.new result }
    {
        match self.look(piece) {
            Ok(Some(packet)) => {
                packet.keeps_its_ranges();
                let outs = self.core.accept(packet);
                if outs.is_ok() {
                    self.pieces.drop(piece.tag());
                }
                outs
            }
            Ok(None) => match self.pieces.take(piece) {
                Ok(()) => Ok(self.core.nothing()),
                Err(_) => Err(Fault::NoMemory),
            },
            Err(Fault::FrameBadField) => {
                self.pieces.drop(piece.tag());
                Err(Fault::FrameBadField)
            }
            Err(Fault::Down) => Err(Fault::Down),
            Err(Fault::Misdirected) => Err(Fault::Misdirected),
            Err(_) => Err(Fault::NoMemory),
        }
    }

    /// The packet that a piece completes, if it completes one; or why it is refused. Nothing changes.
    pub fn look(&self, piece: &Piece) -> Result<Option<Packet>, Fault>
        ensures { (opening : C.Opening) (past : List (Coming C.Entry SaveOutcome)) →
            StandsFor (C.kind opening) past self.now →
            IsSensed (C.kind opening) past piece.now result }
    {
        if !self.core.is_up() {
            return Err(Fault::Down);
        }
        if !self.core.is_for(piece) {
            return Err(Fault::Misdirected);
        }
        match self.pieces.look(piece) {
            Ok(given) => Ok(given),
            Err(Fault::FrameBadField) => Err(Fault::FrameBadField),
            Err(_) => Err(Fault::NoMemory),
        }
    }
}
