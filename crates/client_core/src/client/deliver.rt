//! A frame of a server, or of the mirror, is delivered.

ghost use Rattle.std.specs.Prelude.{◌≡◌, List, IfOk, OnErr};
ghost use Rattle.node.specs.Steps.{Ends};
ghost use Rattle.messages.specs.Senses.{HearsInRange};
ghost use Rattle.messages.specs.declared.frame.Frame.TheVariants.{Piece as OfPiece};
ghost use Rattle.client_core.specs.Inputs.{Deliver};
ghost use Rattle.client_core.specs.History.{Opening};
ghost use Rattle.client_core.specs.Hearing.{FrameEntry};
ghost use Rattle.client_core.specs.FrameAnswers.{sense, would_save, IsPiece};
ghost use Rattle.client_core.specs.FrameEnds.{StandsFor, steps};
ghost use Rattle.client_core.specs.Ranges.{IsInRange};

use super::Client;
use crate::law::frames_are_short;
use disk_model::Notes;
use fc_base::Fault;
use messages::{Frame, Frames, Piece};
use std::alloc::AllocError;

impl<N: Notes> Client<N> {
    /// Whether the delivery of this frame would make a save: it is a State or a Copy that isn't refused, of a
    /// key of which no state is kept, or the piece that completes a State. Memory may be wanted only for a
    /// piece.
    pub fn would_save(&self, frame: &Frame) -> Result<bool, AllocError>
        ensures memory { OnErr result (IsPiece frame.now) }
        ensures saves { (opening : Opening) (past : List FrameEntry) →
            StandsFor N.note self.now opening past →
            IfOk result (λ saves. saves ≡ would_save opening past frame.now) }
    {
        match frame {
            Frame::Whole(packet) => Ok(self.hearer.core.would_save(packet)),
            Frame::Piece(piece) => self.piece_would_save(piece),
        }
    }

    /// Whether the delivery of a piece would make a save.
    fn piece_would_save(&self, piece: &Piece) -> Result<bool, AllocError>
        ensures { (opening : Opening) (past : List FrameEntry) →
            StandsFor N.note self.now opening past →
            IfOk result (λ saves. saves ≡ would_save opening past (OfPiece piece.now)) }
    {
        match self.hearer.look(piece) {
            Ok(Some(packet)) => Ok(self.hearer.core.would_save(&packet)),
            Err(Fault::NoMemory) => Err(AllocError),
            _ => Ok(false),
        }
    }

    /// Takes a frame, and replies to the packet that it is or completes. A State of a new key is saved
    /// before it is acknowledged, and then goes to the mirror; nothing is replied to the mirror.
    ///
    /// In this order: `Down`; `Misdirected`; `FrameBadField`, a piece completes a body that isn't the packet
    /// of its tag, which is dropped; `Conflict`, another state of the key is kept; `TableFull`; `NoMemory`,
    /// and nothing changes; `SaveFault`, and the client is down.
    pub fn deliver(&mut self, frame: Frame) -> Result<Frames, Fault>
        ensures ends { (opening : Opening) (past : List FrameEntry) →
            StandsFor N.note self.old opening past →
            Ends (steps N.note opening) past (Deliver frame) self.old self.new result }
        ensures ranges { (opening : Opening) (past : List FrameEntry) →
            StandsFor N.note self.old opening past →
            HearsInRange IsInRange (sense opening past (Deliver frame)) result }
    {
        frames_are_short();
        self.hearer.deliver(frame)
    }
}
