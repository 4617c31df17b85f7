//! The frames of a world come to their nodes.

ghost use Rattle.std.specs.Prelude.{◌≡◌, ℕ, List, Some, slice_get};
ghost use Rattle.messages.specs.declared.node.Node.TheVariants.{Server as OfServer};
ghost use Rattle.net_world.specs.Setup.{Setup};
ghost use Rattle.net_world.specs.Changes.{Change, steps};
ghost use Rattle.net_world.specs.Ends.{Ends};
ghost use Rattle.net_world.specs.Happenings.{Happening, Deliver};
ghost use Rattle.net_world.specs.Frames.{to_of, frames_sent};
ghost use Rattle.net_world.specs.Delivering.{FindsFrame};
ghost use Rattle.net_world.specs.Stands.{StandsFor};
ghost use Rattle.net_world.specs.World.{world};

use super::World;
use crate::told::Told;
use crate::world_law::sent_frames_are_read;
use client_core::Input as ClientInput;
use fc_base::{Fault, ServerNo};
use messages::{Frame, Node, decode_frame};
use server_core::Input;

impl World {
    /// A frame that was sent comes to its node.
    pub(super) fn deliver(&mut self, number: u64) -> Result<Told, Fault>
        ensures { (w : Setup) (events : List Happening) → StandsFor w (world w events) self.old →
            Ends w (world w events) (Deliver number) self.new result }
    {
        let frame = self.frame(number)?;
        match to_of(&frame) {
            Node::Server(server) => self.deliver_to_server(server, frame),
            Node::Client => self.ask(ClientInput::Deliver(frame)),
            Node::Mirror => self.deliver_to_mirror(frame),
        }
    }

    /// A frame comes to a server.
    fn deliver_to_server(&mut self, server: ServerNo, frame: Frame) -> Result<Told, Fault>
        ensures { (w : Setup) (past : List Change) (number : ℕ) → StandsFor w past self.old →
            slice_get (frames_sent w (steps past)) number ≡ Some frame →
            to_of frame ≡ OfServer server →
            Ends w past (Deliver number) self.new result }
    {
        self.serve(server, Input::Deliver(frame))
    }

    /// The frame with this number. `NoFrame`; `NoMemory`.
    pub(super) fn frame(&self, number: u64) -> Result<Frame, Fault>
        ensures { (w : Setup) (events : List Happening) → StandsFor w (world w events) self.now →
            FindsFrame w (world w events) number result }
    {
        sent_frames_are_read();
        let Some(bytes) = self.sent.get(number as usize) else {
            return Err(Fault::NoFrame);
        };
        match decode_frame(self.alloc, bytes) {
            Ok(frame) => Ok(frame),
            Err(_) => Err(Fault::NoMemory),
        }
    }
}

/// The node that a frame is for.
pub(super) fn to_of(frame: &Frame) -> Node
    ensures { result ≡ to_of frame.now }
{
    match frame {
        Frame::Whole(packet) => packet.to(),
        Frame::Piece(piece) => piece.to(),
    }
}
