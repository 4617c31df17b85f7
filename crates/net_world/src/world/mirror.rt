//! What comes to the mirror of a world.

ghost use Rattle.std.specs.Prelude.{◌≡◌, ℕ, List, Some, slice_get};
ghost use Rattle.messages.specs.declared.node.Node.TheVariants.{Mirror as OfMirror};
ghost use Rattle.net_world.specs.Setup.{Setup};
ghost use Rattle.net_world.specs.Changes.{Change, steps};
ghost use Rattle.net_world.specs.Ends.{Ends};
ghost use Rattle.net_world.specs.Frames.{to_of, frames_sent};
ghost use Rattle.net_world.specs.Happenings.{Deliver, Cut, Restart, CutIn};
ghost use Rattle.net_world.specs.Stands.{StandsFor};

use super::World;
use crate::mirror_node;
use crate::told::Told;
use client_core::{Answer, Outs};
use fc_base::Fault;
use messages::Frame;

/// `NoMirror`: there is none.
impl World {
    /// A frame comes to it.
    pub(super) fn deliver_to_mirror(&mut self, frame: Frame) -> Result<Told, Fault>
        ensures { (w : Setup) (past : List Change) (number : ℕ) → StandsFor w past self.old →
            slice_get (frames_sent w (steps past)) number ≡ Some frame →
            to_of frame ≡ OfMirror →
            Ends w past (Deliver number) self.new result }
    {
        let Ok(first) = self.sent.settle() else {
            return Err(Fault::NoMemory);
        };
        let Some(node) = &mut self.mirror.node else {
            return Err(Fault::NoMirror);
        };
        let frames = mirror_node::deliver(node, frame)?;
        let answer = Answer::Plain;
        Ok(self.send(first, Outs { answer, frames }))
    }

    /// It loses its power.
    pub(super) fn cut_mirror(&mut self) -> Result<Told, Fault>
        ensures { (w : Setup) (past : List Change) → StandsFor w past self.old →
            Ends w past (Cut OfMirror) self.new result }
    {
        let Some(node) = &mut self.mirror.node else {
            return Err(Fault::NoMirror);
        };
        if !mirror_node::runs(node) {
            return Err(Fault::NodeOff);
        }
        let Ok(first) = self.sent.settle() else {
            return Err(Fault::NoMemory);
        };
        mirror_node::cut(node);
        Ok(Told::plain(first))
    }

    /// It is started again.
    pub(super) fn restart_mirror(&mut self) -> Result<Told, Fault>
        ensures { (w : Setup) (past : List Change) → StandsFor w past self.old →
            Ends w past (Restart OfMirror) self.new result }
    {
        let Ok(first) = self.sent.settle() else {
            return Err(Fault::NoMemory);
        };
        let Some(node) = &mut self.mirror.node else {
            return Err(Fault::NoMirror);
        };
        mirror_node::restart(node, self.alloc)?;
        Ok(Told::plain(first))
    }

    /// It loses its power within the save that a frame would make.
    pub(super) fn cut_in_mirror_delivery(
        &mut self,
        landed: bool,
        frame: Frame,
    ) -> Result<Told, Fault>
        ensures { (w : Setup) (past : List Change) (number : ℕ) → StandsFor w past self.old →
            slice_get (frames_sent w (steps past)) number ≡ Some frame →
            to_of frame ≡ OfMirror →
            Ends w past (CutIn landed (Deliver number)) self.new result }
    {
        let Ok(first) = self.sent.settle() else {
            return Err(Fault::NoMemory);
        };
        let Some(node) = &mut self.mirror.node else {
            return Err(Fault::NoMirror);
        };
        mirror_node::cut_in_delivery(node, landed, frame)?;
        Ok(Told::plain(first))
    }
}
