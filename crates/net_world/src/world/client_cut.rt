//! The client of a world loses its power within a save.

ghost use Rattle.std.specs.Prelude.{◌≡◌, ℕ, List, Some, slice_get};
ghost use Rattle.messages.specs.declared.node.Node.TheVariants.{Client as OfClient};
ghost use Rattle.net_world.specs.Setup.{Setup};
ghost use Rattle.net_world.specs.Changes.{Change, steps};
ghost use Rattle.net_world.specs.Ends.{Ends};
ghost use Rattle.net_world.specs.Happenings.{Begin, Verify, Deliver, CutIn};
ghost use Rattle.net_world.specs.Frames.{to_of, frames_sent};
ghost use Rattle.net_world.specs.Stands.{StandsFor};

use super::World;
use crate::client_node;
use crate::told::Told;
use client_core::Input;
use fc_base::{Fault, RunNo};
use messages::Frame;

impl World {
    /// It loses its power within the save of a run's number.
    pub(super) fn cut_in_begin(&mut self, landed: bool, text: &[u8]) -> Result<Told, Fault>
        ensures { (w : Setup) (past : List Change) → StandsFor w past self.old →
            Ends w past (CutIn landed (Begin text.now)) self.new result }
    {
        let Ok(first) = self.sent.settle() else {
            return Err(Fault::NoMemory);
        };
        client_node::cut_in(&mut self.client, self.alloc, landed, Input::Begin(text))?;
        Ok(Told::plain(first))
    }

    /// It loses its power within the save of an attempt's number.
    pub(super) fn cut_in_verify(
        &mut self,
        landed: bool,
        run: RunNo,
        text: &[u8],
    ) -> Result<Told, Fault>
        ensures { (w : Setup) (past : List Change) → StandsFor w past self.old →
            Ends w past (CutIn landed (Verify run text.now)) self.new result }
    {
        let Ok(first) = self.sent.settle() else {
            return Err(Fault::NoMemory);
        };
        client_node::cut_in(
            &mut self.client,
            self.alloc,
            landed,
            Input::Verify(run, text),
        )?;
        Ok(Told::plain(first))
    }

    /// It loses its power within the save that a frame would make.
    pub(super) fn cut_in_client_delivery(
        &mut self,
        landed: bool,
        frame: Frame,
    ) -> Result<Told, Fault>
        ensures { (w : Setup) (past : List Change) (number : ℕ) → StandsFor w past self.old →
            slice_get (frames_sent w (steps past)) number ≡ Some frame → to_of frame ≡ OfClient →
            Ends w past (CutIn landed (Deliver number)) self.new result }
    {
        let Ok(first) = self.sent.settle() else {
            return Err(Fault::NoMemory);
        };
        client_node::cut_in(&mut self.client, self.alloc, landed, Input::Deliver(frame))?;
        Ok(Told::plain(first))
    }
}
