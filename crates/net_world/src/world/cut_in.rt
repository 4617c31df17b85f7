//! The nodes of a world lose their power within a save.

ghost use Rattle.std.specs.Prelude.{◌≡◌, ℕ, Bool, List, Some, slice_get};
ghost use Rattle.messages.specs.declared.node.Node.TheVariants.{Server as OfServer, Client as OfClient};
ghost use Rattle.net_world.specs.Setup.{Setup};
ghost use Rattle.net_world.specs.Changes.{Change, steps};
ghost use Rattle.net_world.specs.Ends.{Ends};
ghost use Rattle.net_world.specs.Frames.{to_of, frames_sent};
ghost use Rattle.net_world.specs.Events.{plain_happening};
ghost use Rattle.net_world.specs.Happenings.{Happening, Deliver, Cut, Restart, CutIn};
ghost use Rattle.net_world.specs.Stands.{StandsFor};
ghost use Rattle.net_world.specs.World.{world};

use super::World;
use super::bar::no_save;
use super::deliver::to_of;
use crate::event::PlainEvent;
use crate::told::Told;
use crate::{client_node, server_node};
use fc_base::{Fault, ServerNo};
use messages::{Frame, Node};

impl World {
    /// A node loses its power within the save that this would make.
    ///
    /// `NoSave`: it would make none.
    pub(super) fn cut_in(&mut self, landed: bool, event: &PlainEvent) -> Result<Told, Fault>
        ensures { (w : Setup) (events : List Happening) → StandsFor w (world w events) self.old →
            Ends w (world w events) (CutIn landed (plain_happening event.now)) self.new result }
    {
        match event {
            PlainEvent::Begin { text } => self.cut_in_begin(landed, text),
            PlainEvent::Verify { run, text } => self.cut_in_verify(landed, *run, text),
            PlainEvent::Deliver { frame } => self.cut_in_delivery(landed, *frame),
            PlainEvent::Restart { node } => self.cut_in_restart(landed, *node),
            PlainEvent::Renew { generation } => self.cut_in_renewal(landed, *generation),
            PlainEvent::LoseNote => no_save(self.unlosable()),
            PlainEvent::Trigger { .. } => no_save(self.client_off()),
            PlainEvent::StopRun { .. } => no_save(self.client_off()),
            PlainEvent::Tick => no_save(self.client_off()),
            PlainEvent::Issue { server, .. } => no_save(self.server_off(*server)),
            PlainEvent::Check { server, .. } => no_save(self.server_off(*server)),
            PlainEvent::Land {
                server,
                job,
                write,
                ..
            } => no_save(self.write_unopen(*server, *job, *write)),
            PlainEvent::Done { server, job, write } => {
                no_save(self.write_unopen(*server, *job, *write))
            }
            PlainEvent::Fail { server, job, write } => {
                no_save(self.write_unopen(*server, *job, *write))
            }
            PlainEvent::Rot { server, job, .. } => no_save(self.file_missing(*server, *job)),
            PlainEvent::Cut { node } => self.cut_in_cut(*node),
        }
    }

    /// A cut makes no save.
    fn cut_in_cut(&self, node: Node) -> Result<Told, Fault>
        ensures { (landed : Bool) (w : Setup) (past : List Change) → StandsFor w past self.now →
            Ends w past (CutIn landed (Cut node)) self.now result }
    {
        match node {
            Node::Server(server) => no_save(self.server_off(server)),
            Node::Client => no_save(self.client_off()),
            Node::Mirror => no_save(self.mirror_off()),
        }
    }

    /// A node loses its power within the save of a frame that comes to it.
    fn cut_in_delivery(&mut self, landed: bool, number: u64) -> Result<Told, Fault>
        ensures { (w : Setup) (events : List Happening) → StandsFor w (world w events) self.old →
            Ends w (world w events) (CutIn landed (Deliver number)) self.new result }
    {
        let frame = self.frame(number)?;
        match to_of(&frame) {
            Node::Server(server) => self.cut_in_at_server(landed, server, frame),
            Node::Client => self.cut_in_client_delivery(landed, frame),
            Node::Mirror => self.cut_in_mirror_delivery(landed, frame),
        }
    }

    /// A node loses its power within the save of its restart.
    fn cut_in_restart(&mut self, landed: bool, node: Node) -> Result<Told, Fault>
        ensures { (w : Setup) (past : List Change) → StandsFor w past self.old →
            Ends w past (CutIn landed (Restart node)) self.new result }
    {
        match node {
            Node::Server(server) => self.cut_in_server_restart(landed, server),
            Node::Client => self.cut_in_client_restart(),
            Node::Mirror => no_save(self.mirror_on()),
        }
    }

    /// The client's restart makes no save.
    fn cut_in_client_restart(&self) -> Result<Told, Fault>
        ensures { (landed : Bool) (w : Setup) (past : List Change) → StandsFor w past self.now →
            Ends w past (CutIn landed (Restart OfClient)) self.now result }
    {
        if client_node::runs(&self.client) {
            Err(Fault::NodeOn)
        } else {
            Err(Fault::NoSave)
        }
    }

    /// A server loses its power within the save of a frame.
    fn cut_in_at_server(
        &mut self,
        landed: bool,
        server: ServerNo,
        frame: Frame,
    ) -> Result<Told, Fault>
        ensures { (w : Setup) (past : List Change) (number : ℕ) → StandsFor w past self.old →
            slice_get (frames_sent w (steps past)) number ≡ Some frame →
            to_of frame ≡ OfServer server →
            Ends w past (CutIn landed (Deliver number)) self.new result }
    {
        if !self.has_server(server) {
            return Err(Fault::NoServer);
        }
        let Ok(first) = self.sent.settle() else {
            return Err(Fault::NoMemory);
        };
        server_node::cut_in_delivery(&mut self.servers[server.0 as usize], landed, frame)?;
        Ok(Told::plain(first))
    }

    /// A server loses its power within the save of its boot.
    fn cut_in_server_restart(&mut self, landed: bool, server: ServerNo) -> Result<Told, Fault>
        ensures { (w : Setup) (past : List Change) → StandsFor w past self.old →
            Ends w past (CutIn landed (Restart (OfServer server))) self.new result }
    {
        if !self.has_server(server) {
            return Err(Fault::NoServer);
        }
        let Ok(first) = self.sent.settle() else {
            return Err(Fault::NoMemory);
        };
        let node = &mut self.servers[server.0 as usize];
        server_node::cut_in_restart(node, self.alloc, landed, server)?;
        Ok(Told::plain(first))
    }
}
