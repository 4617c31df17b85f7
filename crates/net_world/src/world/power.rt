//! The nodes of a world lose their power, and are started again.

ghost use Rattle.std.specs.Prelude.{List};
ghost use Rattle.messages.specs.declared.node.Node.TheVariants.{Server as OfServer};
ghost use Rattle.net_world.specs.Setup.{Setup};
ghost use Rattle.net_world.specs.Changes.{Change};
ghost use Rattle.net_world.specs.Ends.{Ends};
ghost use Rattle.net_world.specs.Happenings.{Cut, Restart};
ghost use Rattle.net_world.specs.Stands.{StandsFor};

use super::World;
use crate::server_node;
use crate::told::Told;
use fc_base::{Fault, ServerNo};
use messages::Node;

impl World {
    /// A node loses its power.
    pub(super) fn cut(&mut self, node: Node) -> Result<Told, Fault>
        ensures { (w : Setup) (past : List Change) → StandsFor w past self.old →
            Ends w past (Cut node) self.new result }
    {
        match node {
            Node::Server(server) => self.cut_server(server),
            Node::Client => self.cut_client(),
            Node::Mirror => self.cut_mirror(),
        }
    }

    /// A node is started again.
    pub(super) fn restart(&mut self, node: Node) -> Result<Told, Fault>
        ensures { (w : Setup) (past : List Change) → StandsFor w past self.old →
            Ends w past (Restart node) self.new result }
    {
        match node {
            Node::Server(server) => self.restart_server(server),
            Node::Client => self.restart_client(),
            Node::Mirror => self.restart_mirror(),
        }
    }

    /// A server loses its power.
    pub(super) fn cut_server(&mut self, server: ServerNo) -> Result<Told, Fault>
        ensures { (w : Setup) (past : List Change) → StandsFor w past self.old →
            Ends w past (Cut (OfServer server)) self.new result }
    {
        if !self.has_server(server) {
            return Err(Fault::NoServer);
        }
        if !server_node::runs(&self.servers[server.0 as usize]) {
            return Err(Fault::NodeOff);
        }
        let Ok(first) = self.sent.settle() else {
            return Err(Fault::NoMemory);
        };
        server_node::cut(&mut self.servers[server.0 as usize]);
        Ok(Told::plain(first))
    }

    /// A server is started again.
    pub(super) fn restart_server(&mut self, server: ServerNo) -> Result<Told, Fault>
        ensures { (w : Setup) (past : List Change) → StandsFor w past self.old →
            Ends w past (Restart (OfServer server)) self.new result }
    {
        if !self.has_server(server) {
            return Err(Fault::NoServer);
        }
        let Ok(first) = self.sent.settle() else {
            return Err(Fault::NoMemory);
        };
        server_node::restart(&mut self.servers[server.0 as usize], self.alloc, server)?;
        Ok(Told::plain(first))
    }
}
