//! The client of a world loses its power, and is started again.

ghost use Rattle.std.specs.Prelude.{List};
ghost use Rattle.messages.specs.declared.node.Node.TheVariants.{Client as OfClient};
ghost use Rattle.net_world.specs.Setup.{Setup};
ghost use Rattle.net_world.specs.Changes.{Change};
ghost use Rattle.net_world.specs.Ends.{Ends};
ghost use Rattle.net_world.specs.Happenings.{Cut, Restart};
ghost use Rattle.net_world.specs.Stands.{StandsFor};

use super::World;
use crate::client_node;
use crate::told::Told;
use fc_base::Fault;

impl World {
    /// The client loses its power.
    pub(super) fn cut_client(&mut self) -> Result<Told, Fault>
        ensures { (w : Setup) (past : List Change) → StandsFor w past self.old →
            Ends w past (Cut OfClient) self.new result }
    {
        if !client_node::runs(&self.client) {
            return Err(Fault::NodeOff);
        }
        let Ok(first) = self.sent.settle() else {
            return Err(Fault::NoMemory);
        };
        client_node::cut(&mut self.client, self.alloc);
        Ok(Told::plain(first))
    }

    /// The client is started again.
    pub(super) fn restart_client(&mut self) -> Result<Told, Fault>
        ensures { (w : Setup) (past : List Change) → StandsFor w past self.old →
            Ends w past (Restart OfClient) self.new result }
    {
        let servers = self.count();
        let Ok(first) = self.sent.settle() else {
            return Err(Fault::NoMemory);
        };
        let mirror = self.mirror.node.is_some();
        client_node::restart(&mut self.client, self.alloc, servers, mirror)?;
        Ok(Told::plain(first))
    }
}
