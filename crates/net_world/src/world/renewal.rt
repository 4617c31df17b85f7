//! The client of a world loses its note, and is begun anew.

ghost use Rattle.std.specs.Prelude.{List};
ghost use Rattle.net_world.specs.Setup.{Setup};
ghost use Rattle.net_world.specs.Changes.{Change};
ghost use Rattle.net_world.specs.Ends.{Ends};
ghost use Rattle.net_world.specs.Happenings.{LoseNote, Renew, CutIn};
ghost use Rattle.net_world.specs.Stands.{StandsFor};

use super::World;
use crate::client_node;
use crate::told::Told;
use fc_base::{Fault, Generation};

/// `NoMirror`: there is none; `NodeOn`: the client is on.
impl World {
    /// Its note is lost.
    pub(super) fn lose_note(&mut self) -> Result<Told, Fault>
        ensures { (w : Setup) (past : List Change) → StandsFor w past self.old →
            Ends w past LoseNote self.new result }
    {
        if let Some(fault) = self.unlosable() {
            return Err(fault);
        }
        let Ok(first) = self.sent.settle() else {
            return Err(Fault::NoMemory);
        };
        client_node::lose(&mut self.client, self.alloc)?;
        Ok(Told::plain(first))
    }

    /// It is started in this generation.
    ///
    /// `BadGeneration`; `UsedGeneration`: it isn't above all that were handed in; `BadNote`: there is a note.
    pub(super) fn renew(&mut self, generation: Generation) -> Result<Told, Fault>
        ensures { (w : Setup) (past : List Change) → StandsFor w past self.old →
            Ends w past (Renew generation) self.new result }
    {
        if let Some(fault) = self.unrenewable(generation) {
            return Err(fault);
        }
        let servers = self.count();
        let Ok(first) = self.sent.settle() else {
            return Err(Fault::NoMemory);
        };
        client_node::renew(&mut self.client, self.alloc, servers, generation)?;
        self.mirror.greatest = generation.0;
        Ok(Told::plain(first))
    }

    /// It loses its power within the save of its generation.
    pub(super) fn cut_in_renewal(
        &mut self,
        landed: bool,
        generation: Generation,
    ) -> Result<Told, Fault>
        ensures { (w : Setup) (past : List Change) → StandsFor w past self.old →
            Ends w past (CutIn landed (Renew generation)) self.new result }
    {
        if let Some(fault) = self.unrenewable(generation) {
            return Err(fault);
        }
        let servers = self.count();
        let Ok(first) = self.sent.settle() else {
            return Err(Fault::NoMemory);
        };
        client_node::cut_in_renewal(&mut self.client, self.alloc, servers, landed, generation)?;
        self.mirror.greatest = generation.0;
        Ok(Told::plain(first))
    }
}
