//! What a world refuses before a node is asked.

ghost use Rattle.std.specs.Prelude.{◌≡◌, List, None, Err, unwrap_or, IfSome, IsTrue};
ghost use Rattle.fc_base.specs.declared.fault.Fault.TheVariants.{NoSave};
ghost use Rattle.fc_base.specs.declared.fault.FaultSort.TheVariants.{Refusal};
ghost use Rattle.fc_base.specs.Fault.{sort_of};
ghost use Rattle.messages.specs.Ranges.{is_generation};
ghost use Rattle.messages.specs.declared.node.Node.TheVariants.{Server as OfServer, Client as OfClient, Mirror as OfMirror};
ghost use Rattle.net_world.specs.Setup.{Setup};
ghost use Rattle.net_world.specs.Barred.{unless_on, unless_off, unless_open, no_file, unless_losable, unless_unused};
ghost use Rattle.std.specs.Option.{option_or};
ghost use Rattle.net_world.specs.Changes.{Change, trace};
ghost use Rattle.net_world.specs.Stands.{StandsFor};

use super::World;
use crate::told::Told;
use crate::{client_node, mirror_node, server_node};
use fc_base::{Fault, Generation, JobNo, MAX_GENERATION, MAX_JOBS, Seq, ServerNo};

impl World {
    /// The client has to be on.
    pub(super) fn client_off(&self) -> Option<Fault>
        ensures why { (w : Setup) (past : List Change) → StandsFor w past self.now →
            result ≡ unless_on w (trace w past) OfClient }
        ensures sort { IfSome result (λ fault. sort_of fault ≡ Refusal) }
    {
        if client_node::runs(&self.client) {
            None
        } else {
            Some(Fault::NodeOff)
        }
    }

    /// The server has to be there and on.
    pub(super) fn server_off(&self, server: ServerNo) -> Option<Fault>
        ensures why { (w : Setup) (past : List Change) → StandsFor w past self.now →
            result ≡ unless_on w (trace w past) (OfServer server) }
        ensures sort { IfSome result (λ fault. sort_of fault ≡ Refusal) }
    {
        if !self.has_server(server) {
            return Some(Fault::NoServer);
        }
        if server_node::runs(&self.servers[server.0 as usize]) {
            None
        } else {
            Some(Fault::NodeOff)
        }
    }

    /// The mirror has to be there and on.
    pub(super) fn mirror_off(&self) -> Option<Fault>
        ensures why { (w : Setup) (past : List Change) → StandsFor w past self.now →
            result ≡ unless_on w (trace w past) OfMirror }
        ensures sort { IfSome result (λ fault. sort_of fault ≡ Refusal) }
    {
        let Some(node) = &self.mirror.node else {
            return Some(Fault::NoMirror);
        };
        if mirror_node::runs(node) {
            None
        } else {
            Some(Fault::NodeOff)
        }
    }

    /// The mirror has to be there and off.
    pub(super) fn mirror_on(&self) -> Option<Fault>
        ensures why { (w : Setup) (past : List Change) → StandsFor w past self.now →
            result ≡ unless_off w (trace w past) OfMirror }
        ensures sort { IfSome result (λ fault. sort_of fault ≡ Refusal) }
    {
        let Some(node) = &self.mirror.node else {
            return Some(Fault::NoMirror);
        };
        if mirror_node::runs(node) {
            Some(Fault::NodeOn)
        } else {
            None
        }
    }

    /// There has to be a mirror, and the client to be off.
    pub(super) fn unlosable(&self) -> Option<Fault>
        ensures why { (w : Setup) (past : List Change) → StandsFor w past self.now →
            result ≡ unless_losable w (trace w past) }
        ensures sort { IfSome result (λ fault. sort_of fault ≡ Refusal) }
    {
        if self.mirror.node.is_none() {
            return Some(Fault::NoMirror);
        }
        if client_node::runs(&self.client) {
            Some(Fault::NodeOn)
        } else {
            None
        }
    }

    /// There has to be a mirror, the client to be off, and the number to be one of a generation that was
    /// not used.
    pub(super) fn unrenewable(&self, generation: Generation) -> Option<Fault>
        ensures why { (w : Setup) (past : List Change) → StandsFor w past self.now →
            result ≡ option_or (unless_losable w (trace w past))
            (unless_unused w (trace w past) generation) }
        ensures sort { IfSome result (λ fault. sort_of fault ≡ Refusal) }
        ensures fits { result ≡ None → IsTrue (is_generation generation) }
    {
        if let Some(fault) = self.unlosable() {
            return Some(fault);
        }
        if generation.0 < 1 || generation.0 > MAX_GENERATION {
            return Some(Fault::BadGeneration);
        }
        if self.mirror.greatest < generation.0 {
            None
        } else {
            Some(Fault::UsedGeneration)
        }
    }

    /// The write has to be open.
    pub(super) fn write_unopen(&self, server: ServerNo, job: JobNo, write: Seq) -> Option<Fault>
        ensures why { (w : Setup) (past : List Change) → StandsFor w past self.now →
            result ≡ unless_open w (trace w past) server job write }
        ensures sort { (w : Setup) (past : List Change) → StandsFor w past self.now →
            IfSome result (λ fault. sort_of fault ≡ Refusal) }
    {
        match self.open_write(server, job, write) {
            Ok(_) => None,
            Err(fault) => Some(fault),
        }
    }

    /// The file has to be there.
    pub(super) fn file_missing(&self, server: ServerNo, job: JobNo) -> Option<Fault>
        ensures why { (w : Setup) (past : List Change) → StandsFor w past self.now →
            result ≡ no_file w server job }
        ensures sort { IfSome result (λ fault. sort_of fault ≡ Refusal) }
    {
        if !self.has_server(server) {
            return Some(Fault::NoServer);
        }
        if job.0 >= MAX_JOBS {
            Some(Fault::NoWrite)
        } else {
            None
        }
    }
}

/// A cut within a save of what makes none is refused as that is, else as no save.
pub(super) fn no_save(why: Option<Fault>) -> Result<Told, Fault>
    ensures { result ≡ Err (unwrap_or why NoSave) }
{
    Err(why.unwrap_or(Fault::NoSave))
}
