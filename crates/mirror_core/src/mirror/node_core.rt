//! A mirror is the core of a node.

ghost use Rattle.messages.specs.declared.frame.Frame.{Frame as SentFrame};
ghost use Rattle.mirror_core.specs.declared.note.MirrorNote.{MirrorNote};
ghost use Rattle.mirror_core.specs.History.{Entry as MirrorEntry};
ghost use Rattle.mirror_core.specs.Saves.{Addition as MirrorAddition};
ghost use Rattle.mirror_core.specs.Stands as mirror;
ghost use Rattle.mirror_core.specs.NodeKind.{mirror_kind};

use super::Mirror;
use disk_model::Notes;
use fc_base::Fault;
use messages::{Frame, Frames};
use node::NodeCore;
use std::alloc::{AllocError, Global};

impl<'t, N: Notes + Drop> NodeCore<'t, N> for Mirror<N> {
    type Seed = ();

    type Input = Frame;

    type Outs = Frames;

    ghost Opening = { MirrorNote };

    ghost Came = { SentFrame };

    ghost Entry = { MirrorEntry };

    ghost Addition = { MirrorAddition };

    ghost came = { λ frame. frame };

    ghost kind = { mirror_kind N.note };

    ghost IsSeed = { λ seed. Unit {0} };

    ghost Opens = { λ seed notes result. mirror.Restarts N.note (N.note notes) result };

    #[inline(always)]
    fn is_up(&self) -> bool {
        self.on()
    }

    /// Takes a frame of the client, as [`Mirror::deliver`] says.
    fn step(&mut self, frame: Frame) -> Result<Frames, Fault> {
        self.deliver(&frame)
    }

    fn would_save(&self, frame: &Frame) -> Result<bool, AllocError> {
        Ok(Mirror::would_save(self, frame))
    }

    fn notes(&self) -> &N {
        Mirror::notes(self)
    }

    fn into_notes(self) -> N {
        self.off()
    }

    /// Starts a mirror from what its note says.
    ///
    /// `BadNote`. `LoadFault`. `NoMemory`.
    fn start(alloc: Global, _seed: (), notes: N) -> Result<Mirror<N>, (N, Fault)> {
        Mirror::restart(alloc, notes)
    }

    fn keeps_laws() {}
}
