//! A frame comes to a node from the hub.

ghost use Rattle.std.specs.Prelude.{reverse, slice_get};
ghost use Rattle.cells.specs.Calls.{Delivers, RefusedAt};
ghost use Rattle.cells.specs.CoreLaws.{Leaves};
ghost use Rattle.cells.specs.Moves.{Keeps};

use super::Cell;
use crate::answer::Receipt;
use crate::at_hub::frame_came;
use crate::cell_core::CellCore;
use fc_base::Fault;
use messages::{Hub, Node};

impl<N: Drop, C: CellCore<N>> Cell<C, N> {
    /// Takes the frame at this position of the hub, as `Node::deliver` does, to this node.
    pub(crate) fn deliver(
        &mut self,
        hub: &mut Hub,
        me: Node,
        position: u64,
    ) -> Result<Receipt, Fault>
        requires kept { (opening : C.Opening) × Keeps (C.kind opening) (C.core_rules opening) self.old }
        ensures leaves { (opening : C.Opening) →
            Keeps (C.kind opening) (C.core_rules opening) self.old →
            Leaves (C.kind opening) (C.core_rules opening) self.old self.new
            (λ rules history. RefusedAt rules history (slice_get hub.old.net.frames position))
            result }
        ensures ends { Delivers me position (slice_get hub.old.net.frames position)
            hub.old.net hub.new.net (reverse self.old.history.items)
            (reverse self.new.history.items) result }
    {
        C::keeps_rules();
        if !C::is_on(&self.power) {
            return Err(Fault::NodeOff);
        }
        let (came, frame) = frame_came(self.alloc, hub, position)?;
        self.hear(hub, me, C::delivered(came, frame), Some(position))
    }
}
