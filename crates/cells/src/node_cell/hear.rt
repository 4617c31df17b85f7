//! What comes to a node at the hub.

ghost use Rattle.std.specs.Prelude.{◌≡◌, ◌<◌, length, reverse};
ghost use Rattle.std.specs.Option.{ForSome};
ghost use Rattle.cells.specs.AtHub.{Posts};
ghost use Rattle.cells.specs.Calls.{RefusedAfter};
ghost use Rattle.cells.specs.CoreLaws.{Leaves};
ghost use Rattle.cells.specs.Moves.{Keeps, outcome_of};
ghost use Rattle.cells.specs.Rules.{Meets};

use super::Cell;
use crate::answer::{Receipt, Reply};
use crate::cell_core::CellCore;
use crate::entered::{enter, make_room};
use fc_base::Fault;
use messages::{Frames, Hub, Node};
use std::alloc::Global;

impl<N: Drop, C: CellCore<N>> Cell<C, N> {
    /// Takes what comes at the hub to this node, from this position where it is a frame.
    ///
    /// `NodeOff`, it isn't on; the core's own. A save that fails is entered in the history, as what is
    /// answered is; any other refusal, and `NoMemory`, changes nothing.
    pub(crate) fn hear(
        &mut self,
        hub: &mut Hub,
        me: Node,
        incoming: C::Incoming,
        taken: Option<u64>,
    ) -> Result<Receipt, Fault>
        requires taken { ForSome taken (λ i. i < length hub.old.net.frames) }
        requires asks { (opening : C.Opening) →
            (C.core_rules opening).asked (C.came_in incoming) ≡ Meets (C.input_in incoming) }
        requires kept { (opening : C.Opening) × Keeps (C.kind opening) (C.core_rules opening) self.old }
        ensures leaves { (opening : C.Opening) →
            Keeps (C.kind opening) (C.core_rules opening) self.old →
            Leaves (C.kind opening) (C.core_rules opening) self.old self.new
            (λ rules history. RefusedAfter rules history (Meets (C.input_in incoming))) result }
        ensures ends { Posts me (C.came_in incoming) taken hub.old.net hub.new.net
            (reverse self.old.history.items) (reverse self.new.history.items) result }
    {
        C::keeps_rules();
        make_room(&self.power, &mut self.history, hub, C::FRAMES, C::BYTES)?;
        let (step, came) = C::take(&mut self.power, incoming);
        let done = outcome(self.alloc, step);
        enter(&mut self.history, hub, me, came, taken, done)
    }
}

/// What a step is answered, and the frames that it sends.
pub(crate) fn outcome(
    alloc: Global,
    step: Result<(Reply, Frames), Fault>,
) -> (Result<Reply, Fault>, Frames)
    ensures { result ≡ outcome_of step }
{
    match step {
        Ok((reply, frames)) => (Ok(reply), frames),
        Err(fault) => (Err(fault), Frames::new(alloc)),
    }
}
