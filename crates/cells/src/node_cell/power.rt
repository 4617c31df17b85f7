//! What happens to a node without the network: it is cut, and started again.

ghost use Rattle.std.specs.Prelude.{◌≡◌, true, false, List};
ghost use Rattle.node.specs.Kinds.{Stands, note_of};
ghost use Rattle.cells.specs.Rules as rules;
ghost use Rattle.cells.specs.Failures.{Counts};
ghost use Rattle.cells.specs.Moves.{TaskEnds};

use crate::answer::Reply;
use crate::cell_core::CellCore;
use fc_base::Fault;
use node::Power;
use std::alloc::Global;

/// Cuts the power of a node. `NodeOff`: it isn't on.
pub(crate) fn cut<N: Drop, C: CellCore<N>>(power: &mut Power<C, N>) -> Result<Reply, Fault>
    ensures ends { (opening : C.Opening) (past : List C.Entry) →
        Stands (C.kind opening) past power.old →
        TaskEnds (C.kind opening) (C.core_rules opening) past rules.Cuts power.new result }
    ensures count { (opening : C.Opening) (past : List C.Entry) →
        Stands (C.kind opening) past power.old →
        Counts false (note_of (C.kind opening) power.old).failures
        (note_of (C.kind opening) power.new).failures result }
{
    C::keeps_rules();
    Reply::of_power(C::cut(power))
}

/// Starts a node again, with what it was opened with. `NodeOn`: it is on; any other fault is that of the
/// start.
pub(crate) fn restart<N: Drop, C: CellCore<N>>(
    power: &mut Power<C, N>,
    alloc: Global,
    seed: C::Seed,
) -> Result<Reply, Fault>
    requires { C.IsSeed seed }
    ensures ends { (opening : C.Opening) (past : List C.Entry) → C.seed_of opening ≡ seed →
        Stands (C.kind opening) past power.old →
        TaskEnds (C.kind opening) (C.core_rules opening) past rules.Restarts power.new result }
    ensures count { (opening : C.Opening) (past : List C.Entry) → C.seed_of opening ≡ seed →
        Stands (C.kind opening) past power.old →
        Counts true (note_of (C.kind opening) power.old).failures
        (note_of (C.kind opening) power.new).failures result }
{
    C::keeps_rules();
    Reply::of_power(C::restart(power, alloc, seed))
}
