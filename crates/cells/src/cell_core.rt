//! The core of a node under its lock: a server's, or the client's.

ghost use Rattle.std.specs.Prelude.{◌≡◌, ℕ, false, List, Result, IfOk};
ghost use Rattle.fc_base.specs.declared.fault.Fault.{Fault as AnyFault};
ghost use Rattle.messages.specs.declared.frame.Frame.{Frame as AnyFrame};
ghost use Rattle.node.specs.Kinds.{Cuts, Kind, Restarts, Stands, note_of};
ghost use Rattle.cells.specs.declared.input.NodeInput.{NodeInput as AnyInput};
ghost use Rattle.cells.specs.CoreRules.{CoreRules};
ghost use Rattle.cells.specs.CoreLaws.{IsWithin, Laws};
ghost use Rattle.cells.specs.Failures.{Counts};
ghost use Rattle.cells.specs.Moves.{StepEnds};

use crate::answer::Reply;
use crate::input::NodeInput;
use fc_base::Fault;
use messages::{Frame, Frames};
use node::Power;
use std::alloc::Global;

/// What has to be known of the core of a node, so that a cell may have it: how it takes what comes at the
/// hub, is cut and is started again, as a node that may have no power, and what its rules are made of.
pub(crate) trait CellCore<N>: Drop {
    /// What it is started with, beside its notes.
    type Seed;

    /// What comes to it at the hub.
    type Incoming: Drop;

    /// The most frames that it sends of what comes so.
    const FRAMES: usize;

    /// The most bytes that they have together.
    const BYTES: usize;

    /// The most frames.
    ghost FRAMES: { ℕ };

    /// The most bytes.
    ghost BYTES: { ℕ };

    /// What it was opened with.
    ghost Opening: { Type 0 };

    /// What its list says of what comes to it.
    ghost Came: { Type 0 };

    /// The entries of its list.
    ghost Entry: { Type 0 };

    /// What it adds to its note.
    ghost Addition: { Type 0 };

    /// What it answers and sends.
    ghost Outs: { Type 0 };

    /// Its kind, where it was opened so.
    ghost kind: { Opening → Kind Self N Came Entry Addition Outs };

    /// What its rules are made of, where it was opened so.
    ghost core_rules: { Opening → CoreRules Came Entry };

    /// What it is started with that was opened so.
    ghost seed_of: { Opening → Self.Seed };

    /// It may be started with this.
    ghost IsSeed: { Self.Seed → Type 0 };

    /// How a start with this, over these notes, ends.
    ghost Opens: { Self.Seed → N → Result Self (N × AnyFault) → Type 0 };

    /// What its list says of a frame.
    ghost delivers: { AnyFrame → Came };

    /// As what it is kept that comes so.
    ghost came_in: { Self.Incoming → AnyInput };

    /// What its list says of that.
    ghost input_in: { Self.Incoming → Came };

    /// A frame, which comes so.
    fn delivered(came: NodeInput, frame: Frame) -> Self::Incoming
        ensures came { came_in result ≡ came }
        ensures input { input_in result ≡ delivers frame };

    /// Whether it is on: it has power, and isn't down.
    fn is_on(power: &Power<Self, N>) -> bool
        ensures { (opening : Opening) (past : List Entry) →
            Stands (kind opening) past power.now →
            result ≡ (kind opening).core.words.is_up past };

    /// Makes a step; and as what that is kept which came. `NodeOff`: it isn't on, and nothing changes. Any
    /// other fault is the core's.
    fn take(
        power: &mut Power<Self, N>,
        incoming: Self::Incoming,
    ) -> (Result<(Reply, Frames), Fault>, NodeInput)
        ensures came { result.1 ≡ came_in incoming }
        ensures ends { (opening : Opening) (past : List Entry) →
            Stands (kind opening) past power.old →
            StepEnds (kind opening) (core_rules opening) past (input_in incoming) power.new result.0 }
        ensures count { (opening : Opening) (past : List Entry) →
            Stands (kind opening) past power.old →
            Counts false (note_of (kind opening) power.old).failures
            (note_of (kind opening) power.new).failures result.0 }
        ensures few { (opening : Opening) (past : List Entry) →
            Stands (kind opening) past power.old → (core_rules opening).InRange past →
            IfOk result.0 (λ outs. IsWithin FRAMES BYTES outs.1) };

    /// Loses its power. `NodeOff`: it isn't on, and nothing changes.
    fn cut(power: &mut Power<Self, N>) -> Result<(), Fault>
        ensures { (opening : Opening) (past : List Entry) →
            Stands (kind opening) past power.old →
            Cuts (kind opening) past power.old power.new result };

    /// Starts again. `NodeOn`: it is on, and nothing changes. Any other fault is the core's.
    fn restart(power: &mut Power<Self, N>, alloc: Global, seed: Self::Seed) -> Result<(), Fault>
        requires { IsSeed seed }
        ensures { (opening : Opening) (past : List Entry) →
            Stands (kind opening) past power.old →
            Restarts (kind opening) (Opens seed) past power.old power.new result };

    /// Its rules keep the laws of cells. There is nothing to run.
    fn keeps_rules()
        ensures { (opening : Opening) →
            Laws (kind opening) (core_rules opening) (Opens (seed_of opening)) delivers };
}
