//! The core of a node: a server, the client or a mirror.

ghost use Rattle.std.specs.Prelude.{◌≡◌, List, Result, IfOk, is_some};
ghost use Rattle.fc_base.specs.declared.fault.Fault.{Fault as AnyFault};
ghost use Rattle.node.specs.Kinds.{Kind, Laws};
ghost use Rattle.node.specs.Steps.{Ends};

use fc_base::Fault;
use std::alloc::{AllocError, Global};

/// The core of a node over its notes. What comes to it may borrow for `'t`.
pub trait NodeCore<'t, N>: Drop {
    /// What it is started with, beside its notes.
    type Seed: Copy;

    /// What comes to it.
    type Input: Drop;

    /// What it answers and sends.
    type Outs: Drop;

    /// What it was opened with.
    ghost Opening: { Type 0 };

    /// What its list says of what comes to it.
    ghost Came: { Type 0 };

    /// The entries of its list.
    ghost Entry: { Type 0 };

    /// What it adds to its note.
    ghost Addition: { Type 0 };

    /// What its list says of this.
    ghost came: { Self.Input → Came };

    /// Its kind, where it was opened so.
    ghost kind: { Opening → Kind Self N Came Entry Addition Self.Outs };

    /// It may be started with this.
    ghost IsSeed: { Self.Seed → Type 0 };

    /// How a start with this, over these notes, ends.
    ghost Opens: { Self.Seed → N → Result Self (N × AnyFault) → Type 0 };

    /// Whether it is on: no save has failed since it was started.
    fn is_up(&self) -> bool
        ensures { (opening : Opening) (past : List Entry) →
            (kind opening).core.StandsFor past self.now →
            result ≡ (kind opening).core.words.is_up past };

    /// Makes a step: takes what comes, saves what is due for it, and says what it answers and sends.
    ///
    /// Its own refusals, each of which is a case of `kind`; `NoMemory`, and nothing changes; a fault of its
    /// save, behind which it is down.
    fn step(&mut self, input: Self::Input) -> Result<Self::Outs, Fault>
        ensures { (opening : Opening) (past : List Entry) →
            (kind opening).core.StandsFor past self.old →
            Ends (kind opening).core past (came input) self.old self.new result };

    /// Whether a step would make a save of what comes. Memory may be wanted to know that.
    fn would_save(&self, input: &Self::Input) -> Result<bool, AllocError>
        ensures { (opening : Opening) (past : List Entry) →
            (kind opening).core.StandsFor past self.now →
            IfOk result (λ saves. saves ≡
            is_some ((kind opening).core.words.due past (came input.now))) };

    /// Its notes, as they are durable.
    fn notes(&self) -> &N
        ensures same { (opening : Opening) →
            (kind opening).note result.now ≡ (kind opening).core.note self.now }
        ensures says { (opening : Opening) (past : List Entry) →
            (kind opening).core.StandsFor past self.now →
            (kind opening).Says past result.now };

    /// Its notes, where it is taken off.
    fn into_notes(self) -> N
        ensures same { (opening : Opening) →
            (kind opening).note result ≡ (kind opening).core.note self }
        ensures says { (opening : Opening) (past : List Entry) →
            (kind opening).core.StandsFor past self →
            (kind opening).Says past result };

    /// Starts a core over these notes, or gives them back.
    fn start(alloc: Global, seed: Self::Seed, notes: N) -> Result<Self, (N, Fault)>
        requires { IsSeed seed }
        ensures { Opens seed notes result };

    /// Its kind keeps the laws of a node. There is nothing to run.
    fn keeps_laws()
        ensures { (opening : Opening) → Laws (kind opening) };
}
