//! A node that has power, or none.

ghost use Rattle.std.specs.Prelude.{◌≡◌, true, List, IfSome, IfNone, is_some};
ghost use Rattle.std.specs.Borrow.{sem};
ghost use Rattle.std.specs.Option.{option_copied};
ghost use Rattle.node.specs.declared.power.Power.TheVariants.{Lent as Away};
ghost use Rattle.node.specs.Kinds.{left_by, note_of, told_of, Cuts, CutsIn, IsLent, LendsCore, Restarts, Shows, Stands, Takes};

use crate::node_core::NodeCore;
use fc_base::Fault;
use std::alloc::Global;
use std::mem;

/// A node that has power, and may be down; or the notes of one that has none.
#[derive(Drop)]
pub enum Power<C, N> {
    On(C),
    Off(N),
    /// Its notes are in other hands, which put them back.
    Lent,
}

impl<'t, N: Drop, C: NodeCore<'t, N>> Power<C, N> {
    /// The core, where it is on: it has power, and isn't down.
    pub fn core(&self) -> Option<&C>
        ensures { (opening : C.Opening) (past : List C.Entry) →
            Stands (C.kind opening) past self.now →
            Shows (C.kind opening) past self.now (option_copied result) }
    {
        match self {
            Power::On(core) => { if core.is_up() { Some(core) } else { None } }
            _ => None,
        }
    }

    /// The core, to step it, where it is on. `NodeOff`: it isn't, and nothing changes.
    #[inline(always)]
    pub fn on(&mut self) -> Result<&mut C, Fault>
        ensures* lends { sem 𝓛 (LendsCore C.row N.row self.entry result) }
        ensures lent { (opening : C.Opening) (past : List C.Entry) →
            Stands (C.kind opening) past self.old →
            IsLent (C.kind opening) past self.old result }
    {
        match self {
            Power::On(core) => {
                if core.is_up() {
                    Ok(core)
                } else {
                    Err(Fault::NodeOff)
                }
            }
            _ => Err(Fault::NodeOff),
        }
    }

    /// Makes a step of its core. `NodeOff`: it isn't on, and nothing changes. Any other fault is the core's.
    pub fn step(&mut self, input: C::Input) -> Result<C::Outs, Fault>
        ensures { (opening : C.Opening) (past : List C.Entry) →
            Stands (C.kind opening) past self.old →
            Takes (C.kind opening) past (C.came input) self.old self.new result }
    {
        self.on()?.step(input)
    }

    /// Loses its power within the save that a step would make, which is to land or not.
    ///
    /// `NodeOff`: it isn't on; `NoSave`: the step would make none; `NoMemory`: nothing changes. Any other fault
    /// is that of the save, and it is down.
    pub fn cut_in(&mut self, landed: bool, input: C::Input) -> Result<(), Fault>
        ensures { (opening : C.Opening) (past : List C.Entry) →
            Stands (C.kind opening) past self.old →
            CutsIn (C.kind opening) past landed (C.came input) self.old self.new result }
    {
        let Some(core) = self.core() else {
            return Err(Fault::NodeOff);
        };
        match core.would_save(&input) {
            Ok(true) => {}
            Ok(false) => return Err(Fault::NoSave),
            Err(_) => return Err(Fault::NoMemory),
        }
        C::keeps_laws();
        if landed {
            return self.cut_behind(input);
        }
        self.cut()
    }

    /// Loses its power once the save has landed that a step makes.
    fn cut_behind(&mut self, input: C::Input) -> Result<(), Fault>
        ensures { (opening : C.Opening) (past : List C.Entry) →
            Stands (C.kind opening) past self.old →
            (C.kind opening).core.words.is_up past ≡ true →
            is_some ((C.kind opening).core.words.due past (C.came input)) ≡ true →
            CutsIn (C.kind opening) past true (C.came input) self.old self.new result }
    {
        C::keeps_laws();
        let _unsent = self.step(input)?;
        self.cut()
    }

    /// Loses its power. `NodeOff`: it isn't on, and nothing changes.
    pub fn cut(&mut self) -> Result<(), Fault>
        ensures { (opening : C.Opening) (past : List C.Entry) →
            Stands (C.kind opening) past self.old →
            Cuts (C.kind opening) past self.old self.new result }
    {
        if self.core().is_none() {
            return Err(Fault::NodeOff);
        }
        match self.lend() {
            Some(notes) => {
                *self = Power::Off(notes);
                Ok(())
            }
            None => Err(Fault::NodeOff),
        }
    }

    /// Starts again. `NodeOn`: it is on, and nothing changes. Any other fault is the core's.
    pub fn restart(&mut self, alloc: Global, seed: C::Seed) -> Result<(), Fault>
        requires { C.IsSeed seed }
        ensures { (opening : C.Opening) (past : List C.Entry) →
            Stands (C.kind opening) past self.old →
            Restarts (C.kind opening) (C.Opens seed) past self.old self.new result }
    {
        if !self.core().is_none() {
            return Err(Fault::NodeOn);
        }
        match self.lend() {
            Some(notes) => self.put(C::start(alloc, seed, notes)),
            None => Err(Fault::NodeOn),
        }
    }

    /// It is what a start over its notes has left, which were lent: a core, or the notes, and why.
    pub fn put(&mut self, made: Result<C, (N, Fault)>) -> Result<(), Fault>
        ensures left { self.new ≡ left_by made }
        ensures told { result ≡ told_of made }
    {
        match made {
            Ok(core) => {
                *self = Power::On(core);
                Ok(())
            }
            Err((notes, fault)) => {
                *self = Power::Off(notes);
                Err(fault)
            }
        }
    }

    /// Its notes, which are lent until they are put back; `None` where they are lent already.
    pub fn lend(&mut self) -> Option<N>
        ensures left { self.new ≡ Away }
        ensures same { (opening : C.Opening) → IfSome result
            (λ notes. (C.kind opening).note notes ≡ note_of (C.kind opening) self.old) }
        ensures says { (opening : C.Opening) (past : List C.Entry) →
            Stands (C.kind opening) past self.old →
            IfSome result (λ notes. (C.kind opening).Says past notes) }
        ensures none { (opening : C.Opening) (past : List C.Entry) →
            Stands (C.kind opening) past self.old →
            IfNone result ⊥ }
    {
        mem::replace(self, Power::Lent).into_notes()
    }

    /// The notes of one that is taken off; `None` where they are lent.
    pub fn into_notes(self) -> Option<N>
        ensures same { (opening : C.Opening) → IfSome result
            (λ notes. (C.kind opening).note notes ≡ note_of (C.kind opening) self) }
        ensures says { (opening : C.Opening) (past : List C.Entry) →
            Stands (C.kind opening) past self →
            IfSome result (λ notes. (C.kind opening).Says past notes) }
        ensures none { (opening : C.Opening) (past : List C.Entry) →
            Stands (C.kind opening) past self →
            IfNone result ⊥ }
    {
        match self {
            Power::On(core) => Some(core.into_notes()),
            Power::Off(notes) => Some(notes),
            Power::Lent => None,
        }
    }
}
