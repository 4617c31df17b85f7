//! The states that a node keeps.

ghost use Rattle.std.specs.Prelude.{◌≡◌, ◌<◌, ◌≤◌, [], ◌∷◌, ◌++◌, length, is_some, None, IfNone, OnOk, OnErr, IsTrue};
ghost use Rattle.std.specs.Option.{option_copied, option_to_list};
ghost use Rattle.verify_state.specs.StateTable.{kept_of, has_distinct_keys};

use crate::state::VerifyState;
use fc_base::Key;
use indexmap::IndexMap;
use std::alloc::{AllocError, Global};
use std::marker::Model;

/// How many states are kept at most.
pub const KEPT_LIMIT: usize = 1024;

/// The kept states, in the order in which they came: at most one of each key, and at most 1,024.
pub struct StateTable {
    by_key: IndexMap<Key, VerifyState>,
}

/// By hand, so that the crates above need no proof of it.
impl Drop for StateTable {
    fn drop(self) {
        let StateTable { by_key: _ } = self;
    }
}

impl Model for StateTable {
    ghost use Rattle.std.specs.Prelude.{List, map};
    ghost use Rattle.verify_state.specs.State.{State};
    ghost use Rattle.verify_state.specs.Table.{IsTable};

    ghost Value = { List State };

    ghost view = { λ k. map (λ e. e.1) k.by_key.entries };

    ghost invariant = { λ k. IsTable k.by_key.entries };
}

impl StateTable {
    /// No state. It takes no memory.
    pub fn new(alloc: Global) -> StateTable
        ensures { result ≡ [] }
    {
        StateTable {
            by_key: IndexMap::new(alloc),
        }
    }

    /// How many there are.
    pub fn len(&self) -> usize
        ensures len { result ≡ length self.now }
        ensures few { result ≤ KEPT_LIMIT }
    {
        self.by_key.len()
    }

    /// The states, in their order.
    pub fn as_slice(&self) -> &[VerifyState]
        ensures { result.now ≡ self.now }
    {
        self.by_key.values().as_slice()
    }

    /// The state of a key.
    pub fn get(&self, key: Key) -> Option<&VerifyState>
        ensures { option_copied result ≡ kept_of key self.now }
    {
        self.by_key.get(&key)
    }

    /// Whether a state of this key is kept.
    pub fn has(&self, key: Key) -> bool
        ensures { result ≡ is_some (kept_of key self.now) }
    {
        self.by_key.contains_key(&key)
    }

    /// Adds a state of another key than all others. Where memory runs out nothing changes.
    pub fn push(&mut self, state: VerifyState) -> Result<(), AllocError>
        requires new { kept_of state.key self.old ≡ None }
        requires room { length self.old < KEPT_LIMIT }
        ensures pushed { OnOk result (self.new ≡ self.old ++ state ∷ []) }
        ensures same { OnErr result (self.new ≡ self.old) }
    {
        self.by_key.insert(state.key(), state)?;
        Ok(())
    }

    /// Takes out the state that came last, if there is one.
    pub fn pop(&mut self) -> Option<VerifyState>
        ensures last { self.old ≡ self.new ++ option_to_list result }
        ensures none { IfNone result (self.old ≡ []) }
    {
        Some(self.by_key.pop()?.1)
    }

    /// No two states are of one key. Nothing runs: this is for proofs.
    pub fn keeps_keys_apart(&self)
        ensures { IsTrue (has_distinct_keys self.now) }
    {
        let _states = self.by_key.len();
    }
}
