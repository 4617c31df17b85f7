//! The runs that the entries of a ledger name.

ghost use Rattle.std.specs.Prelude.{◌≡◌, [], ◌∷◌, ◌++◌, OnOk, bytes_eq, length, if◌then◌else◌};
ghost use Rattle.std.specs.List.{list_any};
ghost use Rattle.ledger.specs.Spelling.{index_in};

use indexmap::IndexSet;
use std::alloc::{AllocError, Global};
use std::marker::Model;

/// The run of a write: whose it is, and the settings of its job.
pub(crate) type Run = [u64; 12];

/// Runs, each once, in the order in which they came. However many there are, a run takes as many steps to find.
#[derive(Drop)]
pub(crate) struct Runs {
    rows: IndexSet<Run>,
}

impl Model for Runs {
    ghost use Rattle.std.specs.Prelude.{List, ℕ};

    ghost Value = { List (List ℕ) };

    ghost view = { λ r. r.rows.keys };
}

impl Runs {
    /// No run. It takes no memory.
    pub(crate) fn new(alloc: Global) -> Runs
        ensures { result ≡ [] }
    {
        Runs {
            rows: IndexSet::new(alloc),
        }
    }

    /// How many there are.
    pub(crate) fn len(&self) -> usize
        ensures { result ≡ length self.now }
    {
        self.rows.len()
    }

    /// The runs, in their order.
    pub(crate) fn as_slice(&self) -> &[Run]
        ensures { result.now ≡ self.now }
    {
        self.rows.as_slice()
    }

    /// Adds a run, where it isn't there yet.
    pub(crate) fn add(&mut self, run: Run) -> Result<(), AllocError>
        ensures { OnOk result (self.new
            ≡ (if list_any (bytes_eq run) self.old then self.old else self.old ++ run ∷ [])) }
    {
        self.rows.insert(run)?;
        Ok(())
    }

    /// The place of a run, which is behind the last one where it isn't there.
    pub(crate) fn place_of(&self, run: &Run) -> u64
        ensures { result ≡ index_in run.now self.now }
    {
        match self.rows.get_index_of(run) {
            Some(place) => place as u64,
            None => self.rows.len() as u64,
        }
    }
}
