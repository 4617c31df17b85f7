//! What a client keeps of what it has done since it was restarted.

ghost use Rattle.std.specs.Prelude.{◌<◌, ◌∷◌, [], IsTrue, IsSome, OnOk, List};
ghost use Rattle.std.specs.Ordering.{nat_cmp};
ghost use Rattle.std.specs.BTreeMap.{get};
ghost use Rattle.messages.specs.Ranges.{is_run};

mod hear;
mod look;

use crate::attempt_asked::AttemptAsked;
use crate::reports::Reports;
use crate::run_asked::RunAsked;
use fc_base::{Attempt, Key, RunNo};
use messages::{Act, Text};
use std::alloc::{AllocError, Global};
use std::collections::{BTreeMap, HashSet};

/// The requests of this life, by the numbers of their runs and attempts, the reports that came, and what
/// the mirror said it keeps.
pub struct Life {
    pub runs: BTreeMap<u64, RunAsked>,
    pub attempts: BTreeMap<u64, Option<AttemptAsked>>,
    pub reports: Reports,
    /// The keys of the states that the mirror said it keeps.
    pub copied: HashSet<Key>,
}

/// By hand, so that the crates above need no proof of it.
impl Drop for Life {
    fn drop(self) {
        let Life {
            runs: _,
            attempts: _,
            reports: _,
            copied: _,
        } = self;
    }
}

impl Life {
    ghost use Rattle.client_core.specs.Life.{Deed, Begins, Triggers, Stops, Verifies};
    ghost use Rattle.client_core.specs.Lives.{AttemptIs, LifeIs, EachLife};

    /// That of a client which was just restarted. It takes no memory.
    pub fn new(alloc: Global) -> Life
        ensures { LifeIs result [] }
    {
        Life {
            runs: BTreeMap::new(alloc),
            attempts: BTreeMap::new(alloc),
            reports: Reports::new(alloc),
            copied: HashSet::new(alloc),
        }
    }

    /// Makes room for what is asked for a run. Nothing is asked yet.
    pub fn make_room_for_run(&mut self, run: RunNo) -> Result<(), AllocError>
        requires { IsTrue (is_run run) }
        ensures same { EachLife self.old (LifeIs self.new) }
        ensures room { OnOk result (IsSome (get nat_cmp self.new.runs run)) }
    {
        if !self.runs.contains_key(&run.0) {
            self.runs.insert(run.0, RunAsked::blank())?;
        }
        Ok(())
    }

    /// Makes room for an attempt to verify. It isn't made yet.
    pub fn make_room_for_attempt(&mut self, attempt: Attempt) -> Result<(), AllocError>
        ensures same { EachLife self.old (LifeIs self.new) }
        ensures room { OnOk result (IsSome (get nat_cmp self.new.attempts attempt)) }
    {
        if !self.attempts.contains_key(&attempt.0) {
            self.attempts.insert(attempt.0, None)?;
        }
        Ok(())
    }

    /// A run begins with this text.
    pub fn begin(&mut self, run: RunNo, text: Text)
        requires { IsSome (get nat_cmp self.old.runs run) }
        ensures { EachLife self.old (λ deeds. LifeIs self.new (Begins run text ∷ deeds)) }
    {
        if let Some(asked) = self.runs.get_mut(&run.0) {
            asked.begin(text);
        }
    }

    /// A run is triggered, and then this is to be done.
    pub fn trigger(&mut self, run: RunNo, act: Act)
        requires { IsSome (get nat_cmp self.old.runs run) }
        ensures { EachLife self.old (λ deeds. LifeIs self.new (Triggers run act ∷ deeds)) }
    {
        if let Some(asked) = self.runs.get_mut(&run.0) {
            asked.trigger(act);
        }
    }

    /// A run is stopped.
    pub fn stop(&mut self, run: RunNo)
        requires { IsSome (get nat_cmp self.old.runs run) }
        ensures { EachLife self.old (λ deeds. LifeIs self.new (Stops run ∷ deeds)) }
    {
        if let Some(asked) = self.runs.get_mut(&run.0) {
            asked.stop();
        }
    }

    /// An attempt verifies a run by this text.
    pub fn verify(&mut self, attempt: Attempt, asked: AttemptAsked)
        requires room { IsSome (get nat_cmp self.old.attempts attempt) }
        requires asked { (deeds : List Deed) →
            AttemptIs attempt (Verifies asked.run attempt asked.text ∷ deeds) asked }
        ensures { EachLife self.old
            (λ deeds. LifeIs self.new (Verifies asked.run attempt asked.text ∷ deeds)) }
    {
        if let Some(place) = self.attempts.get_mut(&attempt.0) {
            *place = Some(asked);
        }
    }
}
