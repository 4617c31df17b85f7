//! A check of a place's blocks by its ledger, as they are handed in.

ghost use Rattle.std.specs.Prelude.{◌≡◌, ℕ, ◌+◌, ◌<◌, ◌≤◌, List, length, false};
ghost use Rattle.ledger.specs.Places.{Place, is_checked, verdict_at, after_check};
ghost use Rattle.ledger.specs.Reports.{report};
ghost use Rattle.ledger.specs.Checks.{start, with_block_fed, report_at, report_of, HasSeen};

use crate::ledger::Ledger;
use crate::tally::Tally;
use fc_base::{CheckReport, MAX_BLOCKS};
use recheck::Verdict;
use std::marker::Model;

/// The check of a place by its ledger, behind a cut or a flush. Blocks are handed in in ascending order, and none that is
/// wanted is left out.
///
/// It takes no memory.
#[derive(Drop)]
pub struct LedgerCheck {
    ledger: Ledger,
    tally: Tally,
}

impl Model for LedgerCheck {
    ghost use Rattle.ledger.specs.Checks.{Check};

    ghost Value = { Check };

    ghost view = { λ c. record {
      place = c.ledger;
      next = c.tally.next;
      found = c.tally.found;
    } };
}

impl LedgerCheck {
    /// A check by this ledger that has seen no block.
    pub fn new(ledger: Ledger) -> LedgerCheck
        ensures value { result ≡ start ledger }
        ensures seen { (held : ℕ → List ℕ) → HasSeen result ledger held 0 }
    {
        LedgerCheck {
            ledger,
            tally: Tally::new(),
        }
    }

    /// How many blocks the place has.
    pub fn blocks(&self) -> u32
        ensures { result ≡ length self.now.place.entries }
    {
        self.ledger.blocks()
    }

    /// Whether the block is checked: its entry asks for something. Another need not be read.
    pub fn wants(&self, block: u32) -> bool
        ensures value { result ≡ is_checked self.now.place block }
        // So a block that isn't wanted is seen as it stands.
        ensures seen { result ≡ false → (place : Place) (held : ℕ → List ℕ)
            → HasSeen self.now place held block → HasSeen self.now place held (block + 1) }
    {
        self.ledger.wants(block)
    }

    /// Checks a block, which has to come after those that came before, by its bytes.
    pub fn feed(&mut self, block: u32, bytes: &[u8]) -> Verdict
        requires block { block < length self.old.place.entries }
        requires next { self.old.next ≤ block }
        ensures verdict { result ≡ verdict_at self.old.place block bytes.now }
        ensures left { self.new ≡ with_block_fed self.old block bytes.now }
        // Whatever the content that the earlier blocks are of, if this one is of it too.
        ensures seen { (place : Place) (held : ℕ → List ℕ) → held block ≡ bytes.now
            → HasSeen self.old place held block → HasSeen self.new place held (block + 1) }
    {
        let verdict = self.ledger.check(block, bytes);
        self.tally.note(block, verdict);
        verdict
    }

    /// The report of the blocks that came, where the check ends before this one, which could not be read. The ledger
    /// is given up: the one before the check stands.
    pub fn finish_at(self, block: u32) -> CheckReport
        requires { block < MAX_BLOCKS }
        ensures { result ≡ report_at self.found block }
    {
        let LedgerCheck { ledger: _, tally } = self;
        tally.into_report_at(block)
    }

    /// The report of the blocks that came, and what is known of the place from now on.
    pub fn finish(self) -> (CheckReport, Ledger)
        ensures value { (result.0 ≡ report_of self.found) × (result.1 ≡ self.place) }
        ensures seen { (place : Place) (held : ℕ → List ℕ)
            → HasSeen self place held (length self.place.entries)
            → (result.0 ≡ report place held) × (result.1 ≡ after_check held place) }
    {
        let LedgerCheck { ledger, tally } = self;
        (tally.into_report(), ledger)
    }
}
