//! A check of a file's blocks, as they are handed in.

ghost use Rattle.std.specs.Prelude.{◌≡◌, ℕ, ◌<◌, ◌≤◌, List, [], ◌∷◌, ◌++◌, length, false};
ghost use Rattle.std.specs.Option.{option_copied};
ghost use Rattle.recheck.specs.Check.{with_block_checked, has_ended, FitsIfAny, HasSeen, Starts};
ghost use Rattle.recheck.specs.Faults.{is_checked, verdict};
ghost use Rattle.recheck.specs.Report.{report, report_of, report_with};

use crate::expected::Expected;
use crate::tally::Tally;
use crate::verdict::Verdict;
use fc_base::{CheckReport, Fault, JobRecord, Key, MAX_BLOCKS, ReportEnd};
use std::alloc::Global;
use std::marker::Model;
use verify_state::VerifyState;

/// The check of one job's file after a restart (fio's manual, "Verification and triggers"), by a
/// verify state or, where there is none, as a full pass: all writes of the job count as completed.
///
/// Blocks are handed in in ascending order. One to which no write has completed may hold anything.
/// Another has to hold its last completed write or one that was in flight to it when the state was
/// taken.
///
/// Only making it takes memory.
#[derive(Drop)]
pub struct Recheck {
    expected: Expected,
    fatal: bool,
    tally: Tally,
}

impl Model for Recheck {
    ghost use Rattle.std.specs.Prelude.{◌≡◌, ◌≤◌, true};
    ghost use Rattle.recheck.specs.Check.{Check};

    ghost Value = { Check };

    ghost view = { λ r. record {
      expected = r.expected;
      fatal = r.fatal;
      next = r.tally.next;
      found = r.tally.found;
    } };

    ghost invariant = { λ r. r.fatal ≡ true → r.tally.found.faults ≤ 1 };
}

impl Recheck {
    /// A check of this job's blocks that has seen none of them. `fatal` ends it at the first fault
    /// (fio's `verify_fatal`).
    ///
    /// A state of another run, server or job is [`Fault::OtherKey`]; one of a job that writes other
    /// bytes, or less, is [`Fault::OtherJob`]; one whose generator stands elsewhere is
    /// [`Fault::OtherPlace`]; then want of memory. It takes 4 bytes for each block, as much again
    /// for a random order with a map, and a list of the writes in flight.
    pub fn new(
        alloc: Global,
        rec: &JobRecord,
        key: Key,
        state: Option<&VerifyState>,
        fatal: bool,
    ) -> Result<Recheck, Fault>
        ensures { Starts result key rec.now (option_copied state.entry) fatal }
    {
        fits(state, &key, rec)?;
        let Ok(expected) = Expected::new(alloc, key, rec, state) else {
            return Err(Fault::NoMemory);
        };
        Ok(Recheck {
            expected,
            fatal,
            tally: Tally::new(),
        })
    }

    /// Whether the block is checked: some write to it has completed. Another need not be read. A
    /// block past the job's last one is not wanted.
    pub fn wants(&self, block: u32) -> bool
        ensures value { result ≡ is_checked self.now.expected block }
        ensures past { self.now.expected.job.blocks ≤ block → result ≡ false }
    {
        self.expected.is_checked(block)
    }

    /// What the blocks are checked against: which writes each of them may hold.
    pub fn expected(&self) -> &Expected
        ensures { result.now ≡ self.now.expected }
    {
        &self.expected
    }

    /// Checks a block, which has to come after those that came before, by its bytes.
    pub fn feed(&mut self, block: u32, bytes: &[u8]) -> Verdict
        requires block { block < self.old.expected.job.blocks }
        requires next { self.old.next ≤ block }
        requires bytes { length bytes.now ≡ self.old.expected.job.bs }
        requires unended { has_ended self.old ≡ false }
        ensures verdict { result ≡ verdict self.old.expected block bytes.now }
        ensures left { self.new ≡ with_block_checked self.old block result }
        // Whatever the content that the earlier blocks are of, if this one is of it too.
        ensures seen { (held : ℕ → List ℕ) (blocks : List ℕ) → held block ≡ bytes.now
            → HasSeen self.old held blocks → HasSeen self.new held (blocks ++ block ∷ []) }
    {
        let verdict = self.expected.verdict(block, bytes);
        self.tally.note(block, verdict);
        verdict
    }

    /// Whether the check has ended, since a fault is fatal and one was found.
    pub fn ended(&self) -> bool
        ensures { result ≡ has_ended self.now }
    {
        self.fatal && 0 < self.tally.faults()
    }

    /// The report of the blocks that came. It takes no memory.
    pub fn finish(self) -> CheckReport
        ensures value { result ≡ report_of self.fatal self.found }
        ensures seen { (held : ℕ → List ℕ) (blocks : List ℕ)
            → HasSeen self held blocks → result ≡ report self.fatal self.expected held blocks }
    {
        let end = if self.ended() {
            ReportEnd::AtFault
        } else {
            ReportEnd::Whole
        };
        let Recheck {
            expected: _,
            fatal: _,
            tally,
        } = self;
        tally.into_report(end)
    }

    /// The report of the blocks that came, where this one could not be read. It takes no memory.
    pub fn finish_at(self, block: u32) -> CheckReport
        requires { block < MAX_BLOCKS }
        ensures { result ≡ report_with self.found (ReportEnd.ReadFault block) }
    {
        let Recheck {
            expected: _,
            fatal: _,
            tally,
        } = self;
        tally.into_report(ReportEnd::ReadFault(block))
    }
}

/// Whether the state, if there is one, is one of this job.
fn fits(state: Option<&VerifyState>, key: &Key, rec: &JobRecord) -> Result<(), Fault>
    ensures { FitsIfAny (option_copied state.entry) key.now rec.now result }
{
    match state {
        None => Ok(()),
        Some(state) => state.fits(*key, rec),
    }
}
