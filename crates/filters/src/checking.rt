//! A check of a job's file under way, whose blocks come as they are wanted.

ghost use Rattle.std.specs.Prelude.{◌≡◌, ◌<◌, ◌≤◌, ◌+◌, ◌*◌, ℕ, List, true, false, length, IfOk};
ghost use Rattle.std.specs.Option.{option_copied};
ghost use Rattle.fc_base.specs.declared.limits.TheConstants.{MAX_BLOCK_SIZE as BLOCK_SIZE, MAX_BLOCKS};
ghost use Rattle.fc_base.specs.declared.report.ReportEnd.TheVariants.{ReadFault};
ghost use Rattle.recheck.specs.Check.{has_ended};
ghost use Rattle.recheck.specs.Faults.{is_checked};
ghost use Rattle.recheck.specs.Report.{report_with};

use fc_base::{Attempt, CheckReport, Fault, JobNo, JobRecord, Key};
use recheck::{Recheck, faults_end_checks};
use std::alloc::Global;
use verify_state::VerifyState;

/// How many bytes of blocks are wanted at once, at the most: no block has more.
const AT_ONCE: u32 = 1_048_576;

/// A check under way: so many blocks from `next` on are wanted.
#[derive(Drop)]
pub(crate) struct Checking {
    pub boot: u64,
    pub attempt: Attempt,
    pub job: JobNo,
    pub next: u32,
    pub count: u32,
    pub size: u32,
    blocks: u32,
    check: Recheck,
    ghost blocks_are: { check.expected.job.blocks ≡ blocks },
    ghost size_is: { check.expected.job.bs ≡ size },
    ghost some: { 0 < size },
    ghost fits: { size ≤ BLOCK_SIZE },
    ghost within: { next + count ≤ blocks },
    ghost at: { check.next ≤ next },
    ghost goes_on: { has_ended check ≡ false },
}

/// How far a check is.
#[derive(Drop)]
pub(crate) enum CheckTurn {
    /// More blocks are wanted.
    On(Checking),
    /// This is its report.
    Ended(CheckReport),
}

impl Checking {
    ghost use Rattle.filters.specs.UnderWay.{UnderWay, next_block, with_blocks};
    ghost use Rattle.filters.specs.CheckRuns.{Fed, Goes, HasCome, IsBegun, IsKept, IsNext, IsSome, with_came};

    /// A check that begins: no blocks are wanted yet.
    pub(crate) fn start(
        alloc: Global,
        boot: u64,
        attempt: Attempt,
        key: Key,
        rec: &JobRecord,
        state: Option<&VerifyState>,
        fatal: bool,
    ) -> Result<Checking, Fault>
        ensures { IfOk result
            (IsBegun boot attempt key rec.now (option_copied state.entry) fatal) }
    {
        let job = key.job;
        let size = rec.bs();
        let blocks = rec.blocks();
        let check = Recheck::new(alloc, rec, key, state, fatal)?;
        Ok(Checking {
            boot,
            attempt,
            job,
            next: 0,
            count: 0,
            size,
            blocks,
            check,
        })
    }

    /// Looks which blocks are wanted next: none any more where the check is whole.
    pub(crate) fn seek(self) -> CheckTurn
        ensures { (j : ℕ) (u : UnderWay) → HasCome j self u → self.next ≡ next_block u.came
            → Goes j u result }
    {
        let Checking {
            boot,
            attempt,
            job,
            next,
            count: _,
            size,
            blocks,
            check,
        } = self;
        let first = first_wanted(&check, next, blocks);
        if first >= blocks {
            return CheckTurn::Ended(check.finish());
        }
        let count = wanted_from(&check, first, blocks, AT_ONCE / size);
        CheckTurn::On(Checking {
            boot,
            attempt,
            job,
            next: first,
            count,
            size,
            blocks,
            check,
        })
    }

    /// Checks the next block, which is wanted, by its bytes.
    fn feed(self, bytes: &[u8]) -> CheckTurn
        requires bytes { length bytes.now ≡ self.size }
        requires wanted { 0 < self.count }
        ensures feeds { (j : ℕ) (u : UnderWay) → HasCome j self u
            → Fed j (with_came u self.next bytes.now) result }
        ensures next { IsNext self result }
    {
        faults_end_checks();
        let Checking {
            boot,
            attempt,
            job,
            next,
            count,
            size,
            blocks,
            check,
        } = self;
        let mut check = check;
        check.feed(next, bytes);
        if check.ended() {
            return CheckTurn::Ended(check.finish());
        }
        CheckTurn::On(Checking {
            boot,
            attempt,
            job,
            next: next + 1,
            count: count - 1,
            size,
            blocks,
            check,
        })
    }

    /// Checks so many of the blocks that are wanted, by their bytes, and looks which are wanted next.
    pub(crate) fn feed_all(self, given: u32, bytes: &[u8]) -> CheckTurn
        requires some { 0 < given }
        requires wanted { given ≤ self.count }
        requires bytes { length bytes.now ≡ given * self.size }
        ensures { (j : ℕ) (u : UnderWay) → IsKept j self u
            → Goes j (with_blocks u given bytes.now) result }
    {
        let size = self.size as usize;
        let mut now = self;
        for fed in 0..given {
            let from = fed as usize * size;
            let block = &bytes[from..from + size];
            now = match now.feed(block) {
                CheckTurn::On(next) => next,
                CheckTurn::Ended(report) => return CheckTurn::Ended(report),
            };
        }
        now.seek()
    }

    /// The report where the next block couldn't be read.
    pub(crate) fn give_up(self) -> CheckReport
        requires { self.next < MAX_BLOCKS }
        ensures { result ≡ report_with self.check.found (ReadFault self.next) }
    {
        let next = self.next;
        self.check.finish_at(next)
    }

    /// How many blocks so many bytes are, where they are some of those that are wanted, the first ones.
    pub(crate) fn some_of(&self, bytes: usize) -> Option<u32>
        ensures { IsSome self.now bytes result }
    {
        let size = self.size as usize;
        let given = bytes / size;
        if given > 0 && given * size == bytes && given <= self.count as usize {
            Some(given as u32)
        } else {
            None
        }
    }
}

/// The first block from this one on that has to be checked; as many as there are, where none has to.
fn first_wanted(check: &Recheck, from: u32, blocks: u32) -> u32
    requires { from ≤ blocks }
    ensures from { from ≤ result }
    ensures within { result ≤ blocks }
    ensures none { (b : ℕ) → from ≤ b → b < result → is_checked check.now.expected b ≡ false }
    ensures found { result < blocks → is_checked check.now.expected result ≡ true }
{
    for block in from..blocks {
        if check.wants(block) {
            return block;
        }
    }
    blocks
}

/// How many blocks from this one on have to be checked, one behind the other, of so many at the most.
fn wanted_from(check: &Recheck, first: u32, blocks: u32, most: u32) -> u32
    requires { first ≤ blocks }
    ensures few { result ≤ most }
    ensures within { first + result ≤ blocks }
    ensures checked { (b : ℕ) → first ≤ b → b < first + result
        → is_checked check.now.expected b ≡ true }
    ensures all { result < most → first + result < blocks
        → is_checked check.now.expected (first + result) ≡ false }
{
    let room = blocks - first;
    for count in 0..room.min(most) {
        if !check.wants(first + count) {
            return count;
        }
    }
    room.min(most)
}
