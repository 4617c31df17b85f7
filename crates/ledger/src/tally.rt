//! The tally of the blocks that came to a check.

ghost use Rattle.std.specs.Prelude.{◌≡◌, ◌+◌, ◌≤◌, ◌<◌, [], ◌∷◌, ◌++◌, IsTrue, length, take};
ghost use Rattle.recheck.specs.Check.{with_verdict, nothing};
ghost use Rattle.recheck.specs.Report.{report_with};
ghost use Rattle.ledger.specs.Checks.{is_end, report_at, report_of};

use fc_base::{Blocks, CheckReport, MAX_BLOCKS, MAX_LISTED, ReportEnd, ReportParts};
use recheck::Verdict;
use std::marker::Model;

/// How many blocks were checked, how many of them are lost, and the first that are, at most [`MAX_LISTED`], which are
/// noted in ascending order.
#[derive(Drop)]
pub struct Tally {
    next: u32,
    checked: u32,
    faults: u32,
    first: Blocks,
}

impl Model for Tally {
    ghost use Rattle.ledger.specs.Tally.{Counts, IsTally};

    ghost Value = { Counts };

    ghost view = { λ t. record {
      next = t.next;
      found = record { checked = t.checked; faults = t.faults; first = t.first };
    } };

    ghost invariant = { IsTally };
}

impl Tally {
    /// The tally of no blocks.
    pub fn new() -> Tally
        ensures { result ≡ record { next = 0; found = nothing } }
    {
        Tally {
            next: 0,
            checked: 0,
            faults: 0,
            first: Blocks::new(),
        }
    }

    /// Notes what was found at the next block.
    pub fn note(&mut self, block: u32, verdict: Verdict)
        requires next { self.old.next ≤ block }
        requires range { block < MAX_BLOCKS }
        ensures { self.new
            ≡ record { next = block + 1; found = with_verdict self.old.found block verdict } }
    {
        self.next = block + 1;
        match verdict {
            Verdict::Skipped => {}
            Verdict::Good => self.checked += 1,
            Verdict::Fault => {
                self.checked += 1;
                self.faults += 1;
                list(&mut self.first, block);
            }
        }
    }

    /// The report of these blocks.
    pub fn into_report(self) -> CheckReport
        ensures { result ≡ report_of self.found }
    {
        self.into_report_with(ReportEnd::Whole)
    }

    /// The report of these blocks, behind which this one could not be read.
    pub fn into_report_at(self, block: u32) -> CheckReport
        requires { block < MAX_BLOCKS }
        ensures { result ≡ report_at self.found block }
    {
        self.into_report_with(ReportEnd::ReadFault(block))
    }

    /// The report of these blocks, with this end.
    fn into_report_with(self, end: ReportEnd) -> CheckReport
        requires { IsTrue (is_end end) }
        ensures { result ≡ report_with self.found end }
    {
        let Tally {
            next: _,
            checked,
            faults,
            first,
        } = self;
        match CheckReport::make(ReportParts {
            checked,
            faults,
            first,
            end,
        }) {
            Ok(report) => report,
            Err(_) => unreachable!(),
        }
    }
}

/// Lists a faulty block, where it is one of the first.
fn list(first: &mut Blocks, block: u32)
    requires few { length first.old ≤ MAX_LISTED }
    ensures { first.new ≡ take MAX_LISTED (first.old ++ block ∷ []) }
{
    if first.len() < MAX_LISTED {
        first.push(block);
    }
}
