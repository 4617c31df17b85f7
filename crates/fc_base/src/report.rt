//! What a check of a disk found.

ghost use Rattle.std.specs.Prelude.{◌≡◌, ◌<◌, ◌≤◌, IsTrue, Ok, Err, if◌then◌else◌, [], ◌∷◌, ◌++◌, length};
ghost use Rattle.std.specs.List.{list_all};
ghost use Rattle.fc_base.specs.Ascending.{ascends, is_block};

use crate::limits::{MAX_BLOCKS, MAX_LISTED};
use std::marker::Model;

/// A list of at most [`MAX_LISTED`] blocks. It is a plain value, and takes no memory.
#[derive(Clone, Copy, Debug)]
pub struct Blocks {
    len: usize,
    blocks: [u32; MAX_LISTED],
}

impl Model for Blocks {
    ghost use Rattle.std.specs.Prelude.{ℕ, List};

    ghost Value = { List ℕ };

    ghost use Rattle.fc_base.specs.Blocks.{listed, kept, kept_again, HasZerosBehind};

    ghost view = { listed };

    ghost invariant = { HasZerosBehind };

    ghost inverse = { kept };

    ghost inverse_ok = { kept_again };
}

impl Blocks {
    /// No block.
    pub fn new() -> Blocks
        ensures { result ≡ [] }
    {
        Blocks {
            len: 0,
            blocks: [0; MAX_LISTED],
        }
    }

    /// Adds a block behind the others, of which there have to be fewer than [`MAX_LISTED`].
    pub fn push(&mut self, block: u32)
        requires { length self.old < MAX_LISTED }
        ensures { self.new ≡ self.old ++ block ∷ [] }
    {
        self.blocks[self.len] = block;
        self.len += 1;
    }

    /// How many there are.
    pub fn len(&self) -> usize
        ensures value { result ≡ length self.now }
        ensures range { result ≤ MAX_LISTED }
    {
        self.len
    }

    /// The blocks, in their order.
    pub fn as_slice(&self) -> &[u32]
        ensures value { result.now ≡ self.now }
        ensures range { length result.now ≤ MAX_LISTED }
    {
        &self.blocks[..self.len]
    }
}

/// How a check ended.
#[derive(Clone, Copy, Debug, PartialEq, Eq)]
pub enum ReportEnd {
    /// Every block was looked at.
    Whole,
    /// At the first fault, since the job asks for that (fio's `verify_fatal`).
    AtFault,
    /// At this block, which could not be read.
    ReadFault(u32),
}

/// What a report says, with no ranges: what it is made of.
#[derive(Clone, Copy, Debug)]
pub struct ReportParts {
    /// How many blocks were checked.
    pub checked: u32,
    /// How many of them were faulty.
    pub faults: u32,
    /// The first faulty blocks, ascending: all of them, or [`MAX_LISTED`].
    pub first: Blocks,
    pub end: ReportEnd,
}

/// A report whose numbers fit together. It is a plain value: it is kept, sent and told without
/// memory.
#[derive(Clone, Copy, Debug)]
pub struct CheckReport {
    parts: ReportParts,
}

impl Model for CheckReport {
    ghost use Rattle.std.specs.Prelude.{IsTrue};
    ghost use Rattle.fc_base.specs.declared.report.ReportParts.{ReportParts};
    ghost use Rattle.fc_base.specs.Report.{is_report};

    ghost Value = { ReportParts };

    ghost view = { λ r. r.parts };

    ghost invariant = { λ r. IsTrue (is_report r.parts) };

    ghost inverse = { λ p. record { parts = p } };
}

fn are_blocks(blocks: &[u32]) -> bool
    ensures { result ≡ list_all is_block blocks.now }
{
    blocks.iter().all(|b| *b < MAX_BLOCKS)
}

fn is_ascending(blocks: &[u32]) -> bool
    ensures { result ≡ ascends blocks.now }
{
    match blocks {
        [] => true,
        [_] => true,
        [first, rest @ ..] => *first < rest[0] && is_ascending(rest),
    }
}

impl ReportParts {
    ghost use Rattle.fc_base.specs.Report.{has_counts, has_list, has_end, is_report};

    fn has_counts(&self) -> bool
        ensures { result ≡ has_counts self.now }
    {
        self.faults <= self.checked && self.checked <= MAX_BLOCKS
    }

    fn has_list(&self) -> bool
        ensures { result ≡ has_list self.now }
    {
        let first = self.first.as_slice();
        first.len() == self.faults.min(MAX_LISTED as u32) as usize
            && are_blocks(first)
            && is_ascending(first)
    }

    fn has_end(&self) -> bool
        ensures { result ≡ has_end self.now }
    {
        match self.end {
            ReportEnd::Whole => true,
            ReportEnd::AtFault => self.faults == 1,
            ReportEnd::ReadFault(block) => block < MAX_BLOCKS,
        }
    }

    /// Whether the numbers fit together, so that a report can be made of them.
    pub fn is_report(&self) -> bool
        ensures { result ≡ is_report self.now }
    {
        self.has_counts() && self.has_list() && self.has_end()
    }
}

impl CheckReport {
    ghost use Rattle.fc_base.specs.Report.{is_report};

    /// The report of these numbers; where they don't fit together, they come back.
    pub fn make(parts: ReportParts) -> Result<CheckReport, ReportParts>
        ensures { result ≡ (if is_report parts then Ok parts else Err parts) }
    {
        if parts.is_report() {
            Ok(CheckReport { parts })
        } else {
            Err(parts)
        }
    }

    /// How many blocks were checked.
    pub fn checked(&self) -> u32
        ensures value { result ≡ self.now.checked }
        ensures range { result ≤ MAX_BLOCKS }
    {
        self.parts.checked
    }

    /// How many of them were faulty.
    pub fn faults(&self) -> u32
        ensures value { result ≡ self.now.faults }
        ensures range { result ≤ self.now.checked }
    {
        self.parts.faults
    }

    /// The first faulty blocks, ascending: all of them, or [`MAX_LISTED`].
    pub fn first(&self) -> &[u32]
        ensures value { result.now ≡ self.now.first }
        ensures range { length result.now ≤ MAX_LISTED }
    {
        self.parts.first.as_slice()
    }

    /// How the check ended.
    pub fn end(&self) -> ReportEnd
        ensures { result ≡ self.now.end }
    {
        self.parts.end
    }

    /// The numbers that the report is made of.
    pub fn parts(&self) -> ReportParts
        ensures value { result ≡ self.now }
        ensures ranges { IsTrue (is_report result) }
    {
        self.parts
    }
}
