//! What a job does, within the limits of the product.

ghost use Rattle.std.specs.Prelude.{◌≡◌, ◌≤◌, ◌%◌, IsTrue, Some, None, if◌then◌else◌};

use crate::limits::{MAX_BLOCK_SIZE, MAX_BLOCKS, MAX_DEPTH, MAX_WINDOW, MAX_WRITES};
use std::marker::Model;

/// In which order a job writes its blocks (fio's `rw` and `norandommap`).
#[derive(Clone, Copy, Debug, PartialEq, Eq)]
pub enum Kind {
    /// Block after block, from the first again after the last.
    Sequential,
    /// At random, and in each pass every block once.
    RandomMap,
    /// At random, with no account of which blocks were written.
    RandomFree,
}

/// What a job writes into a block (fio's `verify`).
#[derive(Clone, Copy, Debug, PartialEq, Eq)]
pub enum Verify {
    /// Which write it is, so that no two writes have the same bytes.
    Stamp,
    /// One byte, over and over.
    Pattern,
}

/// The settings of a job, with no limits: what a record is made of.
#[derive(Clone, Copy, Debug, PartialEq, Eq)]
pub struct JobParts {
    pub kind: Kind,
    pub verify: Verify,
    /// The byte of [`Verify::Pattern`], and 0 under [`Verify::Stamp`].
    pub pattern: u8,
    /// Bytes of a block: 512 to 65,536, a multiple of 512.
    pub bs: u64,
    /// Blocks of the region: 1 to 65,536.
    pub blocks: u64,
    /// Writes in all: 1 to 1,000,000.
    pub total: u64,
    /// Where the generator of random orders starts.
    pub seed: u64,
    /// How many writes may be in flight: 1 to 64.
    pub depth: u64,
    /// How far writes may run ahead of one that isn't done: from depth to 256.
    pub window: u64,
}

/// The settings of a job, within the limits.
#[derive(Clone, Copy, Debug, PartialEq, Eq)]
pub struct JobRecord {
    parts: JobParts,
}

impl Model for JobRecord {
    ghost use Rattle.std.specs.Prelude.{IsTrue};
    ghost use Rattle.fc_base.specs.declared.record.JobParts.{JobParts};
    ghost use Rattle.fc_base.specs.JobParts.{is_within_limits};

    ghost Value = { JobParts };

    ghost view = { λ r. r.parts };

    ghost invariant = { λ r. IsTrue (is_within_limits r.parts) };

    ghost inverse = { λ p. record { parts = p } };
}

impl JobParts {
    ghost use Rattle.fc_base.specs.JobParts.{has_block_size, has_region, has_queue, has_pattern, is_within_limits};

    fn has_block_size(&self) -> bool
        ensures { result ≡ has_block_size self.now }
    {
        512 <= self.bs && self.bs <= u64::from(MAX_BLOCK_SIZE) && self.bs % 512 == 0
    }

    fn has_region(&self) -> bool
        ensures { result ≡ has_region self.now }
    {
        (1..=u64::from(MAX_BLOCKS)).contains(&self.blocks) && (1..=MAX_WRITES).contains(&self.total)
    }

    fn has_queue(&self) -> bool
        ensures { result ≡ has_queue self.now }
    {
        (1..=u64::from(MAX_DEPTH)).contains(&self.depth)
            && (self.depth..=u64::from(MAX_WINDOW)).contains(&self.window)
    }

    fn has_pattern(&self) -> bool
        ensures { result ≡ has_pattern self.now }
    {
        match self.verify {
            Verify::Stamp => self.pattern == 0,
            Verify::Pattern => true,
        }
    }

    /// Whether all settings are within the limits, so that a record can be made of them.
    pub fn is_within_limits(&self) -> bool
        ensures { result ≡ is_within_limits self.now }
    {
        self.has_block_size() && self.has_region() && self.has_queue() && self.has_pattern()
    }
}

impl JobRecord {
    ghost use Rattle.fc_base.specs.JobParts.{is_within_limits};

    /// The record of these settings, or `None` where one of them is past its limit.
    pub fn make(parts: JobParts) -> Option<JobRecord>
        ensures { result ≡ (if is_within_limits parts then Some parts else None) }
    {
        if parts.is_within_limits() {
            Some(JobRecord { parts })
        } else {
            None
        }
    }

    /// All settings, as they went in.
    pub fn parts(&self) -> JobParts
        ensures value { result ≡ self.now }
        ensures limits { IsTrue (is_within_limits result) }
    {
        self.parts
    }

    /// The order in which blocks are written.
    pub fn kind(&self) -> Kind
        ensures { result ≡ self.now.kind }
    {
        self.parts.kind
    }

    /// What is written into a block.
    pub fn verify(&self) -> Verify
        ensures { result ≡ self.now.verify }
    {
        self.parts.verify
    }

    /// The byte of a pattern, 0 where the job writes stamps.
    pub fn pattern(&self) -> u8
        ensures { result ≡ self.now.pattern }
    {
        self.parts.pattern
    }

    /// Bytes of a block.
    pub fn bs(&self) -> u32
        ensures value { result ≡ self.now.bs }
        ensures range { (512 ≤ result) × (result ≤ MAX_BLOCK_SIZE) × (result % 512 ≡ 0) }
    {
        self.parts.bs as u32
    }

    /// Blocks of the region.
    pub fn blocks(&self) -> u32
        ensures value { result ≡ self.now.blocks }
        ensures range { (1 ≤ result) × (result ≤ MAX_BLOCKS) }
    {
        self.parts.blocks as u32
    }

    /// Writes in all.
    pub fn total(&self) -> u64
        ensures value { result ≡ self.now.total }
        ensures range { (1 ≤ result) × (result ≤ MAX_WRITES) }
    {
        self.parts.total
    }

    /// Where the generator of random orders starts.
    pub fn seed(&self) -> u64
        ensures { result ≡ self.now.seed }
    {
        self.parts.seed
    }

    /// How many writes may be in flight.
    pub fn depth(&self) -> u32
        ensures value { result ≡ self.now.depth }
        ensures range { (1 ≤ result) × (result ≤ MAX_DEPTH) }
    {
        self.parts.depth as u32
    }

    /// How far writes may run ahead of one that isn't done.
    pub fn window(&self) -> u32
        ensures value { result ≡ self.now.window }
        ensures range { (self.now.depth ≤ result) × (result ≤ MAX_WINDOW) }
    {
        self.parts.window as u32
    }
}
