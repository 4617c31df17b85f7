//! What the blocks of a job are checked against.

ghost use Rattle.std.specs.Prelude.{◌≡◌, ◌≤◌, ◌<◌, ◌==◌, ◌&&◌, IfOk, length, None, false};
ghost use Rattle.std.specs.List.{list_any};
ghost use Rattle.std.specs.Option.{option_copied};
ghost use Rattle.recheck.specs.Expected.{counts, issued_in, expected_by};
ghost use Rattle.recheck.specs.Faults.{is_checked, is_write, last_write, verdict, writes_to};

use crate::last_write::LastWrite;
use crate::verdict::Verdict;
use fc_base::{JobRecord, Key, MAX_BLOCKS, MAX_DEPTH, Seq};
use std::alloc::{AllocError, Global};
use std::marker::Model;
use verify_state::VerifyState;
use write_order::{Order, holds_write};

/// A write and its block.
#[derive(Clone, Copy, Debug)]
pub struct BlockWrites {
    pub seq: Seq,
    pub block: u32,
}

/// What the blocks of a job are checked against: for each of them the last completed write to it,
/// and beside that the writes in flight. A [`Recheck`](crate::Recheck) has one.
#[derive(Drop)]
pub struct Expected {
    key: Key,
    rec: JobRecord,
    last: Vec<LastWrite>,
    in_flight: Vec<BlockWrites>,
}

impl Model for Expected {
    ghost use Rattle.std.specs.Prelude.{◌≡◌, ◌≤◌, length};
    ghost use Rattle.fc_base.specs.declared.limits.TheConstants.{MAX_BLOCKS};
    ghost use Rattle.recheck.specs.Expected.{Expected};

    ghost Value = { Expected };

    ghost view = { λ e. record {
      key = e.key;
      job = e.rec;
      last = e.last.items;
      in_flight = e.in_flight.items;
    } };

    ghost invariant = { λ e. (length e.last.items ≡ e.rec.blocks) × (e.rec.blocks ≤ MAX_BLOCKS) };
}

impl Expected {
    /// What the blocks are checked against by this state, or in a full pass. It goes once over the
    /// writes of the job, and takes 4 bytes for each block and a list of the writes in flight.
    pub fn new(
        alloc: Global,
        key: Key,
        rec: &JobRecord,
        state: Option<&VerifyState>,
    ) -> Result<Expected, AllocError>
        requires { issued_in rec.now (option_copied state) ≤ rec.now.total }
        ensures { IfOk result (λ e. e ≡ expected_by key rec.now (option_copied state.entry)) }
    {
        let mut last = vec![in alloc; LastWrite::none(); rec.blocks() as usize]?;
        let mut in_flight = Vec::with_capacity(alloc, MAX_DEPTH as usize)?;
        let mut order = Order::new(alloc, rec)?;
        for k in 0..issued_in(rec, state) {
            let Some(block) = order.peek() else {
                unreachable!()
            };
            let seq = Seq(k);
            if counts(state, seq) {
                last[block as usize] = LastWrite::of(seq);
            } else {
                in_flight.push(BlockWrites { seq, block })?;
            }
            order.advance();
        }
        Ok(Expected {
            key,
            rec: *rec,
            last,
            in_flight,
        })
    }

    /// The job that is checked.
    pub fn rec(&self) -> JobRecord
        ensures { result ≡ self.now.job }
    {
        self.rec
    }

    /// Whether some write to the block has completed. The job writes no block past its last one.
    pub fn is_checked(&self, block: u32) -> bool
        ensures value { result ≡ is_checked self.now block }
        ensures past { self.now.job.blocks ≤ block → result ≡ false }
    {
        self.last_write(block).is_some()
    }

    /// Whose blocks they are.
    pub fn key(&self) -> Key
        ensures { result ≡ self.now.key }
    {
        self.key
    }

    /// The writes in flight when the state was taken, ascending, each with its block.
    pub fn in_flight(&self) -> &[BlockWrites]
        ensures { result.now ≡ self.now.in_flight }
    {
        &self.in_flight
    }

    /// What is found at a block that holds these bytes.
    pub fn verdict(&self, block: u32, bytes: &[u8]) -> Verdict
        requires block { block < self.now.job.blocks }
        requires bytes { length bytes.now ≡ self.now.job.bs }
        ensures value { result ≡ verdict self.now block bytes.now }
        ensures range { block < MAX_BLOCKS }
    {
        match self.last_write(block) {
            None => Verdict::Skipped,
            Some(seq) if self.is_write(seq, block, bytes) || self.is_in_flight(block, bytes) =>
                Verdict::Good,
            Some(_) => Verdict::Fault,
        }
    }

    /// The last completed write to a block, if there is one.
    pub fn last_write(&self, block: u32) -> Option<Seq>
        ensures value { result ≡ last_write self.now block }
        ensures past { self.now.job.blocks ≤ block → result ≡ None }
        ensures blocks { self.now.job.blocks ≤ MAX_BLOCKS }
    {
        match self.last.get(block as usize) {
            None => None,
            Some(write) => write.seq(),
        }
    }

    /// Whether the bytes are those of this write.
    fn is_write(&self, seq: Seq, block: u32, bytes: &[u8]) -> bool
        requires { length bytes.now ≡ self.now.job.bs }
        ensures { result ≡ is_write self.now block bytes.now seq }
    {
        holds_write(&self.key, &self.rec, seq, block, bytes)
    }

    /// Whether the bytes are those of a write in flight to the block.
    fn is_in_flight(&self, block: u32, bytes: &[u8]) -> bool
        requires { length bytes.now ≡ self.now.job.bs }
        ensures { result ≡ list_any (is_write self.now block bytes.now)
            (writes_to block self.now.in_flight) }
    {
        for write in &self.in_flight {
            if write.block == block && self.is_write(write.seq, block, bytes) {
                return true;
            }
        }
        false
    }
}

/// How many writes were issued.
fn issued_in(rec: &JobRecord, state: Option<&VerifyState>) -> u64
    ensures { result ≡ issued_in rec.now (option_copied state.entry) }
{
    match state {
        None => rec.total(),
        Some(state) => state.issued(),
    }
}

/// Whether a write counts as completed.
fn counts(state: Option<&VerifyState>, seq: Seq) -> bool
    ensures { result ≡ counts (option_copied state.entry) seq }
{
    match state {
        None => true,
        Some(state) => state.counts(seq),
    }
}
