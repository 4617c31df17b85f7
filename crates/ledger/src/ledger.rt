//! A ledger: what each block of a place has to hold.

ghost use Rattle.std.specs.Prelude.{◌≡◌, ◌<◌, ◌≤◌, length, IfOk, IsTrue, MatchResult};
ghost use Rattle.std.specs.List.{list_all};
ghost use Rattle.fc_base.specs.declared.limits.TheConstants.{MAX_BLOCKS};
ghost use Rattle.ledger.specs.Possible.{is_possible, is_block_size, is_within_job};
ghost use Rattle.ledger.specs.Ranges.{IsRangedPlace};
ghost use Rattle.ledger.specs.Reading.{IsRead};
ghost use Rattle.ledger.specs.Spelling.{body_of, is_damaged, spelling};
ghost use Rattle.ledger.specs.Places.{Place};
ghost use Rattle.ledger.specs.Places.{empty, entry_of, after_run, after_lost_run, is_checked, verdict_at, with_block_checked};

use crate::entry::Entry;
use crate::fault::LedgerFault;
use crate::reading::{body_of, ledger_in, words_of};
use crate::spelling::{MAGIC, put_entries, put_table, put_words, table_of};
use crate::touched::blocks_touched;
use fc_base::{JobRecord, MAX_BLOCK_SIZE, MAX_BLOCKS};
use recheck::{Expected, Verdict};
use sha1::Sha1;
use std::alloc::{AllocError, Global};
use std::marker::Model;

/// What each block of a place has to hold, by the runs that were ordered there and the checks that were made of it. All
/// blocks have one size. It is linear in the blocks, whatever the number of runs.
#[derive(Drop)]
pub struct Ledger {
    block_size: u32,
    entries: Vec<Entry>,
}

impl Model for Ledger {
    ghost use Rattle.std.specs.Prelude.{◌≤◌, length};
    ghost use Rattle.fc_base.specs.declared.limits.TheConstants.{MAX_BLOCKS};
    ghost use Rattle.ledger.specs.Possible.{is_possible, is_block_size, is_within_job};
    ghost use Rattle.ledger.specs.Ranges.{IsRangedPlace};
    ghost use Rattle.ledger.specs.Reading.{IsRead};
    ghost use Rattle.ledger.specs.Spelling.{is_damaged, spelling};
    ghost use Rattle.ledger.specs.Places.{Place};
    ghost use Rattle.ledger.specs.Places.{Place};

    ghost Value = { Place };

    ghost view = { λ l. record { bs = l.block_size; entries = l.entries.items } };

    ghost invariant = { λ l. length l.entries.items ≤ MAX_BLOCKS };
}

impl Ledger {
    /// A ledger of so many blocks of this size, which asks for nothing.
    pub fn new(alloc: Global, block_size: u32, blocks: u32) -> Result<Ledger, AllocError>
        requires { blocks ≤ MAX_BLOCKS }
        ensures { IfOk result (λ l. l ≡ empty block_size blocks) }
    {
        let mut entries = Vec::with_capacity(alloc, blocks as usize)?;
        for _ in 0..blocks {
            entries.push(Entry::new(alloc))?;
        }
        Ok(Ledger {
            block_size,
            entries,
        })
    }

    /// How many blocks the place has.
    pub fn blocks(&self) -> u32
        ensures value { result ≡ length self.now.entries }
        ensures range { result ≤ MAX_BLOCKS }
    {
        self.entries.len() as u32
    }

    /// Bytes of a block.
    pub fn block_size(&self) -> u32
        ensures { result ≡ self.now.bs }
    {
        self.block_size
    }

    /// Whether the block is checked: its entry asks for something. Another need not be read.
    pub fn wants(&self, block: u32) -> bool
        ensures { result ≡ is_checked self.now block }
    {
        match self.entries.get(block as usize) {
            None => false,
            Some(entry) => entry.asks(),
        }
    }

    /// The entry of a block.
    pub fn entry(&self, block: u32) -> &Entry
        requires { block < length self.now.entries }
        ensures { result.now ≡ entry_of self.now block }
    {
        &self.entries[block as usize]
    }

    /// Another one that asks for the same. An error is that memory ran out.
    pub fn copy(&self, alloc: Global) -> Result<Ledger, AllocError>
        ensures { IfOk result (λ l. l ≡ self.now) }
    {
        let mut entries = Vec::with_capacity(alloc, self.entries.len())?;
        for block in 0..self.blocks() {
            entries.push(self.entry(block).behind_lost_run(alloc, false)?)?;
        }
        Ok(Ledger {
            block_size: self.block_size,
            entries,
        })
    }

    /// The ledger behind the run that a check would go by. Its blocks are to have the ledger's size: a block of another
    /// size holds none of its writes. An error is that memory ran out.
    pub fn after_run(&self, alloc: Global, e: &Expected) -> Result<Ledger, AllocError>
        ensures { IfOk result (λ l. l ≡ after_run e.now self.now) }
    {
        let mut entries = Vec::with_capacity(alloc, self.entries.len())?;
        for block in 0..self.blocks() {
            entries.push(self.entry(block).behind_run(alloc, e, block)?)?;
        }
        Ok(Ledger {
            block_size: self.block_size,
            entries,
        })
    }

    /// The ledger behind a run of this job whose state was lost. An error is that memory ran out.
    pub fn after_lost_run(&self, alloc: Global, rec: &JobRecord) -> Result<Ledger, AllocError>
        ensures { IfOk result (λ l. l ≡ after_lost_run rec.now self.now) }
    {
        let marks = blocks_touched(alloc, rec, self.blocks())?;
        let touched = marks.as_slice();
        let mut entries = Vec::with_capacity(alloc, self.entries.len())?;
        for block in 0..self.blocks() {
            let lost = touched[block as usize];
            entries.push(self.entry(block).behind_lost_run(alloc, lost)?)?;
        }
        Ok(Ledger {
            block_size: self.block_size,
            entries,
        })
    }

    /// The bytes of the ledger: it has one spelling. An error is that memory ran out.
    pub fn encode(&self, alloc: Global) -> Result<Vec<u8>, AllocError>
        ensures spelling { IfOk result (λ bytes. bytes.items ≡ spelling self.now) }
        ensures ranged { IfOk result (λ _. IsRangedPlace self.now) }
    {
        let mut bytes = self.body(alloc)?;
        let digest = Sha1::digest(&bytes);
        bytes.extend_from_slice(&digest)?;
        Ok(bytes)
    }

    /// The bytes before the digest.
    fn body(&self, alloc: Global) -> Result<Vec<u8>, AllocError>
        ensures body { IfOk result (λ bytes. bytes.items ≡ body_of self.now) }
        ensures ranged { IfOk result (λ _. IsRangedPlace self.now) }
    {
        let table = table_of(alloc, &self.entries)?;
        let mut bytes = Vec::new(alloc);
        let blocks = u64::from(self.blocks());
        let head = [
            MAGIC,
            u64::from(self.block_size),
            blocks,
            table.len() as u64,
        ];
        put_words(&mut bytes, &head)?;
        put_table(&mut bytes, table.as_slice())?;
        put_entries(&mut bytes, &table, &self.entries)?;
        Ok(bytes)
    }

    /// The ledger that these bytes spell. Bytes that spell none are refused, and nothing is left of them; any number in
    /// them is held against the bytes that are there before memory is asked for.
    pub fn decode(alloc: Global, bytes: &[u8]) -> Result<Ledger, LedgerFault>
        ensures spelled { IfOk result (λ l. bytes.now ≡ spelling l) }
        ensures possible { IfOk result (λ l. IsTrue (is_possible l)) }
        ensures damaged { IsTrue (is_damaged bytes.now)
            → MatchResult result (λ _. ⊥) (λ fault. fault ≡ LedgerFault.Damaged) }
        ensures read { (place : Place) → IsRangedPlace place → IsTrue (is_possible place)
            → bytes.now ≡ spelling place → IsRead result place }
    {
        let body = body_of(bytes)?;
        let words = words_of(alloc, body)?;
        let ledger = ledger_in(alloc, &words)?;
        if !ledger.is_possible() {
            return Err(LedgerFault::Impossible);
        }
        let again = ledger.body(alloc)?;
        if again.as_slice() != body {
            return Err(LedgerFault::OtherSpelling);
        }
        Ok(ledger)
    }

    /// Whether its blocks have a size that a job may have, and its writes are of jobs of that size. What is known behind
    /// runs of such jobs is (`stays_possible`), and only such a ledger is decoded.
    pub fn is_possible(&self) -> bool
        ensures { result ≡ is_possible self.now }
    {
        is_block_size(self.block_size) && all_is_within_job(&self.entries, self.block_size)
    }

    /// A ledger of these entries.
    pub(crate) fn with_entries(block_size: u32, entries: Vec<Entry>) -> Ledger
        requires { length entries.items ≤ MAX_BLOCKS }
        ensures { result ≡ record { bs = block_size; entries = entries.items } }
    {
        Ledger {
            block_size,
            entries,
        }
    }

    /// Checks a block by its bytes: what it was found to hold it has to hold from now on; at a fault nothing more is
    /// asked of it, so that a loss is told once. It takes no memory.
    pub fn check(&mut self, block: u32, bytes: &[u8]) -> Verdict
        requires { block < length self.old.entries }
        ensures verdict { result ≡ verdict_at self.old block bytes.now }
        ensures left { self.new ≡ with_block_checked self.old block bytes.now }
        ensures range { block < MAX_BLOCKS }
    {
        self.entries[block as usize].check(block, bytes)
    }
}

/// Whether a job may have blocks of this size.
fn is_block_size(bs: u32) -> bool
    ensures { result ≡ is_block_size bs }
{
    512 <= bs && bs <= MAX_BLOCK_SIZE && bs % 512 == 0
}

/// Whether each write of these entries is one of its job, whose blocks have this size.
fn all_is_within_job(entries: &[Entry], block_size: u32) -> bool
    ensures { result ≡ list_all (list_all (is_within_job block_size)) entries.now }
{
    entries.iter().all(|entry| entry.is_within_job(block_size))
}
