//! What a block has to hold.

ghost use Rattle.std.specs.Prelude.{◌≡◌, [], ◌∷◌, ◌++◌, length, filter, map, if◌then◌else◌, IfOk, OnOk};
ghost use Rattle.std.specs.List.{list_all, list_any};
ghost use Rattle.recheck.specs.Faults.{writes_to};
ghost use Rattle.ledger.specs.Possible.{is_within_job};
ghost use Rattle.ledger.specs.Entries.{is_held, asks, behind_run, verdict, write_of};

use fc_base::{JobRecord, Key, Seq};
use recheck::{Expected, Verdict};
use std::alloc::{AllocError, Global};
use std::marker::Model;
use write_order::{holds_write, writes_fill_their_blocks};

/// A write of a run: by whose key and job it goes, and its number.
#[derive(Clone, Copy, Debug)]
pub struct RunWrite {
    pub key: Key,
    pub job: JobRecord,
    pub seq: Seq,
}

impl RunWrite {
    /// Whether it is one of its job, whose blocks have this size.
    fn is_within_job(&self, block_size: u32) -> bool
        ensures { result ≡ is_within_job block_size self.now }
    {
        let job = self.job.parts();
        self.seq.0 < job.total && job.bs == u64::from(block_size)
    }

    /// Whether a block that holds these bytes holds this write. Bytes of another size are none.
    pub fn is_held(&self, block: u32, bytes: &[u8]) -> bool
        ensures { result ≡ is_held block bytes.now self.now }
    {
        writes_fill_their_blocks();
        if bytes.len() as u64 != self.job.parts().bs {
            return false;
        }
        holds_write(&self.key, &self.job, self.seq, block, bytes)
    }
}

/// The writes of which a block has to hold one. An empty entry asks for nothing.
#[derive(Drop)]
pub struct Entry {
    writes: Vec<RunWrite>,
}

impl Model for Entry {
    ghost use Rattle.std.specs.Prelude.{List};
    ghost use Rattle.ledger.specs.declared.entry.RunWrite.{RunWrite};

    ghost Value = { List RunWrite };

    ghost view = { λ e. e.writes.items };
}

impl Entry {
    /// An entry that asks for nothing. It takes no memory.
    pub fn new(alloc: Global) -> Entry
        ensures { result ≡ [] }
    {
        Entry {
            writes: Vec::new(alloc),
        }
    }

    /// Adds a write.
    pub(crate) fn push(&mut self, write: RunWrite) -> Result<(), AllocError>
        ensures { OnOk result (self.new ≡ self.old ++ write ∷ []) }
    {
        self.writes.push(write)?;
        Ok(())
    }

    /// The writes, the last completed one first.
    pub fn as_slice(&self) -> &[RunWrite]
        ensures { result.now ≡ self.now }
    {
        self.writes.as_slice()
    }

    /// Whether it asks for something.
    pub fn asks(&self) -> bool
        ensures { result ≡ asks self.now }
    {
        !self.writes.is_empty()
    }

    /// Whether each write is one of its job, whose blocks have this size.
    pub(crate) fn is_within_job(&self, block_size: u32) -> bool
        ensures { result ≡ list_all (is_within_job block_size) self.now }
    {
        self.writes
            .iter()
            .all(|write| write.is_within_job(block_size))
    }

    /// Whether a block that holds these bytes holds one of the writes.
    pub fn is_met(&self, block: u32, bytes: &[u8]) -> bool
        ensures { result ≡ list_any (is_held block bytes.now) self.now }
    {
        self.writes.iter().any(|write| write.is_held(block, bytes))
    }

    /// Keeps the writes that a block with these bytes holds. It takes no memory.
    pub fn keep_held(&mut self, block: u32, bytes: &[u8])
        ensures { self.new ≡ filter (is_held block bytes.now) self.old }
    {
        self.writes.retain(|write| write.is_held(block, bytes));
    }

    /// Checks the block by its bytes, and keeps those of the writes that it holds. It takes no memory.
    pub fn check(&mut self, block: u32, bytes: &[u8]) -> Verdict
        ensures verdict { result ≡ verdict block bytes.now self.old }
        ensures left { self.new ≡ filter (is_held block bytes.now) self.old }
    {
        if !self.asks() {
            return Verdict::Skipped;
        }
        self.keep_held(block, bytes);
        if self.asks() {
            Verdict::Good
        } else {
            Verdict::Fault
        }
    }

    /// The entry behind the run that a check would go by.
    pub fn behind_run(&self, alloc: Global, e: &Expected, block: u32) -> Result<Entry, AllocError>
        ensures { IfOk result (λ entry. entry ≡ behind_run e.now block self.now) }
    {
        let mut entry = Entry::new(alloc);
        match e.last_write(block) {
            Some(seq) => entry.writes.push(RunWrite {
                key: e.key(),
                job: e.rec(),
                seq,
            })?,
            None if !self.asks() => return Ok(entry),
            None => entry.writes.extend_from_slice(self.writes.as_slice())?,
        }
        entry.add_in_flight(e, block)?;
        Ok(entry)
    }

    /// The entry behind a run whose state was lost, which may have written the block or has no write to it.
    pub fn behind_lost_run(&self, alloc: Global, written: bool) -> Result<Entry, AllocError>
        ensures { IfOk result (λ entry. entry ≡ (if written then [] else self.now)) }
    {
        let mut entry = Entry::new(alloc);
        if written {
            return Ok(entry);
        }
        entry.writes.extend_from_slice(self.writes.as_slice())?;
        Ok(entry)
    }

    /// Adds the writes that the run has in flight to the block.
    fn add_in_flight(&mut self, e: &Expected, block: u32) -> Result<(), AllocError>
        ensures { OnOk result
            (self.new ≡ self.old ++ map (write_of e.now) (writes_to block e.now.in_flight)) }
    {
        for write in e.in_flight() {
            if write.block == block {
                self.writes.push(RunWrite {
                    key: e.key(),
                    job: e.rec(),
                    seq: write.seq,
                })?;
            }
        }
        Ok(())
    }
}
