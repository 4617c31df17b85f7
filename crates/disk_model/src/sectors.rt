//! The sectors of a file in memory.

ghost use Rattle.std.specs.Prelude.{◌≡◌, ◌+◌, ◌*◌, ◌/◌, ◌%◌, ◌^◌, ◌<◌, ◌≤◌, length, OnOk, OnErr};
ghost use Rattle.disk_model.specs.File.{zeros, sectors, landed, put};
ghost use Rattle.disk_model.specs.Picks.{is_picked};

use crate::picks::Picks;
use crate::run::{MAX_SECTORS, RUN_SECTORS, Run, SECTOR};
use crate::singles::Singles;
use fc_base::MAX_BLOCK_SIZE;
use std::alloc::{AllocError, Global};
use std::collections::BTreeMap;

/// Sectors by their numbers. They lie in runs where bytes were written, and else by themselves.
#[derive(Drop)]
pub(crate) struct Sectors {
    runs: BTreeMap<u64, Run>,
    singles: Singles,
}

impl Sectors {
    ghost use Rattle.disk_model.specs.Sectors.{content_of, HasContent, HasRun, KeepsRuns};

    /// All sectors hold zeros.
    pub(crate) fn new(alloc: Global) -> Self
        ensures { content_of result ≡ (λ _. zeros) }
    {
        Sectors {
            runs: BTreeMap::new(alloc),
            singles: Singles::new(alloc),
        }
    }

    /// Makes a run, where there is none. It takes over the sectors that lie by themselves.
    fn make_run(&mut self, run: u64) -> Result<(), AllocError>
        requires { run < 2 ^ 57 }
        ensures made { OnOk result (HasRun self.new run) }
        ensures others { KeepsRuns self.old self.new }
        ensures content { HasContent self.new (content_of self.old) }
    {
        if !self.runs.contains_key(&run) {
            self.runs.insert(run, self.singles.gather(run)?)?;
            self.singles.forget(run);
        }
        Ok(())
    }

    /// Lands bytes in one run.
    fn land_in_run(&mut self, first: u64, bytes: &[u8], picks: Picks)
        requires run { HasRun self.old (first / 128) }
        requires within { first % 128 + length bytes.now / 512 ≤ 128 }
        requires whole { length bytes.now % 512 ≡ 0 }
        ensures runs { KeepsRuns self.old self.new }
        ensures content { HasContent self.new
            (landed (is_picked picks) first bytes.now (content_of self.old)) }
    {
        if let Some(run) = self.runs.get_mut(&(first / 128)) {
            run.land((first % 128) as usize, bytes, picks);
        }
    }

    /// Reads sectors of one run.
    fn read_in_run(&self, first: u64, bytes: &mut [u8])
        requires reach { first + length bytes.old / 512 ≤ MAX_SECTORS }
        requires within { first % 128 + length bytes.old / 512 ≤ 128 }
        requires whole { length bytes.old % 512 ≡ 0 }
        ensures { bytes.new ≡ sectors (content_of self.now) first (length bytes.old / 512) }
    {
        match self.runs.get(&(first / 128)) {
            Some(run) => run.read((first % 128) as usize, bytes),
            None => self.singles.read(first, bytes),
        }
    }

    /// Makes the one or two runs that some bytes lie in.
    fn make_room(&mut self, first: u64, front: usize, len: usize) -> Result<(), AllocError>
        requires { first < MAX_SECTORS }
        ensures made { OnOk result (HasRun self.new (first / 128)) }
        ensures second { OnOk result (front < len → HasRun self.new (first / 128 + 1)) }
        ensures content { HasContent self.new (content_of self.old) }
    {
        self.make_run(first / 128)?;
        if front < len {
            self.make_run(first / 128 + 1)?;
        }
        Ok(())
    }

    /// Lands the picked sectors of some bytes. Where none is picked no memory is taken.
    pub(crate) fn land(&mut self, first: u64, bytes: &[u8], picks: Picks) -> Result<(), AllocError>
        requires reach { first + length bytes.now / 512 ≤ MAX_SECTORS }
        requires least { 512 ≤ length bytes.now }
        requires most { length bytes.now ≤ MAX_BLOCK_SIZE }
        requires whole { length bytes.now % 512 ≡ 0 }
        ensures ok { OnOk result
            (HasContent self.new (landed (is_picked picks) first bytes.now (content_of self.old))) }
        ensures err { OnErr result (HasContent self.new (content_of self.old)) }
    {
        if !picks.has_any(bytes.len() / SECTOR) {
            return Ok(());
        }
        let front = front_len(first, bytes.len());
        self.make_room(first, front, bytes.len())?;
        self.land_in_run(first, &bytes[..front], picks);
        if front < bytes.len() {
            self.land_in_run(
                128 * (first / 128 + 1),
                &bytes[front..],
                picks.skip(front / SECTOR),
            );
        }
        Ok(())
    }

    /// Reads sectors from `first` on.
    pub(crate) fn read(&self, first: u64, bytes: &mut [u8])
        requires reach { first + length bytes.old / 512 ≤ MAX_SECTORS }
        requires least { 512 ≤ length bytes.old }
        requires most { length bytes.old ≤ MAX_BLOCK_SIZE }
        requires whole { length bytes.old % 512 ≡ 0 }
        ensures { bytes.new ≡ sectors (content_of self.now) first (length bytes.old / 512) }
    {
        let front = front_len(first, bytes.len());
        self.read_in_run(first, &mut bytes[..front]);
        if front < bytes.len() {
            self.read_in_run(128 * (first / 128 + 1), &mut bytes[front..]);
        }
    }

    /// Replaces one sector.
    pub(crate) fn rot(&mut self, sector: u64, bytes: [u8; 512]) -> Result<(), AllocError>
        ensures ok { OnOk result (HasContent self.new (put sector bytes (content_of self.old))) }
        ensures err { OnErr result (HasContent self.new (content_of self.old)) }
    {
        if self.runs.contains_key(&(sector / 128)) {
            self.land_in_run(sector, bytes.as_slice(), Picks::All);
            return Ok(());
        }
        self.singles.replace(sector, bytes)
    }
}

/// How many of the bytes that begin at a sector lie in that sector's run.
fn front_len(first: u64, len: usize) -> usize
    requires most { len ≤ MAX_BLOCK_SIZE }
    requires whole { len % 512 ≡ 0 }
    ensures most { result ≤ len }
    ensures whole { result % 512 ≡ 0 }
    ensures within { first % 128 + result / 512 ≤ 128 }
    ensures rest { result < len → first + result / 512 ≡ 128 * (first / 128 + 1) }
    ensures least { 512 ≤ len → 512 ≤ result }
{
    let here = (RUN_SECTORS - (first % 128) as usize) * SECTOR;
    here.min(len)
}
