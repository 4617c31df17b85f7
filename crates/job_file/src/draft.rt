//! A job as its text gives it, before its limits are looked at.

ghost use Rattle.std.specs.Prelude.{◌≡◌, ◌/◌};
ghost use Rattle.job_file.specs.Draft.{read_write_of, writes, kind_of, block_size_of, size_of, io_size_of, total_of, seed_of, depth_of, window_of, verify_of, pattern_under, lacks_pattern_under, parts_of};

use crate::fault::JobFault;
use crate::job::Job;
use crate::option::ReadWrite;
use crate::settings::Settings;
use crate::text::{Name, PrintableText};
use fc_base::{JobNo, JobParts, JobRecord, Kind, Verify};
use std::alloc::{AllocError, Global};

/// The name of a job's section, and the options that hold for it.
#[derive(Drop)]
pub(crate) struct Draft<'a> {
    pub(crate) name: Name<'a>,
    pub(crate) settings: Settings<'a>,
}

impl<'a> Settings<'a> {
    fn read_write(&self) -> ReadWrite
        ensures { result ≡ read_write_of self.now }
    {
        self.read_write.unwrap_or(ReadWrite::Read)
    }

    /// Whether the job writes.
    pub(crate) fn writes(&self) -> bool
        ensures { result ≡ writes self.now }
    {
        match self.read_write() {
            ReadWrite::Read | ReadWrite::RandRead => false,
            ReadWrite::Write | ReadWrite::RandWrite => true,
        }
    }

    fn kind(&self) -> Kind
        ensures { result ≡ kind_of self.now }
    {
        let no_map = self.no_random_map.unwrap_or(false);
        match self.read_write() {
            ReadWrite::Read | ReadWrite::Write => Kind::Sequential,
            ReadWrite::RandRead | ReadWrite::RandWrite if no_map => Kind::RandomFree,
            ReadWrite::RandRead | ReadWrite::RandWrite => Kind::RandomMap,
        }
    }

    fn block_size(&self) -> u64
        ensures { result ≡ block_size_of self.now }
    {
        self.block_size.unwrap_or(4096)
    }

    /// The bytes of the job's region, 0 where it has no size.
    fn size(&self) -> u64
        ensures { result ≡ size_of self.now }
    {
        self.size.unwrap_or(0)
    }

    fn io_size(&self) -> u64
        ensures { result ≡ io_size_of self.now }
    {
        match self.io_size.unwrap_or(0) {
            0 => self.size(),
            bytes => bytes,
        }
    }

    fn total(&self) -> u64
        ensures { result ≡ total_of self.now }
    {
        let whole = whole_blocks(self.io_size(), self.block_size());
        match self.number_ios.unwrap_or(0) {
            0 => whole,
            asked => whole.min(asked),
        }
    }

    fn seed(&self, number: JobNo) -> u64
        ensures { result ≡ seed_of number self.now }
    {
        let seed = self.rand_seed.unwrap_or(1);
        seed.wrapping_add(u64::from(number.0))
    }

    fn depth(&self) -> u64
        ensures { result ≡ depth_of self.now }
    {
        self.io_depth.unwrap_or(1)
    }

    fn window(&self) -> u64
        ensures { result ≡ window_of self.now }
    {
        self.x_window.unwrap_or(self.depth())
    }

    fn verify(&self) -> Verify
        ensures { result ≡ verify_of self.now }
    {
        self.verify.unwrap_or(Verify::Stamp)
    }

    fn pattern(&self) -> u8
        ensures { result ≡ pattern_under (verify_of self.now) self.now.verify_pattern }
    {
        match self.verify() {
            Verify::Stamp => 0,
            Verify::Pattern => self.verify_pattern.unwrap_or(0),
        }
    }

    fn lacks_pattern(&self) -> bool
        ensures { result ≡ lacks_pattern_under (verify_of self.now) self.now.verify_pattern }
    {
        match self.verify() {
            Verify::Stamp => false,
            Verify::Pattern => self.verify_pattern.is_none(),
        }
    }

    /// What the job of this number does.
    fn parts(&self, number: JobNo) -> JobParts
        ensures { result ≡ parts_of number self.now }
    {
        JobParts {
            kind: self.kind(),
            verify: self.verify(),
            pattern: self.pattern(),
            bs: self.block_size(),
            blocks: whole_blocks(self.size(), self.block_size()),
            total: self.total(),
            seed: self.seed(number),
            depth: self.depth(),
            window: self.window(),
        }
    }
}

/// How many blocks the bytes have; none where a block has no bytes.
fn whole_blocks(bytes: u64, block_size: u64) -> u64
    ensures { result ≡ bytes / block_size }
{
    bytes.checked_div(block_size).unwrap_or(0)
}

impl<'a> Draft<'a> {
    ghost use Rattle.std.specs.Prelude.{IfOk};
    ghost use Rattle.job_file.specs.Draft.{copies_of, draft_faults, job_of};
    ghost use Rattle.job_file.specs.Fault.{Gives};

    /// How many jobs the section makes.
    pub(crate) fn copies(&self) -> u64
        ensures { result ≡ copies_of self.now }
    {
        self.settings.num_jobs.unwrap_or(1)
    }

    /// The job of this number, or what it lacks.
    pub(crate) fn job(&self, alloc: Global, number: JobNo) -> Result<Job, JobFault>
        ensures { Gives (λ job. job) result (draft_faults number self.now)
            (job_of number self.now) }
    {
        let rec = self.rec(number)?;
        let settings = &self.settings;
        Ok(Job {
            name: self.name.copied(alloc)?,
            filename: self.filename(alloc)?,
            rec,
            save: settings.verify_state_save.unwrap_or(true),
            load: settings.verify_state_load.unwrap_or(false),
            fatal: settings.verify_fatal.unwrap_or(false),
        })
    }

    fn rec(&self, number: JobNo) -> Result<JobRecord, JobFault>
        ensures { Gives (λ rec. rec) result (draft_faults number self.now)
            (parts_of number self.now.settings) }
    {
        if self.settings.size() == 0 {
            return Err(JobFault::NoSize(number));
        }
        if self.settings.lacks_pattern() {
            return Err(JobFault::OutOfLimits(number));
        }
        match JobRecord::make(self.settings.parts(number)) {
            Some(rec) => Ok(rec),
            None => Err(JobFault::OutOfLimits(number)),
        }
    }

    fn filename(&self, alloc: Global) -> Result<Option<PrintableText>, AllocError>
        ensures { IfOk result (λ filename. filename ≡ self.now.settings.filename) }
    {
        match &self.settings.filename {
            Some(name) => Ok(Some(name.copied(alloc)?)),
            None => Ok(None),
        }
    }
}
