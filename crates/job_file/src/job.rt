//! The jobs of a job file.

ghost use Rattle.std.specs.Prelude.{◌≡◌, ◌≤◌, length};
ghost use Rattle.fc_base.specs.declared.limits.TheConstants.{MAX_JOBS};

use crate::text::PrintableText;
use fc_base::JobRecord;
use std::alloc::Global;
use std::marker::Model;

/// Whether the jobs of a file write, or read and check.
#[derive(Clone, Copy, Debug, PartialEq, Eq)]
pub enum Phase {
    Write,
    Read,
}

/// One job.
pub struct Job {
    /// The name of its section.
    pub name: PrintableText,
    /// fio's `filename`: a label, since job i has file slot i.
    pub filename: Option<PrintableText>,
    pub rec: JobRecord,
    /// Its state is kept at the trigger (fio's `verify_state_save`).
    pub save: bool,
    /// It is checked with a kept state (fio's `verify_state_load`).
    pub load: bool,
    /// A check ends at the first fault (fio's `verify_fatal`).
    pub fatal: bool,
}

/// By hand, so that the crates above need no proof of it.
impl Drop for Job {
    fn drop(self) {
        let Job {
            name: _,
            filename: _,
            rec: _,
            save: _,
            load: _,
            fatal: _,
        } = self;
    }
}

/// Jobs, numbered from 0 in the order of the text.
pub struct Jobs {
    jobs: Vec<Job>,
}

/// By hand, so that the crates above need no proof of it.
impl Drop for Jobs {
    fn drop(self) {
        let Jobs { jobs: _ } = self;
    }
}

impl Model for Jobs {
    ghost use Rattle.std.specs.Prelude.{List};
    ghost use Rattle.job_file.specs.declared.job.Job.{Job};

    ghost Value = { List Job };

    ghost view = { λ j. j.jobs.items };
}

impl Jobs {
    /// The list of these jobs.
    pub fn from_vec(jobs: Vec<Job>) -> Jobs
        ensures { result ≡ jobs.items }
    {
        Jobs { jobs }
    }

    /// The jobs, with the memory that they lie in.
    pub fn into_vec(self) -> Vec<Job>
        ensures { result.items ≡ self }
    {
        let Jobs { jobs } = self;
        jobs
    }

    /// The jobs, borrowed: job i is at index i.
    pub fn as_slice(&self) -> &[Job]
        ensures { result.now ≡ self.now }
    {
        &self.jobs
    }
}

/// A line whose option is accepted and has no effect.
#[derive(Drop)]
pub struct LineNote {
    /// The line, counted from 1.
    pub line: u32,
    /// The option as it is spelled there.
    pub option: PrintableText,
}

/// Notes, in the order of the lines.
pub struct LineNotes {
    notes: Vec<LineNote>,
}

/// By hand, so that the crates above need no proof of it.
impl Drop for LineNotes {
    fn drop(self) {
        let LineNotes { notes: _ } = self;
    }
}

impl Model for LineNotes {
    ghost use Rattle.std.specs.Prelude.{List};
    ghost use Rattle.job_file.specs.declared.job.LineNote.{LineNote};

    ghost Value = { List LineNote };

    ghost view = { λ n. n.notes.items };
}

impl LineNotes {
    /// The list of these notes.
    pub fn from_vec(notes: Vec<LineNote>) -> LineNotes
        ensures { result ≡ notes.items }
    {
        LineNotes { notes }
    }

    /// The notes, with the memory that they lie in.
    pub fn into_vec(self) -> Vec<LineNote>
        ensures { result.items ≡ self }
    {
        let LineNotes { notes } = self;
        notes
    }

    /// The notes, borrowed.
    pub fn as_slice(&self) -> &[LineNote]
        ensures { result.now ≡ self.now }
    {
        &self.notes
    }
}

/// What a job file says.
#[derive(Drop)]
pub struct JobSet {
    pub phase: Phase,
    pub jobs: Jobs,
    pub notes: LineNotes,
    ghost some: { 1 ≤ length jobs },
    ghost few: { length jobs ≤ MAX_JOBS },
}
