//! The lines that `fiocut jobs` prints of a set of jobs.

ghost use Rattle.std.specs.Prelude.{◌≡◌, ◌++◌, IfOk, OnOk, Some, string_bytes};
ghost use Rattle.commands.specs.Lines.{order_word, phase_word, switch_digit, file_label, verify_word, job_line, note_line, count_line, job_lines, note_lines, set_lines};

use fc_base::{JobRecord, Kind, Verify};
use job_file::{Job, JobSet, LineNote, Phase, PrintableText};
use std::alloc::{AllocError, Global};
use std::fmt;

/// All lines of a set of jobs: one for each note, one for each job, and the count.
pub fn lines_of_set(alloc: Global, set: &JobSet) -> Result<String, AllocError>
    ensures { IfOk result (λ lines. string_bytes lines ≡ set_lines set.now) }
{
    let mut lines = String::new(alloc);
    push_notes(&mut lines, set.notes.as_slice())?;
    push_jobs(&mut lines, set.jobs.as_slice())?;
    writeln!(lines, "{}", CountLine(set))?;
    Ok(lines)
}

fn push_notes(lines: &mut String, notes: &[LineNote]) -> Result<(), AllocError>
    ensures { OnOk result (string_bytes lines.new ≡ string_bytes lines.old
        ++ note_lines notes.now) }
{
    for note in notes {
        writeln!(lines, "{}", NoteLine(note))?;
    }
    Ok(())
}

fn push_jobs(lines: &mut String, jobs: &[Job]) -> Result<(), AllocError>
    ensures { OnOk result (string_bytes lines.new ≡ string_bytes lines.old ++ job_lines jobs.now) }
{
    for (number, job) in jobs.iter().enumerate() {
        writeln!(lines, "{}", JobLine { number, job })?;
    }
    Ok(())
}

#[derive(Drop)]
struct CountLine<'a>(&'a JobSet);

impl fmt::Display for CountLine<'_> {
    ghost output = { λ l. Some (count_line l.0.now) };

    fn fmt<W: fmt::Write>(&self, f: &mut fmt::Formatter<W>) -> fmt::Result {
        let jobs = self.0.jobs.as_slice();
        write!(f, "jobs {} phase {}", jobs.len(), phase_word(self.0.phase))
    }
}

#[derive(Drop)]
struct NoteLine<'a>(&'a LineNote);

impl fmt::Display for NoteLine<'_> {
    ghost output = { λ l. Some (note_line l.0.now) };

    fn fmt<W: fmt::Write>(&self, f: &mut fmt::Formatter<W>) -> fmt::Result {
        let option = self.0.option.as_str();
        write!(f, "note {} {option} has no effect here", self.0.line)
    }
}

/// A job with its number in the set.
#[derive(Drop)]
struct JobLine<'a> {
    number: usize,
    job: &'a Job,
}

impl fmt::Display for JobLine<'_> {
    ghost output = { λ l. Some (job_line l.number l.job.now) };

    fn fmt<W: fmt::Write>(&self, f: &mut fmt::Formatter<W>) -> fmt::Result {
        let Job {
            name,
            filename,
            rec,
            save,
            load,
            fatal,
        } = self.job;
        write!(
            f,
            "job {} {} {} blocks={} total={} bs={} seed={} depth={} window={} verify={} save={} load={} fatal={} file={}",
            self.number,
            name.as_str(),
            order_word(rec.kind()),
            rec.blocks(),
            rec.total(),
            rec.bs(),
            rec.seed(),
            rec.depth(),
            rec.window(),
            VerifyWord(*rec),
            switch_digit(*save),
            switch_digit(*load),
            switch_digit(*fatal),
            file_label(filename),
        )
    }
}

/// What a job verifies: `stamp`, or the byte of its pattern.
#[derive(Drop)]
struct VerifyWord(JobRecord);

impl fmt::Display for VerifyWord {
    ghost output = { λ w. Some (verify_word w.0.verify w.0.pattern) };

    fn fmt<W: fmt::Write>(&self, f: &mut fmt::Formatter<W>) -> fmt::Result {
        match self.0.verify() {
            Verify::Stamp => write!(f, "stamp"),
            Verify::Pattern => write!(f, "0x{:02x}", self.0.pattern()),
        }
    }
}

fn order_word(kind: Kind) -> &'static str
    ensures { result.now ≡ order_word kind }
{
    match kind {
        Kind::Sequential => "sequential",
        Kind::RandomMap => "random",
        Kind::RandomFree => "norandommap",
    }
}

fn phase_word(phase: Phase) -> &'static str
    ensures { result.now ≡ phase_word phase }
{
    match phase {
        Phase::Write => "write",
        Phase::Read => "read",
    }
}

fn switch_digit(on: bool) -> u8
    ensures { result ≡ switch_digit on }
{
    if on { 1 } else { 0 }
}

fn file_label(filename: &Option<PrintableText>) -> &str
    ensures { result.now ≡ file_label filename.now }
{
    match filename {
        Some(filename) => filename.as_str(),
        None => "-",
    }
}
