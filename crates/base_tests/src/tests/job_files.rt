//! What no clause shows: that the definitions are fio's rules, and that a text with memory to spare
//! is answered by its set.

mod grammar;
mod options;
mod sets;

use fc_base::{JobNo, JobParts};
use job_file::{Job, JobFault, Jobs, LineNote, LineNotes, Phase, PrintableText, parse};
use std::alloc::{AllocError, Global};
use std::process::Abort;
use std::test::Fail;

/// What `parse` answers to a text: a line for each note and each job, or the fault.
fn answer(alloc: Global, text: &[u8]) -> Result<String, AllocError> {
    match parse(alloc, text) {
        Ok(set) => lines_of(alloc, set.notes.as_slice(), set.jobs.as_slice()),
        Err(fault) => format!(in alloc; "{fault:?}"),
    }
}

fn lines_of(alloc: Global, notes: &[LineNote], jobs: &[Job]) -> Result<String, AllocError> {
    let mut lines = String::new(alloc);
    for note in notes {
        writeln!(lines, "{} {}", note.line, note.option.as_str())?;
    }
    for job in jobs {
        push_job(&mut lines, job)?;
    }
    Ok(lines)
}

/// A job's name, order, numbers, switches and file in a line.
fn push_job(lines: &mut String, job: &Job) -> Result<(), AllocError> {
    write!(lines, "{} {:?}", job.name.as_str(), job.rec.kind())?;
    push_numbers(lines, job.rec.parts())?;
    write!(lines, " {:?} {}", job.rec.verify(), job.rec.pattern())?;
    push_switches(lines, job)?;
    match &job.filename {
        Some(filename) => writeln!(lines, " {}", filename.as_str()),
        None => writeln!(lines, " -"),
    }
}

fn push_numbers(lines: &mut String, parts: JobParts) -> Result<(), AllocError> {
    for number in [
        parts.blocks,
        parts.total,
        parts.bs,
        parts.seed,
        parts.depth,
        parts.window,
    ] {
        write!(lines, " {number}")?;
    }
    Ok(())
}

fn push_switches(lines: &mut String, job: &Job) -> Result<(), AllocError> {
    for switch in [job.save, job.load, job.fatal] {
        write!(lines, " {switch}")?;
    }
    Ok(())
}

/// Checks what `parse` answers to a text.
fn assert_answer(rt: &(impl Abort + AllocGlobal), text: &[u8], wanted: &str) {
    let found = answer(rt.alloc(), text).expect(rt, "memory");
    assert!(rt;
        found.as_str().trim_end() == wanted.trim_end(),
        "{found:?}, not {wanted:?}"
    );
}

/// Checks the answer to a text that has `|` for its line ends.
fn assert_row(rt: &(impl Abort + AllocGlobal), text: &str, wanted: &str) {
    let text = text.replace(rt.alloc(), '|', "\n").expect(rt, "memory");
    assert_answer(rt, text.as_bytes(), wanted);
}

/// Checks a table: the end of a text, ` => ` and its answer in each line. All texts start alike.
fn assert_answers(rt: &(impl Abort + AllocGlobal), start: &str, table: &str) {
    for row in table.lines() {
        let (end, wanted) = row.split_once(" => ").expect(rt, "a text and its answer");
        let text = format!(in rt.alloc(); "{start}{end}").expect(rt, "memory");
        assert_row(rt, text.as_str(), wanted);
    }
}

/// Checks that a text has one answer, whichever of these values (one a line) stands in it between
/// its start and its end.
fn assert_same_answer(
    rt: &(impl Abort + AllocGlobal),
    (start, end): (&str, &str),
    values: &str,
    wanted: &str,
) {
    for value in values.lines() {
        let text = format!(in rt.alloc(); "{start}{value}{end}").expect(rt, "memory");
        assert_row(rt, text.as_str(), wanted);
    }
}

/// Whether the jobs of a text write or read, and how many they are, if it is not refused.
fn phase_and_count(alloc: Global, text: &[u8]) -> Option<(Phase, usize)> {
    match parse(alloc, text) {
        Ok(set) => Some((set.phase, set.jobs.as_slice().len())),
        Err(_) => None,
    }
}

/// Whether a fault has this number, and this line or job.
fn is_row(fault: JobFault, number: u8, line_or_job: Option<u32>) -> bool {
    // A fault is passed on whole, so the second call gets a copy.
    let again = fault;
    fault.fault().number() == number && again.line_or_job() == line_or_job
}

#[test]
fn rows_of_the_table(rt: HostRuntime) {
    assert!(rt; is_row(JobFault::BadLine(7), 3, Some(7)));
    assert!(rt; is_row(JobFault::NoJobs, 6, None));
    assert!(rt; is_row(JobFault::SharedFile(JobNo(1)), 10, Some(1)));
    assert!(rt; is_row(JobFault::NoMemory, 12, None));
}

/// Lists and texts give back what they were made of.
#[test]
fn lists_and_texts(rt: HostRuntime) {
    assert!(rt; text_again(rt.alloc()).is_some_and(|text| text.as_str() == "direct"));
    assert!(rt; jobs_again(rt.alloc(), b"[a]\nsize=4k") == Some(1));
}

/// A text that went through the option of a note in a list.
fn text_again(alloc: Global) -> Option<String> {
    let option = PrintableText::from_string(String::from_str(alloc, "direct").ok()?);
    let mut notes = Vec::new(alloc);
    notes.push(LineNote { line: 2, option }).ok()?;
    let note = LineNotes::from_vec(notes).into_vec().pop()?;
    Some(note.option.into_string())
}

/// How many jobs of a text are left in a list that was taken apart and made again.
fn jobs_again(alloc: Global, text: &[u8]) -> Option<usize> {
    let jobs = parse(alloc, text).ok()?.jobs.into_vec();
    Some(Jobs::from_vec(jobs).as_slice().len())
}
