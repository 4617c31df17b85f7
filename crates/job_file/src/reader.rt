//! Goes through the lines once, with the defaults carried from line to line.

ghost use Rattle.std.specs.Prelude.{◌≡◌, ◌+◌, ◌<◌, ◌≤◌, ◌==◌, false, ◌||◌, List, [], ◌∷◌, ◌++◌, length, position, OnOk, IfErr};
ghost use Rattle.std.specs.Str.Lines.{lines, strip_carriage_return};
ghost use Rattle.job_file.specs.declared.draft.Draft.{Draft};
ghost use Rattle.job_file.specs.declared.job.LineNote.{LineNote};
ghost use Rattle.job_file.specs.declared.line.Line.{Line};
ghost use Rattle.job_file.specs.Fault.{Checks, Gives};
ghost use Rattle.job_file.specs.JobSet.{faults_in, line_faults, opens, note_in, notes_from};
ghost use Rattle.job_file.specs.Line.{lines_of};
ghost use Rattle.job_file.specs.Section.{drafts_of};
ghost use Rattle.job_file.specs.Settings.{none_set};

use crate::draft::Draft;
use crate::fault::JobFault;
use crate::job::LineNote;
use crate::line::{Line, line_of};
use crate::option::Setting;
use crate::settings::Settings;
use crate::text::Name;
use fc_base::MAX_TEXT;
use std::alloc::Global;
use std::mem;

/// Which section the next line stands in.
#[derive(Drop)]
enum Scope<'a> {
    /// None has been opened.
    Outside,
    Global,
    Job(Draft<'a>),
}

/// What the lines so far have said.
#[derive(Drop)]
struct Reader<'a> {
    scope: Scope<'a>,
    /// The options of the global sections.
    defaults: Settings<'a>,
    /// The jobs whose sections are over.
    drafts: Vec<Draft<'a>>,
    /// The lines that have no effect.
    notes: Vec<LineNote>,
}

/// What all lines have said.
#[derive(Drop)]
pub(crate) struct Contents<'a> {
    pub(crate) drafts: Vec<Draft<'a>>,
    pub(crate) notes: Vec<LineNote>,
}

impl<'a> Reader<'a> {
    ghost use Rattle.job_file.specs.Reader.{is_inside, draft_in, drafts_coming, drafts_with};

    fn new(alloc: Global) -> Reader<'a>
        ensures outside { is_inside result.scope ≡ false }
        ensures coming { (below : List Line) →
            drafts_coming result below ≡ drafts_with none_set below }
        ensures notes { result.notes.items ≡ [] }
    {
        Reader {
            scope: Scope::Outside,
            defaults: Settings::new(),
            drafts: Vec::new(alloc),
            notes: Vec::new(alloc),
        }
    }

    /// Takes the line of this number.
    fn take(&mut self, alloc: Global, number: u32, line: Line<'a>) -> Result<(), JobFault>
        ensures fault { Checks result (faults_in number (is_inside self.old.scope) line.entry) }
        ensures inside { OnOk result
            (is_inside self.new.scope ≡ (is_inside self.old.scope || opens line.entry)) }
        ensures coming { OnOk result
            ((below : List Line) →
            drafts_coming self.new below ≡ drafts_coming self.old (line.entry ∷ below)) }
        ensures notes { OnOk result
            (self.new.notes.items ≡ self.old.notes.items ++ note_in number line.entry) }
    {
        match line {
            Line::Blank => Ok(()),
            Line::Global => self.open(Scope::Global),
            Line::Job(name) => {
                let settings = self.defaults.inherited();
                self.open(Scope::Job(Draft { name, settings }))
            }
            Line::Set(setting) => self.set(number, setting),
            Line::Ignored(name) => self.note(alloc, number, &name),
            Line::Faulty(fault) => match self.scope {
                Scope::Outside => Err(JobFault::BadLine(number)),
                _ => Err(fault.at(number)),
            },
        }
    }

    /// Ends the section that is open, and opens another.
    fn open(&mut self, next: Scope<'a>) -> Result<(), JobFault>
        ensures memory { IfErr result (λ fault. fault ≡ JobFault.NoMemory) }
        ensures scope { OnOk result (self.new.scope ≡ next.entry) }
        ensures defaults { OnOk result (self.new.defaults ≡ self.old.defaults) }
        ensures drafts { OnOk result
            (self.new.drafts.items ≡ self.old.drafts.items ++ draft_in self.old.scope) }
        ensures notes { OnOk result (self.new.notes.items ≡ self.old.notes.items) }
    {
        if let Scope::Job(draft) = mem::replace(&mut self.scope, next) {
            self.drafts.push(draft)?;
        }
        Ok(())
    }

    /// Sets an option of the section that is open.
    fn set(&mut self, number: u32, setting: Setting<'a>) -> Result<(), JobFault>
        ensures fault { Checks result
            (faults_in number (is_inside self.old.scope) (Line.Set setting.entry)) }
        ensures inside { is_inside self.new.scope ≡ is_inside self.old.scope }
        ensures coming { OnOk result
            ((below : List Line) → drafts_coming self.new below
            ≡ drafts_coming self.old (Line.Set setting.entry ∷ below)) }
        ensures notes { self.new.notes.items ≡ self.old.notes.items }
    {
        match &mut self.scope {
            Scope::Outside => return Err(JobFault::BadLine(number)),
            Scope::Global => self.defaults.set(setting),
            Scope::Job(draft) => draft.settings.set(setting),
        }
        Ok(())
    }

    /// Notes an option that has no effect.
    fn note(&mut self, alloc: Global, number: u32, name: &Name) -> Result<(), JobFault>
        ensures fault { Checks result
            (faults_in number (is_inside self.old.scope) (Line.Ignored name.now)) }
        ensures inside { is_inside self.new.scope ≡ is_inside self.old.scope }
        ensures coming { OnOk result
            ((below : List Line) → drafts_coming self.new below
            ≡ drafts_coming self.old (Line.Ignored name.now ∷ below)) }
        ensures notes { OnOk result
            (self.new.notes.items ≡ self.old.notes.items
            ++ note_in number (Line.Ignored name.now)) }
    {
        if let Scope::Outside = self.scope {
            return Err(JobFault::BadLine(number));
        }
        let option = name.copied(alloc)?;
        self.notes.push(LineNote {
            line: number,
            option,
        })?;
        Ok(())
    }

    /// Ends the section that is open, and gives what the lines have said.
    fn finish(mut self) -> Result<Contents<'a>, JobFault>
        ensures { Gives {Y = List Draft × List LineNote}
            (λ c. (c.drafts.items, c.notes.items)) result []
            (drafts_coming self.entry [], self.entry.notes.items) }
    {
        self.open(Scope::Outside)?;
        let Reader {
            scope: _,
            defaults: _,
            drafts,
            notes,
        } = self;
        Ok(Contents { drafts, notes })
    }
}

/// What the lines of a text say, or the fault of the first faulty line.
pub(crate) fn contents_of(alloc: Global, text: &[u8]) -> Result<Contents<'_>, JobFault>
    requires { length text.now ≤ MAX_TEXT }
    ensures { Gives {Y = List Draft × List LineNote} (λ c. (c.drafts.items, c.notes.items)) result
        (line_faults 1 false (lines_of text.now))
        (drafts_of (lines_of text.now), notes_from 1 (lines_of text.now)) }
{
    let mut reader = Reader::new(alloc);
    let mut number = 1u32;
    let mut rest = text;
    while !rest.is_empty() {
        let (line, after) = first_line(rest);
        reader.take(alloc, number, line_of(line))?;
        number += 1;
        rest = after;
    }
    reader.finish()
}

/// The first line without its end, and what stands behind it.
fn first_line(text: &[u8]) -> (&[u8], &[u8])
    requires { 0 < length text.now }
    ensures lines { lines text.now ≡ result.0.now ∷ lines result.1.now }
    ensures shorter { length result.1.now < length text.now }
{
    match first_line_feed(text) {
        Some(end) => (without_return(&text[..end]), &text[end + 1..]),
        None => (text, &[]),
    }
}

fn first_line_feed(text: &[u8]) -> Option<usize>
    ensures { result ≡ position (λ byte. byte == 10) text.now }
{
    text.iter().position(|byte| *byte == b'\n')
}

/// The line without the one carriage return at its end, if it has one.
fn without_return(line: &[u8]) -> &[u8]
    ensures { result.now ≡ strip_carriage_return line.now }
{
    line.strip_suffix(b"\r").unwrap_or(line)
}
