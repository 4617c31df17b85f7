//! The grammar of one line.

ghost use Rattle.std.specs.Prelude.{◌≡◌, position, bytes_eq, codes};
ghost use Rattle.std.specs.Option.{option_copied};
ghost use Rattle.std.specs.List.{list_all};
ghost use Rattle.job_file.specs.Line.{is_skipped, is_section_byte, is_section_name, section_named, section_of, is_option_byte, is_option_name, is_equals, name_in, value_in, option_of, line_of};
ghost use Rattle.job_file.specs.JobSet.{fault_at};

use crate::bytes::{is_text_byte, trimmed};
use crate::fault::JobFault;
use crate::option::{Setting, is_ignored, option_named, setting_of};
use crate::text::Name;

/// What a line says.
#[derive(Drop)]
pub(crate) enum Line<'a> {
    /// Nothing: it is empty or a comment.
    Blank,
    /// It opens a global section.
    Global,
    /// It opens the section of a job of this name.
    Job(Name<'a>),
    /// It sets an option.
    Set(Setting<'a>),
    /// It names an option that is accepted and has no effect.
    Ignored(Name<'a>),
    /// It breaks a rule.
    Faulty(LineFault),
}

/// Which rule a line breaks.
#[derive(Clone, Copy)]
pub(crate) enum LineFault {
    BadLine,
    UnknownOption,
    BadValue,
}

impl LineFault {
    /// The fault of the line of this number.
    pub(crate) fn at(self, number: u32) -> JobFault
        ensures { result ≡ fault_at number self }
    {
        match self {
            LineFault::BadLine => JobFault::BadLine(number),
            LineFault::UnknownOption => JobFault::UnknownOption(number),
            LineFault::BadValue => JobFault::BadValue(number),
        }
    }
}

/// What a line says, given without its end.
pub(crate) fn line_of(line: &[u8]) -> Line<'_>
    ensures { result ≡ line_of line.now }
{
    let content = trimmed(line);
    if is_skipped(content) {
        return Line::Blank;
    }
    match content.strip_prefix(b"[") {
        Some(rest) => section_of(rest),
        None => option_of(content),
    }
}

fn is_skipped(line: &[u8]) -> bool
    ensures { result ≡ is_skipped line.now }
{
    line.is_empty() || line.starts_with(b";") || line.starts_with(b"#")
}

fn section_of(rest: &[u8]) -> Line<'_>
    ensures { result ≡ section_of rest.now }
{
    match rest.strip_suffix(b"]") {
        Some(name) => section_named(name),
        None => Line::Faulty(LineFault::BadLine),
    }
}

fn section_named(name: &[u8]) -> Line<'_>
    ensures { result ≡ section_named name.now }
{
    if !is_section_name(name) {
        Line::Faulty(LineFault::BadLine)
    } else if is_global(name) {
        Line::Global
    } else {
        Line::Job(Name::new(name))
    }
}

fn is_section_name(name: &[u8]) -> bool
    ensures { result ≡ is_section_name name.now }
{
    (1..=64).contains(&name.len()) && has_section_bytes(name)
}

fn has_section_bytes(name: &[u8]) -> bool
    ensures { result ≡ list_all is_section_byte name.now }
{
    name.iter().all(|byte| is_section_byte(*byte))
}

fn is_section_byte(byte: u8) -> bool
    ensures { result ≡ is_section_byte byte }
{
    is_text_byte(byte) && byte != b'[' && byte != b']'
}

fn is_global(name: &[u8]) -> bool
    ensures { result ≡ bytes_eq name.now (codes "global") }
{
    name == b"global".as_slice()
}

fn option_of(line: &[u8]) -> Line<'_>
    ensures { result ≡ option_of line.now }
{
    let (name, value) = name_and_value(line);
    if !is_option_name(name) {
        return Line::Faulty(LineFault::BadLine);
    }
    if is_ignored(name) {
        return Line::Ignored(Name::new(name));
    }
    let Some(option) = option_named(name) else {
        return Line::Faulty(LineFault::UnknownOption);
    };
    match setting_of(option, value) {
        Some(setting) => Line::Set(setting),
        None => Line::Faulty(LineFault::BadValue),
    }
}

fn name_and_value(line: &[u8]) -> (&[u8], Option<&[u8]>)
    ensures name { result.0.now ≡ name_in line.now }
    ensures value { option_copied result.1 ≡ value_in line.now }
{
    match first_equals(line) {
        Some(at) => (trimmed(&line[..at]), Some(trimmed(&line[at + 1..]))),
        None => (trimmed(line), None),
    }
}

fn first_equals(line: &[u8]) -> Option<usize>
    ensures { result ≡ position is_equals line.now }
{
    line.iter().position(|byte| *byte == b'=')
}

fn is_option_name(name: &[u8]) -> bool
    ensures { result ≡ is_option_name name.now }
{
    !name.is_empty() && has_option_bytes(name)
}

fn has_option_bytes(name: &[u8]) -> bool
    ensures { result ≡ list_all is_option_byte name.now }
{
    name.iter()
        .all(|byte| byte.is_ascii_alphanumeric() || *byte == b'_')
}
