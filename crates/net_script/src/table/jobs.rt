//! What happens to a job and its file.

ghost use Rattle.std.specs.Prelude.{◌≡◌};
ghost use Rattle.net_script.specs.declared.line.ScriptLine.TheVariants.{Asks};
ghost use Rattle.net_script.specs.declared.command.Command.TheVariants.{Issue, Done, Fail, Check};
ghost use Rattle.net_script.specs.Words.{words_of};
ghost use Rattle.net_script.specs.Arguments.{read_as, numbers, two, three, four, place};
ghost use Rattle.net_script.specs.Table.{read_by_row, job_rows, land, rot};

use crate::arguments::{four_numbers, leading_number, place, sectors, three_numbers, two_numbers};
use crate::command::Command;
use crate::line::ScriptLine;
use crate::words::is_word;
use fc_base::{JobNo, Seq, ServerNo};

/// The line of a command with this word, if it is one of these.
pub(crate) fn of_jobs(word: &[u8], words: &[u8]) -> Option<ScriptLine>
    ensures { result ≡ read_by_row job_rows word.now (words_of words.now) }
{
    if is_word(word, b"issue") {
        Some(issue(words))
    } else if is_word(word, b"land") {
        Some(land(words))
    } else if is_word(word, b"done") {
        Some(done(words))
    } else if is_word(word, b"fail") {
        Some(fail(words))
    } else if is_word(word, b"rot") {
        Some(rot(words))
    } else if is_word(word, b"check") {
        Some(check(words))
    } else {
        None
    }
}

/// `issue S J`.
fn issue(words: &[u8]) -> ScriptLine
    ensures { result
        ≡ numbers (two (λ s j. Asks (Issue (place s) (place j)))) (words_of words.now) }
{
    match two_numbers(words) {
        Some((server, job)) => ScriptLine::Asks(Command::Issue {
            server: ServerNo(place(server)),
            job: JobNo(place(job)),
        }),
        None => ScriptLine::Unread,
    }
}

/// `land S J K all`, `land S J K first N`.
fn land(words: &[u8]) -> ScriptLine
    ensures { result ≡ land (words_of words.now) }
{
    match landed(words) {
        Some(command) => ScriptLine::Asks(command),
        None => ScriptLine::Unread,
    }
}

fn landed(words: &[u8]) -> Option<Command>
    ensures { read_as Asks result ≡ land (words_of words.now) }
{
    let (server, words) = leading_number(words)?;
    let (job, words) = leading_number(words)?;
    let (write, words) = leading_number(words)?;
    let mask = sectors(words)?;
    Some(Command::Land {
        server: ServerNo(place(server)),
        job: JobNo(place(job)),
        write: Seq(write),
        mask,
    })
}

/// `done S J K`.
fn done(words: &[u8]) -> ScriptLine
    ensures { result
        ≡ numbers (three (λ s j k. Asks (Done (place s) (place j) k))) (words_of words.now) }
{
    match three_numbers(words) {
        Some((server, job, write)) => ScriptLine::Asks(Command::Done {
            server: ServerNo(place(server)),
            job: JobNo(place(job)),
            write: Seq(write),
        }),
        None => ScriptLine::Unread,
    }
}

/// `fail S J K`.
fn fail(words: &[u8]) -> ScriptLine
    ensures { result
        ≡ numbers (three (λ s j k. Asks (Fail (place s) (place j) k))) (words_of words.now) }
{
    match three_numbers(words) {
        Some((server, job, write)) => ScriptLine::Asks(Command::Fail {
            server: ServerNo(place(server)),
            job: JobNo(place(job)),
            write: Seq(write),
        }),
        None => ScriptLine::Unread,
    }
}

/// `rot S J SECTOR BYTE`.
fn rot(words: &[u8]) -> ScriptLine
    ensures { result ≡ numbers (four rot) (words_of words.now) }
{
    match four_numbers(words) {
        Some((server, job, sector, byte)) => rotted(server, job, sector, byte),
        None => ScriptLine::Unread,
    }
}

/// A byte has eight bits.
fn rotted(server: u64, job: u64, sector: u64, byte: u64) -> ScriptLine
    ensures { result ≡ rot server job sector byte }
{
    match u8::try_from(byte) {
        Ok(byte) => ScriptLine::Asks(Command::Rot {
            server: ServerNo(place(server)),
            job: JobNo(place(job)),
            sector,
            byte,
        }),
        Err(_) => ScriptLine::Unread,
    }
}

/// `check S J`.
fn check(words: &[u8]) -> ScriptLine
    ensures { result
        ≡ numbers (two (λ s j. Asks (Check (place s) (place j)))) (words_of words.now) }
{
    match two_numbers(words) {
        Some((server, job)) => ScriptLine::Asks(Command::Check {
            server: ServerNo(place(server)),
            job: JobNo(place(job)),
        }),
        None => ScriptLine::Unread,
    }
}
