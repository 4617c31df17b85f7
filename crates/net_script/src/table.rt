//! The table of commands: what each asks for by the words behind it.

ghost use Rattle.std.specs.Prelude.{◌≡◌, ◌∷◌};
ghost use Rattle.net_script.specs.Words.{words_of};
ghost use Rattle.net_script.specs.Table.{by_table, table, line_of, AsksFew};

mod cuts;
mod jobs;
mod runs;

use crate::line::ScriptLine;
use crate::words::split_word;

/// What a line of a script asks for, whatever its bytes are. Blanks around words mean nothing, and words are
/// matched as they are written.
pub fn line_of(line: &[u8]) -> ScriptLine
    ensures value { result ≡ line_of line.now }
    ensures few { AsksFew result }
{
    match split_word(line) {
        Some((word, words)) => {
            if word.starts_with(b"#") {
                ScriptLine::Skipped
            } else {
                asked(word, words)
            }
        }
        None => ScriptLine::Skipped,
    }
}

/// What the row of a word says of the words behind it.
fn asked(word: &[u8], words: &[u8]) -> ScriptLine
    ensures { result ≡ by_table table (word.now ∷ words_of words.now) }
{
    if let Some(line) = cuts::saving(word, words) {
        return line;
    }
    if let Some(line) = runs::asking(word, words) {
        return line;
    }
    if let Some(line) = jobs::of_jobs(word, words) {
        return line;
    }
    match cuts::cuts(word, words) {
        Some(line) => line,
        None => ScriptLine::Unread,
    }
}
