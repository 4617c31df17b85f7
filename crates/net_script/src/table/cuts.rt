//! The commands in which a node may save, and the cuts of power, within such a save too, and the loss of a note.

ghost use Rattle.std.specs.Prelude.{◌≡◌};
ghost use Rattle.net_script.specs.declared.command.Saving.TheVariants.{Begin, Verify, Deliver, Restart, Renew};
ghost use Rattle.net_script.specs.declared.command.Command.TheVariants.{Saves, CutShort, Cut, LoseNote};
ghost use Rattle.net_script.specs.declared.line.ScriptLine.TheVariants.{Asks};
ghost use Rattle.net_script.specs.Words.{words_of};
ghost use Rattle.net_script.specs.Arguments.{alone, numbers, one, node};
ghost use Rattle.net_script.specs.Table.{read_by_row, by_table, saving_rows, cut_rows};
ghost use Rattle.net_script.specs.Asked.{saving_command};

use crate::arguments::{alone, one_node, one_number};
use crate::command::{Command, Saving};
use crate::line::ScriptLine;
use crate::words::{is_word, split_word};
use fc_base::{Generation, RunNo};

/// How a command is asked in which a node may save: as it is, or cut short.
#[derive(Clone, Copy)]
enum Asked {
    AsItIs,
    CutShort { landed: bool },
}

impl Asked {
    fn line(self, command: Saving) -> ScriptLine
        ensures { result ≡ Asks (saving_command self command) }
    {
        ScriptLine::Asks(match self {
            Asked::AsItIs => Command::Saves(command),
            Asked::CutShort { landed } => Command::CutShort { landed, command },
        })
    }
}

/// The line of a command with this word in which a node may save, if it is one of these.
pub(crate) fn saving(word: &[u8], words: &[u8]) -> Option<ScriptLine>
    ensures { result ≡ read_by_row (saving_rows Saves) word.now (words_of words.now) }
{
    saving_asked(Asked::AsItIs, word, words)
}

/// The same, asked in this way.
fn saving_asked(how: Asked, word: &[u8], words: &[u8]) -> Option<ScriptLine>
    ensures { result
        ≡ read_by_row (saving_rows (saving_command how)) word.now (words_of words.now) }
{
    if is_word(word, b"begin") {
        Some(begin(how, words))
    } else if is_word(word, b"verify") {
        Some(verify(how, words))
    } else if is_word(word, b"deliver") {
        Some(deliver(how, words))
    } else if is_word(word, b"restart") {
        Some(restart(how, words))
    } else if is_word(word, b"renew") {
        Some(renew(how, words))
    } else {
        None
    }
}

/// `begin`.
fn begin(how: Asked, words: &[u8]) -> ScriptLine
    ensures { result ≡ alone (Asks (saving_command how Begin)) (words_of words.now) }
{
    alone(how.line(Saving::Begin), words)
}

/// `verify R`.
fn verify(how: Asked, words: &[u8]) -> ScriptLine
    ensures { result
        ≡ numbers (one (λ r. Asks (saving_command how (Verify r)))) (words_of words.now) }
{
    match one_number(words) {
        Some(run) => how.line(Saving::Verify(RunNo(run))),
        None => ScriptLine::Unread,
    }
}

/// `deliver I`.
fn deliver(how: Asked, words: &[u8]) -> ScriptLine
    ensures { result
        ≡ numbers (one (λ i. Asks (saving_command how (Deliver i)))) (words_of words.now) }
{
    match one_number(words) {
        Some(frame) => how.line(Saving::Deliver(frame)),
        None => ScriptLine::Unread,
    }
}

/// `restart NODE`.
fn restart(how: Asked, words: &[u8]) -> ScriptLine
    ensures { result ≡ node (λ n. Asks (saving_command how (Restart n))) (words_of words.now) }
{
    match one_node(words) {
        Some(node) => how.line(Saving::Restart(node)),
        None => ScriptLine::Unread,
    }
}

/// `renew G`.
fn renew(how: Asked, words: &[u8]) -> ScriptLine
    ensures { result
        ≡ numbers (one (λ g. Asks (saving_command how (Renew g)))) (words_of words.now) }
{
    match one_number(words) {
        Some(generation) => how.line(Saving::Renew(Generation(generation))),
        None => ScriptLine::Unread,
    }
}

/// The line of a command with this word that cuts the power or loses a note, if it is one of these.
pub(crate) fn cuts(word: &[u8], words: &[u8]) -> Option<ScriptLine>
    ensures { result ≡ read_by_row cut_rows word.now (words_of words.now) }
{
    if is_word(word, b"cut") {
        Some(cut(words))
    } else if is_word(word, b"cutold") {
        Some(cut_short(false, words))
    } else if is_word(word, b"cutnew") {
        Some(cut_short(true, words))
    } else if is_word(word, b"losenote") {
        Some(lose_note(words))
    } else {
        None
    }
}

/// `cut NODE`.
fn cut(words: &[u8]) -> ScriptLine
    ensures { result ≡ node (λ n. Asks (Cut n)) (words_of words.now) }
{
    match one_node(words) {
        Some(node) => ScriptLine::Asks(Command::Cut(node)),
        None => ScriptLine::Unread,
    }
}

/// `losenote`.
fn lose_note(words: &[u8]) -> ScriptLine
    ensures { result ≡ alone (Asks LoseNote) (words_of words.now) }
{
    alone(ScriptLine::Asks(Command::LoseNote), words)
}

/// `cutold COMMAND`, `cutnew COMMAND`.
fn cut_short(landed: bool, words: &[u8]) -> ScriptLine
    ensures { result ≡ by_table (saving_rows (CutShort landed)) (words_of words.now) }
{
    match split_word(words) {
        Some((word, rest)) => {
            let how = Asked::CutShort { landed };
            match saving_asked(how, word, rest) {
                Some(line) => line,
                None => ScriptLine::Unread,
            }
        }
        None => ScriptLine::Unread,
    }
}
