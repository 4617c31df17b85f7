//! What the client is asked, and the command that makes the world.

ghost use Rattle.std.specs.Prelude.{◌≡◌};
ghost use Rattle.net_script.specs.declared.line.ScriptLine.TheVariants.{Asks};
ghost use Rattle.net_script.specs.declared.command.Command.TheVariants.{Stop, Tick};
ghost use Rattle.net_script.specs.Words.{words_of};
ghost use Rattle.net_script.specs.Arguments.{alone, numbers, one};
ghost use Rattle.net_script.specs.Table.{read_by_row, asking_rows, servers, world_of, act_of, trigger};

use crate::arguments::{alone, maybe, one_number};
use crate::command::Command;
use crate::line::ScriptLine;
use crate::words::{is_word, number_of, split_word};
use fc_base::{MAX_SERVERS, RunNo};
use messages::Act;
use net_world::Config;

/// The line of a command with this word, if it is one of these.
pub(crate) fn asking(word: &[u8], words: &[u8]) -> Option<ScriptLine>
    ensures { result ≡ read_by_row asking_rows word.now (words_of words.now) }
{
    if is_word(word, b"servers") {
        Some(servers(words))
    } else if is_word(word, b"trigger") {
        Some(trigger(words))
    } else if is_word(word, b"stop") {
        Some(stop(words))
    } else if is_word(word, b"tick") {
        Some(tick(words))
    } else {
        None
    }
}

/// `servers N`, `servers N mirror`.
fn servers(words: &[u8]) -> ScriptLine
    ensures { result ≡ servers (words_of words.now) }
{
    let Some((count, rest)) = split_word(words) else {
        return ScriptLine::Unread;
    };
    let Some(mirror) = maybe(b"mirror", rest) else {
        return ScriptLine::Unread;
    };
    match number_of(count) {
        Some(count) => world_of(count, mirror),
        None => ScriptLine::Unread,
    }
}

/// A world has 1 to 8 servers.
fn world_of(count: u64, mirror: bool) -> ScriptLine
    ensures { result ≡ world_of count mirror }
{
    if 1 <= count && count <= u64::from(MAX_SERVERS) {
        ScriptLine::Servers(Config {
            servers: count as u32,
            mirror,
        })
    } else {
        ScriptLine::Unread
    }
}

/// `trigger R`, `trigger R cut`.
fn trigger(words: &[u8]) -> ScriptLine
    ensures { result ≡ trigger (words_of words.now) }
{
    let Some((run, rest)) = split_word(words) else {
        return ScriptLine::Unread;
    };
    let Some(act) = act_of(rest) else {
        return ScriptLine::Unread;
    };
    match number_of(run) {
        Some(run) => ScriptLine::Asks(Command::Trigger {
            run: RunNo(run),
            act,
        }),
        None => ScriptLine::Unread,
    }
}

/// What is asked behind the states: nothing, or `cut`.
fn act_of(words: &[u8]) -> Option<Act>
    ensures { result ≡ act_of (words_of words.now) }
{
    match maybe(b"cut", words) {
        Some(true) => Some(Act::Cut),
        Some(false) => Some(Act::None),
        None => None,
    }
}

/// `stop R`.
fn stop(words: &[u8]) -> ScriptLine
    ensures { result ≡ numbers (one (λ r. Asks (Stop r))) (words_of words.now) }
{
    match one_number(words) {
        Some(run) => ScriptLine::Asks(Command::Stop(RunNo(run))),
        None => ScriptLine::Unread,
    }
}

/// `tick`.
fn tick(words: &[u8]) -> ScriptLine
    ensures { result ≡ alone (Asks Tick) (words_of words.now) }
{
    alone(ScriptLine::Asks(Command::Tick), words)
}
