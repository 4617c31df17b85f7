//! The command line.

ghost use Rattle.std.specs.Prelude.{◌≤◌, IfSome, IsTrue, map};
ghost use Rattle.commands.specs.Command.{IsRequest, IsFleetSize, Asks, IsCommand, AsksLive};

use clap::{Arg, ArgMatches, Command, Error};
use fc_base::{MAX_SERVERS, MAX_WORKERS};
use program_io::is_number;
use std::alloc::{AllocError, Global};
use std::convert::AsStr;

/// How many servers there are, 1 to 8, and how many workers each has, 1 to 16.
#[derive(Clone, Copy, PartialEq, Eq)]
pub struct FleetSize {
    pub servers: u32,
    pub workers: u32,
}

/// What a command line asks for.
#[derive(Clone, Copy, PartialEq, Eq)]
pub enum Request<'a> {
    /// `fiocut jobs`: print the jobs of the job file on standard input.
    Jobs,
    /// `fiocut world`: run the script on standard input.
    World,
    /// `fiocut live SERVERS WORKERS PATH`: run the texts on standard input by so many servers of so
    /// many workers each, until there is a file at the path or all writes are done.
    Live { size: FleetSize, path: &'a str },
}

/// Reads the words of a command line, of which the first is the program's own name. `None` is a bad
/// command: no command or an unknown one, a word too few or too many, a number out of its range (1 to
/// 8 servers, 1 to 16 workers), or no memory to read the words with. There are no options, so a request
/// for help or for a version is a bad command, too, and so is the word `--`, which would end them.
pub fn read_words<'a, S: AsStr>(alloc: Global, words: &'a [S]) -> Option<Request<'a>>
    ensures allowed { IfSome result IsRequest }
    ensures asked { IfSome result (Asks (map S.text words.entry.now)) }
{
    if has_end_of_options(words) {
        return None;
    }
    let matches = matches_of(alloc, words).ok()?;
    match matches.subcommand()? {
        ("jobs", _) => is_command(words, "jobs").then_some(Request::Jobs),
        ("world", _) => is_command(words, "world").then_some(Request::World),
        ("live", values) => {
            let size = size_of(values)?;
            let path = values.get_str("path")?;
            asks_live(words, size, path).then_some(Request::Live { size, path })
        }
        _ => None,
    }
}

/// Whether these are the words of this command, which has none behind it.
fn is_command<S: AsStr>(words: &[S], command: &str) -> bool
    ensures { IsTrue result → IsCommand (map S.text words.now) command.now }
{
    words.len() == 2 && words[1].as_str() == command
}

/// Whether these are the words of a live run of this size, with this path.
fn asks_live<S: AsStr>(words: &[S], size: FleetSize, path: &str) -> bool
    ensures { IsTrue result → AsksLive (map S.text words.now) size path.now }
{
    words.len() == 5
        && (words[1].as_str() == "live"
            && (is_number(words[2].as_str(), u64::from(size.servers))
                && (is_number(words[3].as_str(), u64::from(size.workers))
                    && words[4].as_str() == path)))
}

fn has_end_of_options<S: AsStr>(words: &[S]) -> bool {
    words.iter().any(|word| word.as_str() == "--")
}

fn matches_of<'a, S: AsStr>(alloc: Global, words: &'a [S]) -> Result<ArgMatches<'a>, Error> {
    let command = command_of(alloc)?;
    command.try_get_matches_from(words)
}

/// What a command line may have: one of three subcommands, and no options.
fn command_of<'a>(alloc: Global) -> Result<Command<'a>, AllocError> {
    let mut command = command_with_live(alloc)?;
    for name in ["jobs", "world"] {
        command = command.subcommand(subcommand(alloc, name))?;
    }
    Ok(command)
}

fn command_with_live<'a>(alloc: Global) -> Result<Command<'a>, AllocError> {
    let live = live_command(alloc)?;
    Command::new(alloc, "fiocut")
        .disable_help_flag(true)
        .disable_help_subcommand(true)
        .subcommand_required(true)
        .subcommand(live)
}

fn live_command<'a>(alloc: Global) -> Result<Command<'a>, AllocError> {
    let mut live = subcommand(alloc, "live");
    for name in ["servers", "workers", "path"] {
        live = live.arg(Arg::new(alloc, name).required(true))?;
    }
    Ok(live)
}

fn subcommand<'a>(alloc: Global, name: &'a str) -> Command<'a> {
    Command::new(alloc, name).disable_help_flag(true)
}

/// The size that the words behind `live` ask for.
fn size_of(words: &ArgMatches<'_>) -> Option<FleetSize>
    ensures { IfSome result IsFleetSize }
{
    Some(FleetSize {
        servers: number_among(words, "servers", MAX_SERVERS)?,
        workers: number_among(words, "workers", MAX_WORKERS)?,
    })
}

/// The word of this name, where it is a number from 1 to the most.
fn number_among(words: &ArgMatches<'_>, name: &str, most: u32) -> Option<u32>
    ensures { IfSome result (λ number. (1 ≤ number) × (number ≤ most)) }
{
    let number = words.get_one::<u32>(name)?;
    (1..=most).contains(&number).then_some(number)
}
