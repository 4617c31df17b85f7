//! The command line of `fiocut_node`.

ghost use Rattle.std.specs.Prelude.{IfOk, IfSome, IsTrue, map};
ghost use Rattle.filters.specs.declared.command.Request.TheVariants.{Mirror};
ghost use Rattle.filters.specs.Command.{IsRequest, Asks, AreClientWords, AreWords, Begins, IsPair, IsUnsigned, IsWord};

use crate::beginning::Beginning;
use clap::error::ErrorKind;
use clap::{Arg, ArgMatches, Command, Error};
use fc_base::{Generation, MAX_SERVERS, ServerNo};
use program_io::is_number;
use std::alloc::{AllocError, Global};
use std::convert::AsStr;

/// What a command line asks for.
#[derive(Clone, Copy, PartialEq, Eq)]
pub enum Request {
    /// `fiocut_node server ME`: the server with this number.
    Server(ServerNo),
    /// `fiocut_node client SERVERS`, behind it nothing, `mirror` or `renew GENERATION`: the client of so many
    /// servers, which begins so.
    Client(u32, Beginning),
    /// `fiocut_node mirror`: the mirror.
    Mirror,
}

/// Reads the words of a command line, of which the first is the program's own name. `None` is a bad command: no
/// command or an unknown one, a word too few or too many, a server that isn't 0 to 7, a number of servers that isn't
/// 1 to 8, or a generation that isn't 0 to 18,446,744,073,709,551,615. A number has digits alone, and there are no
/// options. An error is that memory is wanting.
pub fn read_words<S: AsStr>(alloc: Global, words: &[S]) -> Result<Option<Request>, AllocError>
    ensures allowed { IfOk result (λ read. IfSome read IsRequest) }
    ensures asked { IfOk result (λ read. IfSome read (Asks (map S.text words.now))) }
{
    if words.iter().any(|word| word.as_str() == "--") {
        return Ok(None);
    }
    match matches_of(alloc, words) {
        Ok(matches) => Ok(request_in(words, &matches)),
        Err(error) if error.kind() == ErrorKind::OutOfMemory => Err(AllocError),
        Err(_) => Ok(None),
    }
}

/// What the words ask for, by how they were read.
fn request_in<S: AsStr>(words: &[S], matches: &ArgMatches<'_>) -> Option<Request>
    ensures allowed { IfSome result IsRequest }
    ensures asked { IfSome result (Asks (map S.text words.now)) }
{
    match matches.subcommand()? {
        ("server", values) => server_in(words, values.get_one::<u32>("number")?),
        ("client", values) => client_in(words, values),
        ("mirror", _) => is_mirror(words).then_some(Request::Mirror),
        _ => None,
    }
}

/// The server with this number, where that is what the words say.
fn server_in<S: AsStr>(words: &[S], me: u32) -> Option<Request>
    ensures allowed { IfSome result IsRequest }
    ensures asked { IfSome result (Asks (map S.text words.now)) }
{
    if me < MAX_SERVERS && are_words(words, "server", me) {
        Some(Request::Server(ServerNo(me)))
    } else {
        None
    }
}

/// The client of so many servers, where that is what the words say.
fn client_in<S: AsStr>(words: &[S], values: &ArgMatches<'_>) -> Option<Request>
    ensures allowed { IfSome result IsRequest }
    ensures asked { IfSome result (Asks (map S.text words.now)) }
{
    let servers = values.get_one::<u32>("number")?;
    let beginning = beginning_of(values);
    if 1 <= servers && servers <= MAX_SERVERS && are_client_words(words, servers, &beginning) {
        Some(Request::Client(servers, beginning))
    } else {
        None
    }
}

/// How the client may begin, by what stands behind its number.
fn beginning_of(values: &ArgMatches<'_>) -> Beginning {
    match values.get_one::<u64>("generation") {
        Some(generation) => Beginning::Renewed(Generation(generation)),
        None => {
            if values.contains_id("beginning") {
                Beginning::Mirrored
            } else {
                Beginning::Alone
            }
        }
    }
}

/// Whether these are the words of a command with its number.
fn are_words<S: AsStr>(words: &[S], command: &str, number: u32) -> bool
    ensures { IsTrue result → AreWords (map S.text words.now) command.now number }
{
    words.len() == 3
        && (words[1].as_str() == command && is_unsigned(words[2].as_str(), u64::from(number)))
}

/// Whether these are the words of the client of so many servers, which begins so.
fn are_client_words<S: AsStr>(words: &[S], servers: u32, beginning: &Beginning) -> bool
    ensures { IsTrue result → AreClientWords (map S.text words.now) servers beginning.now }
{
    words.len() >= 3
        && (are_words(&words[..3], "client", servers) && begins(&words[3..], beginning))
}

/// Whether these words say that the client begins so.
fn begins<S: AsStr>(words: &[S], beginning: &Beginning) -> bool
    ensures { IsTrue result → Begins (map S.text words.now) beginning.now }
{
    match beginning {
        Beginning::Alone => words.is_empty(),
        Beginning::Mirrored => is_word(words, "mirror"),
        Beginning::Renewed(generation) => is_pair(words, "renew", *generation),
    }
}

/// Whether these are the words of the mirror.
fn is_mirror<S: AsStr>(words: &[S]) -> bool
    ensures { IsTrue result → Asks (map S.text words.now) Mirror }
{
    words.len() >= 1 && is_word(&words[1..], "mirror")
}

/// Whether this is the only word.
fn is_word<S: AsStr>(words: &[S], wanted: &str) -> bool
    ensures { IsTrue result → IsWord (map S.text words.now) wanted.now }
{
    words.len() == 1 && words[0].as_str() == wanted
}

/// Whether these are this word and this generation.
fn is_pair<S: AsStr>(words: &[S], wanted: &str, generation: Generation) -> bool
    ensures { IsTrue result → IsPair (map S.text words.now) wanted.now generation }
{
    words.len() == 2
        && (words[0].as_str() == wanted && is_unsigned(words[1].as_str(), generation.0))
}

/// Whether a word is this number, in digits alone.
fn is_unsigned(word: &str, number: u64) -> bool
    ensures { IsTrue result → IsUnsigned word.now number }
{
    let bytes = word.as_bytes();
    if bytes.is_empty() || bytes[0] == b'+' {
        return false;
    }
    is_number(word, number)
}

fn matches_of<'a, S: AsStr>(alloc: Global, words: &'a [S]) -> Result<ArgMatches<'a>, Error> {
    let command = command_of(alloc)?;
    command.try_get_matches_from(words)
}

/// What a command line may have: one of three subcommands, and no options.
fn command_of<'a>(alloc: Global) -> Result<Command<'a>, AllocError> {
    let mut command = Command::new(alloc, "fiocut_node")
        .disable_help_flag(true)
        .disable_help_subcommand(true)
        .subcommand_required(true);
    for name in ["server", "client", "mirror"] {
        let words = subcommand(alloc, name)?;
        command = command.subcommand(words)?;
    }
    Ok(command)
}

/// What a subcommand may have behind it: a number; and of the client how it begins.
fn subcommand<'a>(alloc: Global, name: &'a str) -> Result<Command<'a>, AllocError> {
    let mut command = Command::new(alloc, name).disable_help_flag(true);
    if name != "mirror" {
        command = command.arg(Arg::new(alloc, "number").required(true))?;
    }
    if name == "client" {
        for word in ["beginning", "generation"] {
            command = command.arg(Arg::new(alloc, word))?;
        }
    }
    Ok(command)
}
