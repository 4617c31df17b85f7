//! The command line of `drive`.

ghost use Rattle.std.specs.Prelude.{◌≡◌, ◌≤◌, ◌<◌, IfSome, IsTrue, Some, map, unwrap_or};
ghost use Rattle.fc_base.specs.Keys.{is_key};
ghost use Rattle.targets.specs.Command.{IsOption, IsRequest, Asks, AreLedgerWords, AreMapWords, AreOptions, AreWords, ledger_word, option_words, wanted_word, AreTourWords};

use clap::{Arg, ArgMatches, Command, Error};
use fc_base::{JobNo, Key, MAX_JOBS, MAX_SERVERS, RunNo, ServerNo};
use program_io::is_number;
use std::alloc::{AllocError, Global};
use std::convert::AsStr;

/// What has happened at a place since its ledger was made.
#[derive(Clone, Copy, PartialEq, Eq)]
pub enum Since {
    /// A run whose state was kept.
    Run,
    /// A run whose state was lost.
    LostRun,
    /// No run: what a check has found there is to be there still.
    Rest,
}

/// What a command line asks for.
#[derive(Clone, Copy, PartialEq, Eq)]
pub enum Request {
    /// `drive write RUN JOB`: write the job of this number.
    Write { run: RunNo, job: JobNo },
    /// `drive tour JOB`: write the job of this number once for each tile that is begun.
    Tour { job: JobNo },
    /// `drive check RUN JOB`: check its target.
    Check { run: RunNo, job: JobNo },
    /// `drive map RUN JOB`, behind it `--server SERVER` or nothing, and then `--unit BYTES` or
    /// nothing: tell what each faulty block of the target holds, of a job of this server, or of
    /// server 0, by a unit or without one.
    Map { key: Key, unit: Option<u32> },
    /// `drive ledger RUN JOB`, `drive ledger-lost RUN JOB` or `drive ledger-rest RUN JOB`, behind it
    /// `--server SERVER` or nothing: check the target by its ledger, behind this run, behind this
    /// run whose state was lost, or where no run was since the last check.
    Ledger { key: Key, since: Since },
    /// `drive wanted RUN JOB`, `drive wanted-lost RUN JOB` or `drive wanted-rest RUN JOB`, likewise:
    /// tell which blocks such a check has to read.
    Wanted { key: Key, since: Since },
}

/// Reads the words of a command line, of which the first is the program's own name. `None` is a bad command: no
/// command or an unknown one, a word too few or too many, a run that isn't 1 to 18,446,744,073,709,551,615, a job that
/// isn't 0 to 15, a server that isn't 0 to 7, a unit that isn't 0 to 4,294,967,295, or no memory to read the words with.
/// There is no other option, none before the job, and no unit before a server.
pub fn read_words<S: AsStr>(alloc: Global, words: &[S]) -> Option<Request>
    ensures allowed { IfSome result IsRequest }
    ensures asked { IfSome result (Asks (map S.text words.now)) }
{
    if words.iter().any(|word| word.as_str() == "--") {
        return None;
    }
    let matches = matches_of(alloc, words).ok()?;
    match matches.subcommand()? {
        ("write", values) => {
            let (run, job) = numbers_of(values)?;
            are_words(words, "write", run, job).then_some(Request::Write { run, job })
        }
        ("tour", values) => {
            let job = job_of(values)?;
            are_tour_words(words, job).then_some(Request::Tour { job })
        }
        ("check", values) => {
            let (run, job) = numbers_of(values)?;
            are_words(words, "check", run, job).then_some(Request::Check { run, job })
        }
        ("map", values) => map_of(words, values),
        ("ledger", values) => ledger_of(words, Since::Run, values),
        ("ledger-lost", values) => ledger_of(words, Since::LostRun, values),
        ("ledger-rest", values) => ledger_of(words, Since::Rest, values),
        ("wanted", values) => wanted_of(words, Since::Run, values),
        ("wanted-lost", values) => wanted_of(words, Since::LostRun, values),
        ("wanted-rest", values) => wanted_of(words, Since::Rest, values),
        _ => None,
    }
}

/// The word of a check by a ledger.
fn ledger_word(since: Since) -> &'static str
    ensures { result.now ≡ ledger_word since }
{
    match since {
        Since::Run => "ledger",
        Since::LostRun => "ledger-lost",
        Since::Rest => "ledger-rest",
    }
}

/// The check by a ledger that the words ask for.
fn ledger_of<S: AsStr>(words: &[S], since: Since, values: &ArgMatches<'_>) -> Option<Request>
    ensures allowed { IfSome result IsRequest }
    ensures asked { IfSome result (Asks (map S.text words.now)) }
{
    let (key, server) = key_in(values)?;
    are_ledger_words(words, ledger_word(since), key.run, key.job, server).then_some(
        Request::Ledger { key, since },
    )
}

/// The word by which it is asked which blocks such a check has to read.
fn wanted_word(since: Since) -> &'static str
    ensures { result.now ≡ wanted_word since }
{
    match since {
        Since::Run => "wanted",
        Since::LostRun => "wanted-lost",
        Since::Rest => "wanted-rest",
    }
}

/// The question that the words ask, which blocks a check by a ledger has to read.
fn wanted_of<S: AsStr>(words: &[S], since: Since, values: &ArgMatches<'_>) -> Option<Request>
    ensures allowed { IfSome result IsRequest }
    ensures asked { IfSome result (Asks (map S.text words.now)) }
{
    let (key, server) = key_in(values)?;
    are_ledger_words(words, wanted_word(since), key.run, key.job, server).then_some(
        Request::Wanted { key, since },
    )
}

/// The key of the job, and the server that it has where the words name one: else it is of server 0.
fn key_in(values: &ArgMatches<'_>) -> Option<(Key, Option<u32>)>
    ensures { IfSome result (λ it. IsTrue (is_key it.0) × (it.0.server ≡ unwrap_or it.1 0)) }
{
    let (run, job) = numbers_of(values)?;
    let server = values.get_one::<u32>("server");
    let number = server.unwrap_or(0);
    if number >= MAX_SERVERS {
        return None;
    }
    let key = Key {
        run,
        server: ServerNo(number),
        job,
    };
    Some((key, server))
}

/// Whether these are the words of this command by a ledger of this job, and of this server.
fn are_ledger_words<S: AsStr>(
    words: &[S],
    command: &str,
    run: RunNo,
    job: JobNo,
    server: Option<u32>,
) -> bool
    ensures { IsTrue result → AreLedgerWords (map S.text words.now) command.now run job server }
{
    words.len() >= 4
        && (are_words(&words[..4], command, run, job) && is_option(&words[4..], "--server", server))
}

/// The map that the words ask for.
fn map_of<S: AsStr>(words: &[S], values: &ArgMatches<'_>) -> Option<Request>
    ensures allowed { IfSome result IsRequest }
    ensures asked { IfSome result (Asks (map S.text words.now)) }
{
    let (key, server) = key_in(values)?;
    let unit = values.get_one::<u32>("unit");
    are_map_words(words, key.run, key.job, server, unit).then_some(Request::Map { key, unit })
}

/// Whether these are the words of a map of this job, and of these options.
fn are_map_words<S: AsStr>(
    words: &[S],
    run: RunNo,
    job: JobNo,
    server: Option<u32>,
    unit: Option<u32>,
) -> bool
    ensures { IsTrue result → AreMapWords (map S.text words.now) run job server unit }
{
    words.len() >= 4
        && (are_words(&words[..4], "map", run, job) && are_options(&words[4..], server, unit))
}

/// Whether these are the words of a server and of a unit.
fn are_options<S: AsStr>(words: &[S], server: Option<u32>, unit: Option<u32>) -> bool
    ensures { IsTrue result → AreOptions (map S.text words.now) server unit }
{
    let behind = option_words(server);
    words.len() >= behind
        && (is_option(&words[..behind], "--server", server)
            && is_option(&words[behind..], "--unit", unit))
}

/// How many words an option has.
fn option_words(value: Option<u32>) -> usize
    ensures { result ≡ option_words value }
{
    match value {
        Some(_) => 2,
        None => 0,
    }
}

/// Whether these are an option of this name and its value, or none where there is no value.
fn is_option<S: AsStr>(words: &[S], name: &str, value: Option<u32>) -> bool
    ensures { IsTrue result → IsOption name.now value (map S.text words.now) }
{
    match value {
        None => words.is_empty(),
        Some(value) => is_pair(words, name, value),
    }
}

/// Whether these are an option of this name and this value.
fn is_pair<S: AsStr>(words: &[S], name: &str, value: u32) -> bool
    ensures { IsTrue result → IsOption name.now (Some value) (map S.text words.now) }
{
    words.len() == 2
        && (words[0].as_str() == name && is_number(words[1].as_str(), u64::from(value)))
}

/// Whether these are the words of a command with its run and its job.
fn are_words<S: AsStr>(words: &[S], command: &str, run: RunNo, job: JobNo) -> bool
    ensures { IsTrue result → AreWords (map S.text words.now) command.now run job }
{
    words.len() == 4
        && (words[1].as_str() == command
            && (is_number(words[2].as_str(), run.0)
                && is_number(words[3].as_str(), u64::from(job.0))))
}

/// Whether these are the words of a tour with its job.
fn are_tour_words<S: AsStr>(words: &[S], job: JobNo) -> bool
    ensures { IsTrue result → AreTourWords (map S.text words.now) job }
{
    words.len() == 3
        && (words[1].as_str() == "tour" && is_number(words[2].as_str(), u64::from(job.0)))
}

fn matches_of<'a, S: AsStr>(alloc: Global, words: &'a [S]) -> Result<ArgMatches<'a>, Error> {
    let command = command_of(alloc)?;
    command.try_get_matches_from(words)
}

/// What a command line may have: one of ten subcommands, of all but the first three a server, and of a map a unit.
fn command_of<'a>(alloc: Global) -> Result<Command<'a>, AllocError> {
    let mut command = Command::new(alloc, "drive")
        .disable_help_flag(true)
        .disable_help_subcommand(true)
        .subcommand_required(true);
    for name in [
        "write",
        "tour",
        "check",
        "map",
        "ledger",
        "ledger-lost",
        "ledger-rest",
        "wanted",
        "wanted-lost",
        "wanted-rest",
    ] {
        let words = subcommand(alloc, name)?;
        command = command.subcommand(words)?;
    }
    Ok(command)
}

fn subcommand<'a>(alloc: Global, name: &'a str) -> Result<Command<'a>, AllocError> {
    let mut command = Command::new(alloc, name).disable_help_flag(true);
    if name != "tour" {
        command = command.arg(Arg::new(alloc, "run").required(true))?;
    }
    command = command.arg(Arg::new(alloc, "job").required(true))?;
    if name != "write" && name != "tour" && name != "check" {
        command = command.arg(Arg::new(alloc, "server").long("server"))?;
    }
    if name == "map" {
        command = command.arg(Arg::new(alloc, "unit").long("unit"))?;
    }
    Ok(command)
}

/// The numbers of the run and of the job.
fn numbers_of(words: &ArgMatches<'_>) -> Option<(RunNo, JobNo)>
    ensures { IfSome result (λ numbers. (1 ≤ numbers.0) × (numbers.1 < MAX_JOBS)) }
{
    let run = words.get_one::<u64>("run")?;
    let job = job_of(words)?;
    if run == 0 {
        return None;
    }
    Some((RunNo(run), job))
}

/// The number of the job.
fn job_of(words: &ArgMatches<'_>) -> Option<JobNo>
    ensures { IfSome result (λ job. job < MAX_JOBS) }
{
    let job = words.get_one::<u32>("job")?;
    if job >= MAX_JOBS {
        return None;
    }
    Some(JobNo(job))
}
