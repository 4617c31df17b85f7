//! Which command lines are read.

use fc_base::{JobNo, Key, RunNo, ServerNo};
use std::alloc::Global;
use std::test::Fail;
use targets::{Request, Since, read_words};

/// The words of a command line, and the run and the job that they ask for.
static GOOD: [(&[&str], u64, u32); 4] = [
    (&["drive", "write", "1", "0"], 1, 0),
    (
        &["drive", "write", "18446744073709551615", "15"],
        u64::MAX,
        15,
    ),
    (&["drive", "check", "1", "0"], 1, 0),
    (&["drive", "check", "7", "3"], 7, 3),
];

/// The words of a map of run 7 and job 3, its server and its unit.
static MAPS: [(&[&str], u32, Option<u32>); 6] = [
    (&["drive", "map", "7", "3"], 0, None),
    (&["drive", "map", "7", "3", "--unit", "4096"], 0, Some(4096)),
    (&["drive", "map", "7", "3", "--server", "0"], 0, None),
    (&["drive", "map", "7", "3", "--server", "7"], 7, None),
    (
        &["drive", "map", "7", "3", "--server", "5", "--unit", "0"],
        5,
        Some(0),
    ),
    (
        &["drive", "map", "7", "3", "--server", "1", "--unit", "512"],
        1,
        Some(512),
    ),
];

/// The words of a check by a ledger of run 7 and job 3, what has happened since the last one, and its server.
static LEDGERS: [(&[&str], Since, u32); 8] = [
    (&["drive", "ledger", "7", "3"], Since::Run, 0),
    (&["drive", "ledger-lost", "7", "3"], Since::LostRun, 0),
    (&["drive", "ledger-rest", "7", "3"], Since::Rest, 0),
    (
        &["drive", "ledger", "7", "3", "--server", "7"],
        Since::Run,
        7,
    ),
    (
        &["drive", "ledger-lost", "7", "3", "--server", "1"],
        Since::LostRun,
        1,
    ),
    (
        &["drive", "ledger-rest", "7", "3", "--server", "0"],
        Since::Rest,
        0,
    ),
    (
        &["drive", "ledger-rest", "7", "3", "--server", "5"],
        Since::Rest,
        5,
    ),
    (
        &["drive", "ledger", "7", "3", "--server", "0"],
        Since::Run,
        0,
    ),
];

/// The words that ask which blocks such a check has to read, likewise.
static WANTED: [(&[&str], Since, u32); 6] = [
    (&["drive", "wanted", "7", "3"], Since::Run, 0),
    (&["drive", "wanted-lost", "7", "3"], Since::LostRun, 0),
    (&["drive", "wanted-rest", "7", "3"], Since::Rest, 0),
    (
        &["drive", "wanted", "7", "3", "--server", "7"],
        Since::Run,
        7,
    ),
    (
        &["drive", "wanted-lost", "7", "3", "--server", "0"],
        Since::LostRun,
        0,
    ),
    (
        &["drive", "wanted-rest", "7", "3", "--server", "2"],
        Since::Rest,
        2,
    ),
];

/// The words of a tour, and its job.
static TOURS: [(&[&str], u32); 3] = [
    (&["drive", "tour", "0"], 0),
    (&["drive", "tour", "3"], 3),
    (&["drive", "tour", "15"], 15),
];

static BAD: [&[&str]; 55] = [
    &["drive", "tour"],
    &["drive", "tour", "1", "0"],
    &["drive", "tour", "16"],
    &["drive", "tour", "-1"],
    &["drive", "tour", "a"],
    &["drive", "tour", "0", "--server", "1"],
    &["drive", "--", "tour", "0"],
    &["drive", "write", "0"],
    &[],
    &["drive"],
    &["drive", "read", "1", "0"],
    &["drive", "write"],
    &["drive", "write", "1"],
    &["drive", "write", "1", "0", "0"],
    &["drive", "write", "0", "0"],
    &["drive", "write", "1", "16"],
    &["drive", "write", "18446744073709551616", "0"],
    &["drive", "write", "-1", "0"],
    &["drive", "check", "1", "--help"],
    &["drive", "check", "1", "--", "0"],
    &["drive", "check", "1", "0", "--unit", "4096"],
    &["drive", "map", "1", "0", "--unit"],
    &["drive", "map", "1", "0", "--unit", "4294967296"],
    &["drive", "map", "1", "0", "--unit=4096"],
    &["drive", "map", "--unit", "4096", "1", "0"],
    &["drive", "map", "1", "0", "--unit", "4096", "0"],
    &["drive", "map", "1", "0", "--server", "8"],
    &["drive", "map", "1", "0", "--server"],
    &["drive", "check", "1", "0", "--server", "1"],
    &["drive", "map", "1", "0", "--unit", "4096", "--server", "1"],
    &["drive", "map", "1", "0", "--server", "1", "--server", "1"],
    &["drive", "ledger"],
    &["drive", "ledger", "1"],
    &["drive", "ledger-rest", "1"],
    &["drive", "ledger", "1", "0", "0"],
    &["drive", "ledger", "0", "0"],
    &["drive", "ledger-lost", "0", "0"],
    &["drive", "ledger-rest", "1", "16"],
    &["drive", "ledger", "1", "0", "--unit", "4096"],
    &["drive", "ledger-lost", "1", "0", "--unit", "4096"],
    &[
        "drive",
        "ledger-rest",
        "1",
        "0",
        "--server",
        "1",
        "--unit",
        "4096",
    ],
    &["drive", "ledger", "1", "0", "--server", "8"],
    &["drive", "ledger", "1", "0", "--server"],
    &["drive", "ledger-lost", "--server", "1", "1", "0"],
    &["drive", "ledger-any", "1", "0"],
    &["drive", "ledgers", "1", "0"],
    &["drive", "wanted"],
    &["drive", "wanted-rest", "1"],
    &["drive", "wanted", "1", "0", "0"],
    &["drive", "wanted", "0", "0"],
    &["drive", "wanted-lost", "1", "16"],
    &["drive", "wanted", "1", "0", "--unit", "4096"],
    &["drive", "wanted-rest", "1", "0", "--server", "8"],
    &["drive", "wanted-lost", "--server", "1", "1", "0"],
    &["drive", "wanted-any", "1", "0"],
];

/// What the words ask for by their second.
fn asked(words: &[&str], run: u64, job: u32) -> Option<Request> {
    let (run, job) = (RunNo(run), JobNo(job));
    match *words.get(1)? {
        "write" => Some(Request::Write { run, job }),
        "check" => Some(Request::Check { run, job }),
        _ => None,
    }
}

#[test]
fn good_commands(rt: HostRuntime) -> Result<(), Fail> {
    for (number, (words, run, job)) in GOOD.iter().enumerate() {
        let wanted = asked(words, *run, *job);
        if wanted.is_none() || read_words(rt.alloc(), words) != wanted {
            return Err(Fail::new(number));
        }
    }
    Ok(())
}

#[test]
fn tours(rt: HostRuntime) -> Result<(), Fail> {
    for (number, (words, job)) in TOURS.iter().enumerate() {
        let wanted = Some(Request::Tour { job: JobNo(*job) });
        if read_words(rt.alloc(), words) != wanted {
            return Err(Fail::new(number));
        }
    }
    Ok(())
}

/// The map of run 7 and job 3, at this server and by this unit.
fn map_of(server: u32, unit: Option<u32>) -> Option<Request> {
    let key = Key {
        run: RunNo(7),
        server: ServerNo(server),
        job: JobNo(3),
    };
    Some(Request::Map { key, unit })
}

#[test]
fn maps(rt: HostRuntime) -> Result<(), Fail> {
    for (number, (words, server, unit)) in MAPS.iter().enumerate() {
        if read_words(rt.alloc(), words) != map_of(*server, *unit) {
            return Err(Fail::new(number));
        }
    }
    Ok(())
}

/// The check of run 7 and job 3 by a ledger, at this server.
fn ledger_of(since: Since, server: u32) -> Option<Request> {
    let key = Key {
        run: RunNo(7),
        server: ServerNo(server),
        job: JobNo(3),
    };
    Some(Request::Ledger { key, since })
}

#[test]
fn ledgers(rt: HostRuntime) -> Result<(), Fail> {
    for (number, (words, since, server)) in LEDGERS.iter().enumerate() {
        if read_words(rt.alloc(), words) != ledger_of(*since, *server) {
            return Err(Fail::new(number));
        }
    }
    Ok(())
}

/// The question which blocks that check has to read.
fn wanted_of(since: Since, server: u32) -> Option<Request> {
    match ledger_of(since, server)? {
        Request::Ledger { key, since } => Some(Request::Wanted { key, since }),
        _ => None,
    }
}

#[test]
fn wanted(rt: HostRuntime) -> Result<(), Fail> {
    for (number, (words, since, server)) in WANTED.iter().enumerate() {
        if read_words(rt.alloc(), words) != wanted_of(*since, *server) {
            return Err(Fail::new(number));
        }
    }
    Ok(())
}

/// Whether these words are a bad command.
fn is_bad(alloc: Global, words: &[&str]) -> bool {
    read_words(alloc, words).is_none()
}

#[test]
fn bad_commands(rt: HostRuntime) -> Result<(), Fail> {
    for (number, words) in BAD.iter().enumerate() {
        if !is_bad(rt.alloc(), words) {
            return Err(Fail::new(number));
        }
    }
    Ok(())
}
