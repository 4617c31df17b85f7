//! Which command lines are read.

use commands::{FleetSize, Request, read_words};
use std::test::Fail;

/// Command lines, and what they ask for.
static GOOD: [(&[&str], Request<'static>); 3] = [
    (&["fiocut", "jobs"], Request::Jobs),
    (&["fiocut", "world"], Request::World),
    (
        &["fiocut", "live", "8", "16", "a path"],
        Request::Live {
            size: FleetSize {
                servers: 8,
                workers: 16,
            },
            path: "a path",
        },
    ),
];

#[test]
fn good_commands(rt: HostRuntime) -> Result<(), Fail> {
    for (at, (words, wanted)) in GOOD.iter().enumerate() {
        if read_words(rt.alloc(), words) != Some(*wanted) {
            return Err(Fail::new(at));
        }
    }
    Ok(())
}

/// Command lines that aren't read.
static BAD: [&[&str]; 32] = [
    &[],
    &["fiocut"],
    &["fiocut", ""],
    &["fiocut", "job"],
    &["fiocut", "Jobs"],
    &["fiocut", "jobs "],
    &["fiocut", "jobs", ""],
    &["fiocut", "jobs", "x"],
    &["fiocut", "jobs", "jobs"],
    &["fiocut", "jobs", "--"],
    &["fiocut", "jobs", "-v"],
    &["fiocut", "-x", "jobs"],
    &["fiocut", "--", "jobs"],
    &["fiocut", "help"],
    &["fiocut", "help", "jobs"],
    &["fiocut", "-h"],
    &["fiocut", "--help"],
    &["fiocut", "jobs", "--help"],
    &["fiocut", "--version"],
    &["fiocut", "world", "x"],
    &["fiocut", "worlds"],
    &["fiocut", "jobs", "world"],
    &["fiocut", "live"],
    &["fiocut", "live", "1", "1"],
    &["fiocut", "live", "0", "1", "path"],
    &["fiocut", "live", "9", "1", "path"],
    &["fiocut", "live", "1", "0", "path"],
    &["fiocut", "live", "1", "17", "path"],
    &["fiocut", "live", "one", "1", "path"],
    &["fiocut", "live", "-1", "1", "path"],
    &["fiocut", "live", "4294967297", "1", "path"],
    &["fiocut", "live", "1", "1", "path", "x"],
];

#[test]
fn bad_commands(rt: HostRuntime) -> Result<(), Fail> {
    for (at, words) in BAD.iter().enumerate() {
        if read_words(rt.alloc(), words).is_some() {
            return Err(Fail::new(at));
        }
    }
    Ok(())
}
