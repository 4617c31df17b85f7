//! Which command lines are read.

use fc_base::{Generation, ServerNo};
use filters::{Beginning, Request, read_words};
use std::test::Fail;

static SERVERS: [(&[&str], u32); 2] = [
    (&["fiocut_node", "server", "0"], 0),
    (&["fiocut_node", "server", "7"], 7),
];

static CLIENTS: [(&[&str], u32); 2] = [
    (&["fiocut_node", "client", "1"], 1),
    (&["fiocut_node", "client", "8"], 8),
];

/// How many servers, and the generation, none where the client is restarted.
static WITH_A_MIRROR: [(&[&str], u32, Option<u64>); 5] = [
    (&["fiocut_node", "client", "1", "mirror"], 1, None),
    (&["fiocut_node", "client", "8", "mirror"], 8, None),
    (&["fiocut_node", "client", "2", "renew", "1"], 2, Some(1)),
    (&["fiocut_node", "client", "2", "renew", "0"], 2, Some(0)),
    (
        &[
            "fiocut_node",
            "client",
            "2",
            "renew",
            "18446744073709551615",
        ],
        2,
        Some(18_446_744_073_709_551_615),
    ),
];

static BAD: [&[&str]; 27] = [
    &[],
    &["fiocut_node"],
    &["fiocut_node", "server"],
    &["fiocut_node", "client"],
    &["fiocut_node", "mirror", "0"],
    &["fiocut_node", "mirror", "mirror"],
    &["fiocut_node", "mirrors"],
    &["fiocut_node", "client", "mirror"],
    &["fiocut_node", "client", "1", "mirrors"],
    &["fiocut_node", "client", "9", "mirror"],
    &["fiocut_node", "client", "1", "mirror", "1"],
    &["fiocut_node", "client", "1", "renew"],
    &["fiocut_node", "client", "1", "renew", "-1"],
    &[
        "fiocut_node",
        "client",
        "1",
        "renew",
        "18446744073709551616",
    ],
    &["fiocut_node", "server", "1", "mirror"],
    &["fiocut_node", "server", "8"],
    &["fiocut_node", "server", "-1"],
    &["fiocut_node", "client", "0"],
    &["fiocut_node", "client", "9"],
    &["fiocut_node", "client", "1", "1"],
    &["fiocut_node", "client", "--help"],
    &["fiocut_node", "server", "--", "0"],
    &["fiocut_node", "server", "4294967296"],
    &["fiocut_node", "server", "+7"],
    &["fiocut_node", "client", "+1"],
    &["fiocut_node", "client", "+2", "mirror"],
    &["fiocut_node", "client", "2", "renew", "+3"],
];

#[test]
fn good_commands(rt: HostRuntime) -> Result<(), Fail> {
    for (words, me) in &SERVERS {
        if read_words(rt.alloc(), words) != Ok(Some(Request::Server(ServerNo(*me)))) {
            return Err(Fail::new(*me));
        }
    }
    for (words, servers) in &CLIENTS {
        if read_words(rt.alloc(), words) != Ok(Some(Request::Client(*servers, Beginning::Alone))) {
            return Err(Fail::new(*servers));
        }
    }
    Ok(())
}

#[test]
fn commands_with_a_mirror(rt: HostRuntime) -> Result<(), Fail> {
    for (words, servers, generation) in &WITH_A_MIRROR {
        let beginning = match *generation {
            Some(generation) => Beginning::Renewed(Generation(generation)),
            None => Beginning::Mirrored,
        };
        if read_words(rt.alloc(), words) != Ok(Some(Request::Client(*servers, beginning))) {
            return Err(Fail::new(*servers));
        }
    }
    let words = ["fiocut_node", "mirror"];
    if read_words(rt.alloc(), &words) != Ok(Some(Request::Mirror)) {
        return Err(Fail::new("the mirror"));
    }
    Ok(())
}

#[test]
fn bad_commands(rt: HostRuntime) -> Result<(), Fail> {
    for (number, words) in BAD.iter().enumerate() {
        if read_words(rt.alloc(), words) != Ok(None) {
            return Err(Fail::new(number));
        }
    }
    Ok(())
}
