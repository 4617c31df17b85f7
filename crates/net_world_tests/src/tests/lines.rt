//! Lines ask for what the manual says.

use net_script::line_of;
use std::alloc::Global;
use std::fmt;
use std::test::Fail;

/// Lines, and what they ask for.
const READ: &[(&str, &str)] = &[
    ("", "Skipped"),
    (" \t ", "Skipped"),
    ("  # a comment", "Skipped"),
    ("#tick", "Skipped"),
    ("servers 1", "Servers(Config { servers: 1, mirror: false })"),
    (
        "servers\t 008 ",
        "Servers(Config { servers: 8, mirror: false })",
    ),
    (
        "servers 3 mirror ",
        "Servers(Config { servers: 3, mirror: true })",
    ),
    ("tick", "Asks(Tick)"),
    ("begin", "Asks(Saves(Begin))"),
    ("verify 3", "Asks(Saves(Verify(RunNo(3))))"),
    ("deliver 007", "Asks(Saves(Deliver(7)))"),
    (
        "deliver 18446744073709551615",
        "Asks(Saves(Deliver(18446744073709551615)))",
    ),
    ("restart client", "Asks(Saves(Restart(Client)))"),
    ("restart 1", "Asks(Saves(Restart(Server(ServerNo(1)))))"),
    ("restart mirror", "Asks(Saves(Restart(Mirror)))"),
    ("renew 2", "Asks(Saves(Renew(Generation(2))))"),
    ("losenote", "Asks(LoseNote)"),
    ("cut client", "Asks(Cut(Client))"),
    ("cut mirror", "Asks(Cut(Mirror))"),
    ("cut 8", "Asks(Cut(Server(ServerNo(8))))"),
    ("stop 4", "Asks(Stop(RunNo(4)))"),
    ("trigger 4", "Asks(Trigger { run: RunNo(4), act: None })"),
    ("trigger 4 cut", "Asks(Trigger { run: RunNo(4), act: Cut })"),
    (
        "issue 1 2",
        "Asks(Issue { server: ServerNo(1), job: JobNo(2) })",
    ),
    (
        "issue 1 4294967296",
        "Asks(Issue { server: ServerNo(1), job: JobNo(4294967295) })",
    ),
    (
        "check 1 2",
        "Asks(Check { server: ServerNo(1), job: JobNo(2) })",
    ),
    (
        "done 1 2 5",
        "Asks(Done { server: ServerNo(1), job: JobNo(2), write: Seq(5) })",
    ),
    (
        "fail 1 2 5",
        "Asks(Fail { server: ServerNo(1), job: JobNo(2), write: Seq(5) })",
    ),
    (
        "land 1 2 5 all",
        "Asks(Land { server: ServerNo(1), job: JobNo(2), write: Seq(5), mask: 340282366920938463463374607431768211455 })",
    ),
    (
        "land 1 2 5 first 3",
        "Asks(Land { server: ServerNo(1), job: JobNo(2), write: Seq(5), mask: 7 })",
    ),
    (
        "land 1 2 5 first 0",
        "Asks(Land { server: ServerNo(1), job: JobNo(2), write: Seq(5), mask: 0 })",
    ),
    (
        "land 1 2 5 first 129",
        "Asks(Land { server: ServerNo(1), job: JobNo(2), write: Seq(5), mask: 340282366920938463463374607431768211455 })",
    ),
    (
        "rot 1 2 9 255",
        "Asks(Rot { server: ServerNo(1), job: JobNo(2), sector: 9, byte: 255 })",
    ),
    (
        "cutold deliver 4",
        "Asks(CutShort { landed: false, command: Deliver(4) })",
    ),
    (
        "cutnew restart 1",
        "Asks(CutShort { landed: true, command: Restart(Server(ServerNo(1))) })",
    ),
    (
        "cutnew verify 3",
        "Asks(CutShort { landed: true, command: Verify(RunNo(3)) })",
    ),
    (
        "cutold renew 18446744073709551615",
        "Asks(CutShort { landed: false, command: Renew(Generation(18446744073709551615)) })",
    ),
];

/// Lines that can't be read: a word too few, too many, or another one; a number with a sign, without a
/// digit, too great, or with something behind it; another case; and bytes that are no blanks.
pub const UNREAD: &[&str] = &[
    "servers",
    "servers 0",
    "servers 9",
    "servers 1 2",
    "servers mirror",
    "servers 0 mirror",
    "servers 9 mirror",
    "servers 1 Mirror",
    "servers 1 mirror 2",
    "begin 1",
    "verify",
    "verify 1 2",
    "deliver",
    "deliver 1 2",
    "deliver -1",
    "deliver +1",
    "deliver 1.",
    "deliver 0x1",
    "deliver 18446744073709551616",
    "restart",
    "restart server",
    "restart 1 2",
    "renew",
    "renew 1 2",
    "renew mirror",
    "losenote 1",
    "losenote client",
    "cut",
    "cut 1 2",
    "cut mirrors",
    "stop",
    "stop 1 2",
    "tick 1",
    "Tick",
    "tick\r",
    "tick\0",
    "trigger",
    "trigger 1 none",
    "trigger 1 cut 2",
    "issue 1",
    "issue 1 2 3",
    "check 1",
    "check 1 2 3",
    "done 1 2",
    "done 1 2 3 4",
    "fail 1 2",
    "fail 1 2 3 4",
    "land 1 2 3",
    "land 1 2 3 some",
    "land 1 2 3 first",
    "land 1 2 3 first 4 5",
    "land 1 2 3 all 4",
    "land 1 2 all",
    "rot 1 2 3",
    "rot 1 2 3 256",
    "rot 1 2 3 4 5",
    "cutold",
    "cutold tick",
    "cutnew check 0 0",
    "cutnew cutold deliver 0",
    "cutold deliver",
    "cutold losenote",
    "cutnew renew",
    "frob",
    ".",
];

/// What a line asks for, in letters. Where memory runs out, it is said once more.
fn said(alloc: Global, line: &str) -> Result<String, fmt::Error> {
    match said_once(alloc, line) {
        Ok(text) => Ok(text),
        Err(_) => said_once(alloc, line),
    }
}

fn said_once(alloc: Global, line: &str) -> Result<String, fmt::Error> {
    let mut text = String::new(alloc);
    write!(text, "{:?}", line_of(line.as_bytes()))?;
    Ok(text)
}

#[test]
fn lines_that_are_read(rt: HostRuntime) -> Result<(), Fail> {
    for (line, wanted) in READ {
        let said = said(rt.alloc(), line)?;
        assert!(rt; said.as_str() == *wanted, "{line}: {said}");
    }
    Ok(())
}

#[test]
fn lines_that_are_not_read(rt: HostRuntime) -> Result<(), Fail> {
    for line in UNREAD {
        let said = said(rt.alloc(), line)?;
        assert!(rt; said.as_str() == "Unread", "{line}: {said}");
    }
    Ok(())
}
