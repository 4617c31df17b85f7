//! Checks by a ledger of a job of another server than 0: a run of it, and what it has left at rest.

use super::ledger_bytes::TWO_PASS;
use super::ledger_inputs::Block::*;
use super::ledger_inputs::{Step, answer, ledger_behind, ledger_input};
use super::map_inputs::key_of;
use super::stamps::RUN;
use fake_io::source_of;
use std::alloc::Global;
use std::test::Fail;
use targets::Since;

/// Puts server 3 into the stamps of a block that comes so far before the end of the input: a server's last byte is byte
/// 11 of a stamp, and each of the two sectors has one.
fn set_server(input: &mut Vec<u8>, before_end: usize) -> Option<()> {
    let first = input.len().checked_sub(before_end)?.checked_add(11)?;
    *input.get_mut(first)? = 3;
    *input.get_mut(first.checked_add(512)?)? = 3;
    Some(())
}

/// The ledger behind a step of server 3's job, where those of the blocks that are named hold its writes, and not those
/// of server 0.
fn ledger_of_three(alloc: Global, step: &Step, ledger: &[u8], blocks: &[usize]) -> Option<Vec<u8>> {
    let mut input = ledger_input(alloc, step, ledger)?;
    for before_end in blocks {
        set_server(&mut input, *before_end)?;
    }
    let (status, written) = answer(alloc, key_of(step.run, 3), step.since, source_of(&input))?;
    if status == step.status {
        ledger_behind(alloc, &written, step.lines)
    } else {
        None
    }
}

/// A run of server 3, of which block 1 holds a write of server 0.
const RUN_OF_THREE: Step = Step {
    status: 1,
    lines: "block 1 misdirected: wants write 1, \
        holds write 1 of block 1 of job 0 of server 0 of run 7, \
        differs from write 1 by bits 4 first at sector 0 byte 11\n\
        unchecked\nreport checked 2 faults 1 end whole first 1 misdirected 1\n",
    ..TWO_PASS
};

/// Then block 0 holds one of server 0, too.
const REST_OF_THREE: Step = Step {
    since: Since::Rest,
    status: 1,
    lines: "block 0 at-rest: wants write 0 of run 7, \
        holds write 0 of block 0 of job 0 of server 0 of run 7\n\
        unchecked 1-1\nreport checked 1 faults 1 end whole first 0 at-rest 1\n",
    ..TWO_PASS
};

/// Or a run that wrote nothing is of server 3, and block 0 holds server 3's write to block 1.
const OTHER_OF_THREE: Step = Step {
    target: &[Write(RUN, 1, 1), Unread],
    lines: "block 0 at-rest: wants write 0 of run 7, \
        holds write 1 of block 1 of job 0 of server 3 of run 7\n\
        unchecked 1-1\nreport checked 1 faults 1 end whole first 0 at-rest 1\n",
    ..REST_OF_THREE
};

/// A block stands behind its byte, so that block 0 begins 2,049 bytes before the end, and 1,025 where block 1 could not
/// be read.
fn tells_servers(alloc: Global) -> Option<()> {
    let ledger = ledger_of_three(alloc, &RUN_OF_THREE, b"", &[2049])?;
    ledger_of_three(alloc, &REST_OF_THREE, &ledger, &[])?;
    ledger_of_three(alloc, &OTHER_OF_THREE, &ledger, &[1025])?;
    Some(())
}

#[test]
fn jobs_of_other_servers_and_their_ledgers(rt: HostRuntime) -> Result<(), Fail> {
    match tells_servers(rt.alloc()) {
        Some(()) => Ok(()),
        None => Err(Fail::new("server 3")),
    }
}
