//! Frames of what the client asks and what servers answer.

use super::rows::Rows;
use super::vectors::{ANSWERS, REQUESTS};
use super::*;
use fc_base::Attempt;
use messages::Act;
use std::test::Fail;

fn compare_orders(rows: &mut Rows) {
    let run = RunNo(1);
    rows.compare(from_client(0, Body::Start { run }));
    compare_triggers(rows, run);
    let (old, job) = (RunNo(5), JobNo(15));
    rows.compare(from_client(3, Body::StateAck { run: old, job }));
    rows.compare(from_client(0, Body::Stop { run: RunNo(2) }));
}

fn compare_triggers(rows: &mut Rows, run: RunNo) {
    for act in [Act::None, Act::Cut] {
        rows.compare(from_client(0, Body::Trigger { run, act }));
    }
}

fn verify(alloc: Global, run: RunNo, attempt: Attempt) -> Option<PacketParts> {
    let text = text(alloc, b"[a]\nsize=4k\n")?;
    Some(from_client(0, Body::Verify { run, attempt, text }))
}

fn saved(alloc: Global, attempt: Attempt) -> Option<PacketParts> {
    let state = state_of(alloc, JobNo(0))?;
    Some(from_client(0, Body::Saved { attempt, state }))
}

fn compare_checks(alloc: Global, rows: &mut Rows) {
    let (run, attempt, job) = (RunNo(1), Attempt(9), JobNo(3));
    rows.compare_made(verify(alloc, run, attempt));
    rows.compare_made(saved(alloc, attempt));
    rows.compare(from_client(0, Body::NoSaved { run, attempt, job }));
}

fn compare_jobs(alloc: Global, rows: &mut Rows) {
    rows.compare_made(jobs(alloc, 0, 1, b"[a]\nrw=write\nsize=4k\n"));
    rows.compare_made(jobs(alloc, 7, u64::MAX, b""));
}

#[test]
fn frames_of_requests(rt: HostRuntime) -> Result<(), Fail> {
    let mut rows = Rows::new(rt.alloc(), &REQUESTS);
    compare_jobs(rt.alloc(), &mut rows);
    compare_orders(&mut rows);
    compare_checks(rt.alloc(), &mut rows);
    rows.end()
}

fn state(alloc: Global) -> Option<PacketParts> {
    let state = state_of(alloc, JobNo(0))?;
    Some(from_server(0, Body::State { jobs: 1, state }))
}

fn compare_lost(rows: &mut Rows) {
    let (run, job, jobs) = (RunNo(5), JobNo(15), 16);
    rows.compare(from_server(3, Body::NoState { run, job, jobs }));
    rows.compare(from_server(0, Body::Stopped { run: RunNo(2) }));
}

fn compare_started(rows: &mut Rows, run: RunNo) {
    rows.compare(from_server(0, Body::JobsOk { run, jobs: 16 }));
    rows.compare(from_server(0, Body::Started { run }));
}

fn compare_wanted(rows: &mut Rows, run: RunNo) {
    let (attempt, job) = (Attempt(9), JobNo(0));
    rows.compare(from_server(0, Body::WantState { run, attempt, job }));
}

#[test]
fn frames_of_answers(rt: HostRuntime) -> Result<(), Fail> {
    let mut rows = Rows::new(rt.alloc(), &ANSWERS);
    compare_started(&mut rows, RunNo(1));
    rows.compare_made(state(rt.alloc()));
    compare_lost(&mut rows);
    compare_wanted(&mut rows, RunNo(1));
    rows.end()
}
