//! What a worker asks of its server, and tells it, each under the server's lock.

ghost use Rattle.std.specs.Prelude.{◌≡◌, ◌≤◌, ◌<◌, ◌+◌, nat_lt, true, length, Result, Ok, Err, IfOk, OnErr, IfSome};
ghost use Rattle.fc_base.specs.declared.fault.Fault.{Fault};
ghost use Rattle.cells.specs.declared.answer.Receipt.{Receipt};
ghost use Rattle.cells.specs.declared.server_cell.task.ServerTask.TheVariants.{Issue as IssueTask, WriteDone};
ghost use Rattle.cells.specs.ServerCalls.{Applies};
ghost use Rattle.fleet_threads.specs.Counts.{AsksOne, AsksEach, TellsOne, TellsEach, TellsAndAsks};
ghost use Rattle.fleet_threads.specs.Seats.{says_final};
ghost use Rattle.fleet_threads.specs.declared.asking.TheConstants.{HAND as MOST};
ghost use Rattle.fleet_threads.specs.Turns.{is_last_asked, is_on, IsIssued, HasAsked, HasTold, HasToldAll, AreSettings, HasSettings};

use crate::gate::TURNS;
use crate::lock::lock;
use crate::untold_end::UntoldEnd;
use cells::{Answer, Receipt, Seat, ServerCell, ServerTask};
use disk_model::Notes;
use engine::{Issue, Ticket};
use fc_base::{Fault, JobNo, JobRecord};
use std::sync::{Mutex, Wait};
use std::thread;

/// A write that the server has issued, with the settings of its job.
#[derive(Clone, Copy, PartialEq, Eq)]
pub(crate) struct Order {
    pub(crate) ticket: Ticket,
    pub(crate) rec: Option<JobRecord>,
}

/// What a worker is told that asks for the next write of a job.
#[derive(Clone, Copy, PartialEq, Eq)]
pub(crate) enum NextWrite {
    /// This write.
    Write(Order),
    /// None yet.
    Later,
    /// None any more.
    Never,
    /// The server is off.
    Off,
    /// It is refused so.
    Refused(Fault),
}

/// How many writes a worker has in hand at most.
pub(crate) const HAND: usize = 8;

/// Tells how these writes have ended, and asks for others of a job, all under one lock of the server. Where
/// there is no memory for the server's entry of an end, that and those behind it are told each as [`tell`] does it.
/// The answer is that to the last question; where there is no place for a write, nothing is asked, and it is
/// `Later`. As many of the ends as `told` says the server knows then, from the first on.
///
/// It fails where an end can't be told; then nothing is asked.
pub(crate) fn tell_and_ask<R: Wait, N: Notes + Drop>(
    rt: &R,
    cell: &Mutex<ServerCell<N>>,
    seat: &mut Seat,
    ended: &[UntoldEnd],
    told: &mut usize,
    job: JobNo,
    given: &mut Vec<Order>,
) -> Result<NextWrite, Fault>
    requires { told.old ≤ length ended.now }
    ensures asked { HasAsked seat.old seat.new result }
    ensures told { told.new ≤ length ended.now }
    ensures all_told { IfOk result (λ asked. is_on asked ≡ true → told.new ≡ length ended.now) }
    ensures counts { TellsAndAsks (nat_lt (length given.old.items) MOST)
        (seat.old.applied + told.new + length given.new.items)
        (seat.new.applied + told.old + length given.old.items) result }
{
    let asked = tell_all_and_ask(&mut lock(rt, cell), seat, ended, told, job, given);
    if asked != Err(Fault::NoMemory) {
        return asked;
    }
    for at in *told..ended.len() {
        if !tell(rt, cell, seat, &ended[at])? {
            return Ok(NextWrite::Off);
        }
        *told = at + 1;
    }
    Ok(ask_for_some(&mut lock(rt, cell), seat, job, given))
}

/// The same under the server's lock. `NoMemory`: there is none for the first end that wasn't told.
fn tell_all_and_ask<N: Notes + Drop>(
    server: &mut ServerCell<N>,
    seat: &mut Seat,
    ended: &[UntoldEnd],
    told: &mut usize,
    job: JobNo,
    given: &mut Vec<Order>,
) -> Result<NextWrite, Fault>
    requires { told.old ≤ length ended.now }
    ensures asked { HasAsked seat.old seat.new result }
    ensures told { told.new ≤ length ended.now }
    ensures all_told { IfOk result (λ asked. is_on asked ≡ true → told.new ≡ length ended.now) }
    ensures counts { TellsAndAsks (nat_lt (length given.old.items) MOST)
        (seat.old.applied + told.new + length given.new.items)
        (seat.new.applied + told.old + length given.old.items) result }
    ensures none_asked { OnErr result (length given.new.items ≡ length given.old.items) }
{
    if tell_all(server, seat, ended, told)? {
        Ok(ask_for_some(server, seat, job, given))
    } else {
        Ok(NextWrite::Off)
    }
}

/// Tells a server how these writes have ended, from that of the place `told` on, which is then the first that it doesn't
/// know. Whether the server is on.
fn tell_all<N: Notes + Drop>(
    server: &mut ServerCell<N>,
    seat: &mut Seat,
    ended: &[UntoldEnd],
    told: &mut usize,
) -> Result<bool, Fault>
    requires { told.old ≤ length ended.now }
    ensures seat { HasToldAll seat.old seat.new result }
    ensures told { told.new ≤ length ended.now }
    ensures all { result ≡ Ok true → told.new ≡ length ended.now }
    ensures counts { TellsEach (seat.old.applied + told.new) (seat.new.applied + told.old) result }
{
    for at in *told..ended.len() {
        if !end_write(server, seat, &ended[at])? {
            return Ok(false);
        }
        *told = at + 1;
    }
    Ok(true)
}

/// Asks a server for writes of a job until the worker has its share of them or no place for more, or there is
/// none; what it is told last. Each is then among those in hand.
fn ask_for_some<N: Notes + Drop>(
    server: &mut ServerCell<N>,
    seat: &mut Seat,
    job: JobNo,
    given: &mut Vec<Order>,
) -> NextWrite
    ensures asked { HasAsked seat.old seat.new (Ok result) }
    ensures counts { AsksEach (nat_lt (length given.old.items) MOST)
        (seat.old.applied + length given.new.items) (seat.new.applied + length given.old.items) result }
{
    let (mut last, mut share) = (NextWrite::Later, HAND);
    for count in 0..HAND {
        if count >= share || given.len() >= HAND {
            return last;
        }
        if given.reserve(1).is_err() {
            return NextWrite::Refused(Fault::NoMemory);
        }
        match issue(server, seat, job) {
            NextWrite::Write(order) => {
                given.push_reserved(order);
                share = share_of(&order);
                last = NextWrite::Write(order);
            }
            other => return other,
        }
    }
    last
}

/// How many writes of a job a worker takes at once: half of those that may be in flight, so that another
/// worker finds some.
fn share_of(order: &Order) -> usize {
    match order.rec {
        Some(rec) => rec.depth() as usize / 2,
        None => 1,
    }
}

/// Asks a server for the next write of a job.
fn issue<N: Notes + Drop>(server: &mut ServerCell<N>, seat: &mut Seat, job: JobNo) -> NextWrite
    ensures asks { (answer : Result Receipt Fault)
        × Applies server.old seat.old (IssueTask job) server.new seat.new answer }
    ensures seat { HasAsked seat.old seat.new (Ok result) }
    ensures one { AsksOne seat.old.applied seat.new.applied result }
    ensures settings { HasSettings server.new job result }
{
    match server.apply(seat, ServerTask::Issue(job)) {
        Ok(told) => said(told, server, job),
        Err(Fault::NodeOff) => NextWrite::Off,
        Err(fault) => NextWrite::Refused(fault),
    }
}

/// What the answer says.
fn said<N: Notes + Drop>(told: Receipt, server: &ServerCell<N>, job: JobNo) -> NextWrite
    ensures issued { IsIssued result told.answer }
    ensures last { is_last_asked result ≡ says_final told.answer }
    ensures settings { HasSettings server.now job result }
{
    match told.answer {
        Answer::Issued(Issue::Write(ticket)) => NextWrite::Write(Order {
            ticket,
            rec: record_of(server, job),
        }),
        Answer::Issued(Issue::Finished | Issue::Stopped) => NextWrite::Never,
        _ => NextWrite::Later,
    }
}

/// The settings of a job of the present run.
fn record_of<N: Notes + Drop>(server: &ServerCell<N>, job: JobNo) -> Option<JobRecord>
    ensures { IfSome result (AreSettings server.now job) }
{
    match server.server()?.run_job(job) {
        Some(job) => Some(job.rec),
        None => None,
    }
}

/// Tells how a write has ended, and tells it again where there is no memory for the server's entry of it:
/// a write of which nobody tells stays open. Whether the server is on.
///
/// `NoMemory`: there was none each of [`TURNS`] times.
pub(crate) fn tell<R: Wait, N: Notes + Drop>(
    rt: &R,
    cell: &Mutex<ServerCell<N>>,
    seat: &mut Seat,
    ended: &UntoldEnd,
) -> Result<bool, Fault>
    ensures seat { HasTold seat.old seat.new result }
    ensures one { TellsOne seat.old.applied seat.new.applied result }
{
    for _ in 0..TURNS {
        let told = end_write(&mut lock(rt, cell), seat, ended);
        if told != Err(Fault::NoMemory) {
            return told;
        }
        thread::yield_now();
    }
    Err(Fault::NoMemory)
}

/// Tells a server how a write has ended. Whether it is on: the write of an earlier boot is nothing to it.
fn end_write<N: Notes + Drop>(
    server: &mut ServerCell<N>,
    seat: &mut Seat,
    ended: &UntoldEnd,
) -> Result<bool, Fault>
    ensures tells { (answer : Result Receipt Fault)
        × Applies server.old seat.old
        (WriteDone ended.now.ticket ended.now.end) server.new seat.new answer }
    ensures seat { HasTold seat.old seat.new result }
    ensures one { TellsOne seat.old.applied seat.new.applied result }
{
    match server.apply(seat, ServerTask::WriteDone(*ended.ticket(), ended.end())) {
        Ok(_) | Err(Fault::OldBoot) => Ok(true),
        Err(Fault::NodeOff) => Ok(false),
        Err(fault) => Err(fault),
    }
}
