//! A worker, which goes round the jobs of a server and carries out their writes.

ghost use Rattle.std.specs.Prelude.{◌≡◌, ◌≤◌, false, length, IfOk, IfErr};
ghost use Rattle.fleet_threads.specs.Seats.{HasWorked, HasFailed};
ghost use Rattle.fleet_threads.specs.Turns.{is_over, HasGone, HasTaken};

use crate::gate::Gate;
use crate::turn::{TurnEnd, take};
use crate::write_queue::WriteQueue;
use cells::{Seat, ServerCell};
use disk_model::{Disk, Notes};
use fc_base::{Fault, JobNo};
use std::alloc::Global;
use std::sync::{Mutex, Wait};
use std::thread;

/// How many turns of a job a worker takes before it goes to the next. What it touches of a job and its file is
/// then mostly in its processor's memory, which passes between workers less often.
const STAY: u32 = 16;

/// What came of a round.
#[derive(Clone, Copy, PartialEq, Eq)]
pub(crate) enum Round {
    /// No job has a write any more, or the server is off.
    Over,
    /// No job has a write yet.
    Idle,
    /// Something was written.
    Busy,
}

/// Works at a server until no job has a write any more, or the server is off. Job `i` writes to file `i`: the
/// worker goes round the jobs of the files, tells the server how its last writes have ended and asks for others
/// of a job, all under one lock: for half as many as may be in flight, and eight at most. Then it tells the gate
/// of the ones, and carries out those of the others that the gate lets through. One that the gate refuses stays
/// in its hand, and keeps no other back. A write that its disk refuses has failed.
///
/// `NoMemory`, also where the server found none for the end of a write, [`TURNS`](crate::TURNS) times;
/// `WrongSeat`, the seat isn't one of this server, or is stale; `TurnsSpent`, the gate has refused all writes in
/// hand [`TURNS`](crate::TURNS) times, and these have failed. Any other fault is the server's last answer to the seat.
pub fn run_worker<R: Wait, N: Notes + Drop, D: Disk, G: Gate>(
    rt: &R,
    alloc: Global,
    cell: &Mutex<ServerCell<N>>,
    seat: Seat,
    files: &[Mutex<D>],
    gate: &G,
) -> Result<Seat, (Seat, Fault)>
    requires { 1 ≤ length files.now }
    ensures worked { IfOk result (HasWorked seat) }
    ensures refused { IfErr result (λ back. HasFailed seat back.0 back.1) }
{
    let mut seat = seat;
    match work(rt, alloc, cell, &mut seat, files, gate) {
        Ok(()) => Ok(seat),
        Err(fault) => Err((seat, fault)),
    }
}

/// Goes round the jobs until a round is over.
fn work<R: Wait, N: Notes + Drop, D: Disk, G: Gate>(
    rt: &R,
    alloc: Global,
    cell: &Mutex<ServerCell<N>>,
    seat: &mut Seat,
    files: &[Mutex<D>],
    gate: &G,
) -> Result<(), Fault>
    requires { 1 ≤ length files.now }
    ensures worked { IfOk result (λ _. HasWorked seat.old seat.new) }
    ensures refused { IfErr result (HasFailed seat.old seat.new) }
{
    let Ok(mut desk) = WriteQueue::new(alloc) else {
        return Err(Fault::NoMemory);
    };
    for _ in rt.forever() {
        match go_round(rt, cell, seat, files, gate, &mut desk)? {
            Round::Over => return Ok(()),
            Round::Idle => thread::yield_now(),
            Round::Busy => {}
        }
    }
    unreachable!()
}

/// Stays with each job for a while, first with that of the seat's number.
fn go_round<R: Wait, N: Notes + Drop, D: Disk, G: Gate>(
    rt: &R,
    cell: &Mutex<ServerCell<N>>,
    seat: &mut Seat,
    files: &[Mutex<D>],
    gate: &G,
    desk: &mut WriteQueue,
) -> Result<Round, Fault>
    requires { 1 ≤ length files.now }
    ensures { HasGone seat.old seat.new result }
{
    let mut round = Round::Over;
    let first = seat.number() as usize;
    for step in 0..files.len() {
        let place = (first + step) % files.len();
        match stay(rt, cell, seat, job_at(place), files, gate, desk)? {
            TurnEnd::Wrote => round = Round::Busy,
            TurnEnd::Later => round = round.or_idle(),
            TurnEnd::Never => {}
            TurnEnd::Off => return Ok(Round::Over),
        }
    }
    Ok(round)
}

/// Takes turns of a job, until it has no write for now, or [`STAY`] were taken; or until in as many of them as
/// the seat's number, and one more, another worker was at its file: so one of the two goes on, and one stays.
fn stay<R: Wait, N: Notes + Drop, D: Disk, G: Gate>(
    rt: &R,
    cell: &Mutex<ServerCell<N>>,
    seat: &mut Seat,
    job: JobNo,
    files: &[Mutex<D>],
    gate: &G,
    desk: &mut WriteQueue,
) -> Result<TurnEnd, Fault>
    ensures { HasTaken seat.old seat.new result }
{
    let mut patience = seat.number();
    for turn in 0..STAY {
        match take(rt, cell, seat, job, files, gate, desk)? {
            TurnEnd::Wrote if desk.was_held => match patience.checked_sub(1) {
                Some(left) => patience = left,
                None => return Ok(TurnEnd::Wrote),
            },
            TurnEnd::Wrote => {}
            TurnEnd::Later if turn > 0 => return Ok(TurnEnd::Wrote),
            other => return Ok(other),
        }
    }
    Ok(TurnEnd::Wrote)
}

impl Round {
    /// A round in which a job has no write yet.
    fn or_idle(self) -> Round
        ensures { is_over result ≡ false }
    {
        match self {
            Round::Busy => Round::Busy,
            Round::Over | Round::Idle => Round::Idle,
        }
    }
}

/// The number of the job that writes to the file at this place.
fn job_at(place: usize) -> JobNo {
    JobNo(u32::try_from(place).unwrap_or(u32::MAX))
}
