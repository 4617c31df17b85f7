//! A job's turn: a worker tells of its last writes, asks for others, and carries them out.

ghost use Rattle.std.specs.Prelude.{◌≡◌, ◌≤◌, length, IfErr};
ghost use Rattle.fleet_threads.specs.Turns.{HasAsked, HasTaken};

use crate::asking::{NextWrite, tell, tell_and_ask};
use crate::gate::{Gate, TURNS};
use crate::untold_end::UntoldEnd;
use crate::write_queue::WriteQueue;
use cells::{Seat, ServerCell};
use disk_model::{Disk, Notes};
use fc_base::{Fault, JobNo};
use std::sync::{Mutex, Wait};
use std::thread;

/// What came of a job's turn.
#[derive(Clone, Copy, PartialEq, Eq)]
pub(crate) enum TurnEnd {
    /// A write was carried out, or has failed; or one is in hand that waits for its gate.
    Wrote,
    /// There is none yet.
    Later,
    /// There is none any more.
    Never,
    /// The server is off.
    Off,
}

/// Takes the turn of a job. It waits for the gate where that lets none of the writes in hand through and there
/// is no other for now; `TurnsSpent` where it never does.
pub(crate) fn take<R: Wait, N: Notes + Drop, D: Disk, G: Gate>(
    rt: &R,
    cell: &Mutex<ServerCell<N>>,
    seat: &mut Seat,
    job: JobNo,
    files: &[Mutex<D>],
    gate: &G,
    desk: &mut WriteQueue,
) -> Result<TurnEnd, Fault>
    ensures { HasTaken seat.old seat.new result }
{
    let asked = ask(rt, cell, seat, job, gate, desk)?;
    match asked {
        NextWrite::Off => return Ok(TurnEnd::Off),
        NextWrite::Never if desk.given.is_empty() => return Ok(TurnEnd::Never),
        NextWrite::Later if desk.given.is_empty() => return Ok(TurnEnd::Later),
        NextWrite::Refused(fault) if desk.given.is_empty() => return Err(fault),
        _ => {}
    }
    if desk.carry_out(rt, files, gate) || matches!(asked, NextWrite::Write(_)) {
        return Ok(TurnEnd::Wrote);
    }
    wait(rt, cell, seat, files, gate, desk)
}

/// Tells how the writes have ended that were carried out, and asks for others of a job, under one lock; and
/// then tells the gate of those that the server knows of.
fn ask<R: Wait, N: Notes + Drop, G: Gate>(
    rt: &R,
    cell: &Mutex<ServerCell<N>>,
    seat: &mut Seat,
    job: JobNo,
    gate: &G,
    desk: &mut WriteQueue,
) -> Result<NextWrite, Fault>
    ensures { HasAsked seat.old seat.new result }
{
    let mut told = 0;
    let asked = tell_and_ask(
        rt,
        cell,
        seat,
        desk.ended.as_slice(),
        &mut told,
        job,
        &mut desk.given,
    );
    for ended in &desk.ended.as_slice()[..told] {
        gate.written(ended.ticket());
    }
    desk.ended.clear();
    asked
}

/// Waits until the gate lets a write in hand through. `TurnsSpent`: it lets none through within the turns, and
/// the server was told of each that it has failed.
fn wait<R: Wait, N: Notes + Drop, D: Disk, G: Gate>(
    rt: &R,
    cell: &Mutex<ServerCell<N>>,
    seat: &mut Seat,
    files: &[Mutex<D>],
    gate: &G,
    desk: &mut WriteQueue,
) -> Result<TurnEnd, Fault>
    ensures { HasTaken seat.old seat.new result }
{
    for _ in 0..TURNS {
        thread::yield_now();
        if desk.carry_out(rt, files, gate) {
            return Ok(TurnEnd::Wrote);
        }
    }
    for order in desk.given.as_slice() {
        tell(rt, cell, seat, &UntoldEnd::failed(&order.ticket))?;
    }
    Err(Fault::TurnsSpent)
}
