//! What no clause shows: that a cell answers where memory is there, and what its history then has.

use disk_model::{FaultNotes, MemNotes, Notes};
use engine::Issue;
use fc_base::{Fault, JobNo, ServerNo};
use node_threads::{Answer, History, HistoryEntry, Receipt, Seat, ServerCell, ServerTask};
use std::alloc::Global;

/// The number of a seat, what is asked from it, and its answer, or the number of its fault.
type Row = (usize, ServerTask, Result<Answer, u8>);

const ISSUE: ServerTask = ServerTask::Issue(JobNo(0));

const STOPPED: Result<Answer, u8> = Ok(Answer::Issued(Issue::Stopped));

const PLAIN: Result<Answer, u8> = Ok(Answer::Plain);

/// A server without a run, by two seats: on, off, and on again.
const POWER: [Row; 8] = [
    (0, ISSUE, STOPPED),
    (0, ServerTask::Restart, Err(82)),
    (1, ServerTask::Cut, PLAIN),
    (0, ISSUE, Err(81)),
    (1, ServerTask::Cut, Err(81)),
    (1, ServerTask::Restart, PLAIN),
    (0, ISSUE, STOPPED),
    (1, ServerTask::Restart, Err(82)),
];

/// Its second save, that of a restart, fails: it stays off until it is restarted again.
const LOST: [Row; 6] = [
    (0, ServerTask::Cut, PLAIN),
    (1, ServerTask::Restart, Err(53)),
    (1, ISSUE, Err(81)),
    (0, ServerTask::Restart, PLAIN),
    (0, ServerTask::Restart, Err(82)),
    (1, ISSUE, STOPPED),
];

/// The answer, or the number of the fault, of what sends nothing.
fn said(told: Result<Receipt, Fault>) -> Result<Answer, u8> {
    match told {
        Ok(told) => Ok(told.answer),
        Err(fault) => Err(fault.number()),
    }
}

/// A cell of server 3 with two seats, tried twice where memory runs out.
fn cell(alloc: Global) -> Option<(ServerCell<MemNotes>, Vec<Seat>)> {
    let notes = MemNotes::new(Vec::new(alloc));
    match ServerCell::new(alloc, ServerNo(3), notes, 2) {
        Ok(made) => Some(made),
        Err((notes, _)) => ServerCell::new(alloc, ServerNo(3), notes, 2).ok(),
    }
}

/// The first row that isn't answered so. A row for which memory runs out is asked again.
fn first_unlike<N: Notes + Drop>(
    cell: &mut ServerCell<N>,
    seats: &mut [Seat],
    rows: &[Row],
) -> Option<usize> {
    for (place, (number, task, answer)) in rows.iter().enumerate() {
        let Some(seat) = seats.get_mut(*number) else {
            return Some(place);
        };
        let mut told = said(cell.apply(seat, *task));
        if told == Err(Fault::NoMemory.number()) {
            told = said(cell.apply(seat, *task));
        }
        if told != *answer {
            return Some(place);
        }
    }
    None
}

/// Whether the entries are those of the rows: each of its row's seat, numbered from 0 on, and none sent a
/// frame.
fn are_entered(history: &History, rows: &[Row]) -> bool {
    let mut applied = [0u64; 2];
    if history.len() != rows.len() {
        return false;
    }
    for (at, (seat, _, _)) in rows.iter().enumerate() {
        let Some(number) = applied.get_mut(*seat) else {
            return false;
        };
        match history.get(at) {
            Some(entry) if is_turn(entry.as_entry(), *seat, *number) => {}
            _ => return false,
        }
        *number = number.saturating_add(1);
    }
    true
}

/// Whether an entry is this seat's turn of this number, which sent no frame.
fn is_turn(entry: &HistoryEntry, seat: usize, number: u64) -> bool {
    match entry.by {
        Some(turn) => {
            turn.seat as usize == seat && turn.number == number && entry.sent.len() == 0
        }
        None => false,
    }
}

/// Whether a new cell answers the rows, and its history has them.
fn power_is_kept(alloc: Global) -> bool {
    let Some((mut cell, mut seats)) = cell(alloc) else {
        return false;
    };
    first_unlike(&mut cell, seats.as_mut_slice(), &POWER).is_none()
        && are_entered(cell.history(), &POWER)
        && seats.iter().all(|seat| seat.applied() == 4)
}

#[test]
fn power_and_seats(rt: HostRuntime) {
    assert!(rt; power_is_kept(rt.alloc()));
}

/// Whether a seat is refused by WrongSeat, and neither it nor the history changes.
fn is_refused(cell: &mut ServerCell<MemNotes>, seat: &mut Seat) -> bool {
    let (entries, applied) = (cell.history().len(), seat.applied());
    said(cell.apply(seat, ISSUE)) == Err(93)
        && cell.history().len() == entries
        && seat.applied() == applied
}

/// Whether a cell takes this seat, refuses then its own of the same number, and takes the first again.
fn goes_by(cell: &mut ServerCell<MemNotes>, own: &mut Seat, other: &mut Seat) -> bool {
    said(cell.apply(other, ISSUE)) == STOPPED
        && is_refused(cell, own)
        && said(cell.apply(other, ISSUE)) == STOPPED
}

/// Whether it does so with a seat that another cell of its server gave.
fn goes_by_another(alloc: Global, first: &mut ServerCell<MemNotes>, own: &mut Seat) -> bool {
    let Some((_, mut others)) = cell(alloc) else {
        return false;
    };
    match others.get_mut(1) {
        Some(other) => goes_by(first, own, other),
        None => false,
    }
}

/// Whether a cell refuses its own seat, once one of that number that another cell gave has applied
/// something.
fn stale_seats_are_refused(alloc: Global) -> bool {
    let Some((mut first, mut own)) = cell(alloc) else {
        return false;
    };
    match own.get_mut(1) {
        Some(seat) => goes_by_another(alloc, &mut first, seat),
        None => false,
    }
}

#[test]
fn stale_seats(rt: HostRuntime) {
    assert!(rt; stale_seats_are_refused(rt.alloc()));
}

/// The boot of a server whose second save fails, once it is on again: `None` where a row isn't answered.
fn boot_after(alloc: Global, landed: bool) -> Option<u64> {
    let notes = FaultNotes::new(MemNotes::new(Vec::new(alloc)), 1, landed);
    match ServerCell::new(alloc, ServerNo(0), notes, 2) {
        Ok((mut cell, mut seats)) => boot_behind(&mut cell, seats.as_mut_slice()),
        Err(_) => None,
    }
}

/// Its boot behind the rows, where they are answered so and its history has them.
fn boot_behind(cell: &mut ServerCell<FaultNotes>, seats: &mut [Seat]) -> Option<u64> {
    if first_unlike(cell, seats, &LOST).is_some() || !are_entered(cell.history(), &LOST) {
        return None;
    }
    cell.server().map(|server| server.status().boot)
}

#[test]
fn restarts_that_fail(rt: HostRuntime) {
    assert!(rt; boot_after(rt.alloc(), false) == Some(2));
    assert!(rt; boot_after(rt.alloc(), true) == Some(3));
}
