//! What happens to a window, as data.

use engine::{Room, Window};
use fc_base::{Fault, Seq};

/// Calls of a window that have to answer so, or what has to hold of it.
#[derive(Clone, Copy)]
pub enum Step {
    /// The writes from the first number up to the second are issued.
    Issues(u64, u64),
    /// These writes complete, in this order.
    Completes(&'static [u64]),
    /// The writes from the first number up to the second complete in turn, each with the next so many in
    /// flight.
    Runs(u32, u32, u32),
    /// This write fails.
    Fails(u64),
    /// This write can neither complete nor fail, since it isn't open.
    Refuses(u64),
    Room(Room),
    Issued(u64),
    Marks([u64; 4]),
    /// Whether this write is in flight.
    InFlight(u64, bool),
    /// Just these writes are the last that completed, in this order.
    Recalls(&'static [u64]),
    /// The same of the writes from the first number up to the second.
    RecallsFrom(u64, u64),
}

impl Step {
    /// Takes the step, and tells whether the window goes so.
    fn holds(self, window: &mut Window) -> bool {
        match self {
            Step::Issues(first, end) => issues(window, first, end),
            Step::Completes(numbers) => completes(window, numbers),
            Step::Runs(first, end, ahead) => runs(window, first, end, ahead),
            Step::Fails(number) => fail(window, number) == Ok(()),
            Step::Refuses(number) => refuses(window, number),
            look => look.is_seen(window),
        }
    }

    /// Whether a window that is only looked at shows this.
    fn is_seen(self, window: &Window) -> bool {
        match self {
            Step::Room(room) => window.room() == room,
            Step::Issued(issued) => window.issued() == issued,
            Step::Marks(marks) => window.marks() == marks,
            Step::InFlight(number, answer) => window.is_in_flight(Seq(number)) == answer,
            Step::Recalls(numbers) => recalls(window, numbers),
            Step::RecallsFrom(first, end) => recalls_from(window, first, end),
            _ => false,
        }
    }
}

/// The first of these steps that a window goes otherwise.
pub fn first_unlike(window: &mut Window, steps: &[Step]) -> Option<usize> {
    for (i, step) in steps.iter().enumerate() {
        if !step.holds(window) {
            return Some(i);
        }
    }
    None
}

/// Issues the next write, where there is room for it.
pub fn issue(window: &mut Window) -> Option<Seq> {
    if window.room() != Room::Open || window.issued() >= 1_000_000 {
        return None;
    }
    Some(window.issue())
}

fn complete(window: &mut Window, number: u64) -> Result<(), Fault> {
    window.complete(Seq(number))
}

fn fail(window: &mut Window, number: u64) -> Result<(), Fault> {
    window.fail(Seq(number))
}

fn issues(window: &mut Window, first: u64, end: u64) -> bool {
    for number in first..end {
        if issue(window) != Some(Seq(number)) {
            return false;
        }
    }
    true
}

fn completes(window: &mut Window, numbers: &[u64]) -> bool {
    for number in numbers {
        if complete(window, *number) != Ok(()) {
            return false;
        }
    }
    true
}

fn refuses(window: &mut Window, number: u64) -> bool {
    complete(window, number) == Err(Fault::NotInFlight)
        && fail(window, number) == Err(Fault::NotInFlight)
}

fn runs(window: &mut Window, first: u32, end: u32, ahead: u32) -> bool {
    for number in u64::from(first)..u64::from(end) {
        let issued = issue(window);
        let answer = complete(window, number);
        if issued != Some(Seq(number + u64::from(ahead))) || answer != Ok(()) {
            return false;
        }
    }
    true
}

fn recalls(window: &Window, numbers: &[u64]) -> bool {
    match window.recent() {
        Ok(recent) => are_numbers(&recent, numbers),
        Err(_) => false,
    }
}

fn are_numbers(seqs: &[Seq], numbers: &[u64]) -> bool {
    seqs.len() == numbers.len()
        && seqs
            .iter()
            .zip(numbers)
            .all(|(seq, number)| seq.0 == *number)
}

fn recalls_from(window: &Window, first: u64, end: u64) -> bool {
    match window.recent() {
        Ok(recent) => count_up(&recent, first, end),
        Err(_) => false,
    }
}

/// Whether these numbers count up from `first` to `end`.
fn count_up(seqs: &[Seq], first: u64, end: u64) -> bool {
    let mut next = first;
    for seq in seqs {
        if seq.0 != next {
            return false;
        }
        next = next.wrapping_add(1);
    }
    next == end
}
