//! The window beside the plain one.

use super::plain::PlainWindow;
use super::step::issue;
use super::window_of;
use engine::{Room, Window};
use fc_base::Seq;
use std::alloc::Global;
use std::test::Fail;

/// Issues the next write, where there is room for it.
fn issue_plain(plain: &mut PlainWindow) -> Option<Seq> {
    if plain.room() != Room::Open || plain.issued() >= 1_000_000 {
        return None;
    }
    Some(plain.issue())
}

/// Whether just the numbers are marked that the plain window's lists say have completed.
fn marks_alike(window: &Window, plain: &PlainWindow, length: u64) -> bool {
    let marks = window.marks();
    let issued = plain.issued();
    for bit in 0..256_usize {
        let number = issued.saturating_sub(length).saturating_add(bit as u64);
        let is_done = number < issued && !plain.is_in_flight(Seq(number));
        if is_done != ((marks[bit / 64] >> (bit % 64)) & 1 == 1) {
            return false;
        }
    }
    true
}

/// Whether both windows answer a step at random alike.
fn answer_alike(window: &mut Window, plain: &mut PlainWindow, seq: Seq, choice: u64) -> bool {
    if choice % 64 == 0 {
        window.fail(seq) == plain.fail(seq)
    } else if choice % 2 == 0 {
        window.complete(seq) == plain.complete(seq)
    } else {
        issue(window) == issue_plain(plain)
    }
}

/// Whether both windows show the same, of one write and of all.
fn show_alike(window: &Window, plain: &PlainWindow, seq: Seq) -> bool {
    window.room() == plain.room()
        && window.issued() == plain.issued()
        && window.is_in_flight(seq) == plain.is_in_flight(seq)
}

/// Whether both windows answer alike to a step at random, and after it.
fn step_alike(window: &mut Window, plain: &mut PlainWindow, word: u64) -> bool {
    let seq = Seq(window.issued().saturating_sub((word >> 40) % 9));
    answer_alike(window, plain, seq, word >> 33) && show_alike(window, plain, seq)
}

fn recall_alike(window: &Window, plain: &PlainWindow) -> bool {
    match (window.recent(), plain.recent()) {
        (Ok(recent), Ok(wanted)) => recent.as_slice() == wanted.as_slice(),
        _ => false,
    }
}

/// Whether both windows answer alike after each of 200 steps at random.
fn run_alike(window: &mut Window, plain: &mut PlainWindow, limits: (u64, u64)) -> bool {
    let (mut word, length) = limits;
    for _ in 0..200 {
        word = word.wrapping_mul(6_364_136_223_846_793_005).wrapping_add(1);
        if !step_alike(window, plain, word) || !marks_alike(window, plain, length) {
            return false;
        }
    }
    recall_alike(window, plain)
}

/// Whether windows of these limits do.
fn are_alike(alloc: Global, limits: (u64, u64)) -> bool {
    let mut plain = PlainWindow::new(alloc, limits.0, limits.1);
    match window_of(alloc, limits) {
        Some(mut window) => run_alike(&mut window, &mut plain, limits),
        None => false,
    }
}

static LIMITS: [(u64, u64); 6] = [(1, 1), (2, 2), (3, 5), (4, 64), (8, 8), (64, 256)];

#[test]
fn both_bodies_side_by_side(rt: HostRuntime) -> Result<(), Fail> {
    for limits in &LIMITS {
        if !are_alike(rt.alloc(), *limits) {
            return Err(Fail::new(limits.0));
        }
    }
    Ok(())
}
