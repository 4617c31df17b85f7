//! What no clause shows: that a server answers as the manual and its tables say, with frames that
//! others computed, and that each call answers where memory is there.

mod calls;
mod changes;
mod looks;
mod lost;
mod notes;
mod stories;
mod told;
mod words;

use super::shared::{Failing, Life, Trouble, failing_notes, holds_note, unlike_after, unlike_over};
use lost::first_lost;
use notes::NOTES;
use std::alloc::{AllocGlobal, Global};
use std::process::Abort;
use stories::{LostSave, Story, checks, elsewhere, losses, pieces, runs, starts, states, triggers};
use told::Told;

/// A server over blank notes answers the rows of each story.
fn are_answered(rt: &(impl Abort + AllocGlobal), stories: &[Story]) {
    for (name, rows) in stories {
        let unlike = unlike_over::<Told>(rt.alloc(), 1, "-", rows);
        assert!(rt; unlike.is_none(), "{name}: {unlike:?}");
    }
}

/// A server over blank notes answers the rows of each story, in which a save fails.
fn are_answered_after(rt: &(impl Abort + AllocGlobal), stories: &[LostSave]) {
    for story in stories {
        let failing = Failing {
            at: story.at,
            landed: story.landed,
        };
        let unlike = unlike_after::<Told>(rt.alloc(), "-", failing, story.rows);
        assert!(rt; unlike.is_none(), "{}: {unlike:?}", story.name);
    }
}

#[test]
fn frames_from_elsewhere(rt: HostRuntime) {
    are_answered(&rt, &elsewhere::STORIES);
    are_answered(&rt, &states::STORIES);
    are_answered_after(&rt, &elsewhere::LOST_SAVES);
}

#[test]
fn runs_are_staged_and_started(rt: HostRuntime) {
    are_answered(&rt, &starts::STORIES);
}

#[test]
fn runs_are_taken_stopped_and_marked(rt: HostRuntime) {
    are_answered(&rt, &triggers::STORIES);
}

#[test]
fn what_workers_ask_and_tell(rt: HostRuntime) {
    are_answered(&rt, &runs::STORIES);
}

#[test]
fn runs_are_checked(rt: HostRuntime) {
    are_answered(&rt, &checks::STORIES);
}

#[test]
fn packets_in_pieces(rt: HostRuntime) {
    are_answered(&rt, &pieces::STORIES);
}

#[test]
fn saves_that_fail(rt: HostRuntime) {
    are_answered_after(&rt, &losses::LOST_SAVES);
}

/// Tells a story up to the save that fails: how often memory ran out, and whether the server is down over
/// that note.
fn tell_lost(alloc: Global, rows: &str, failing: Failing) -> (u32, Result<Option<bool>, Trouble>) {
    let notes = failing_notes(Vec::new(alloc), failing);
    let mut life = Life::new(alloc, 1, notes);
    let lost = first_lost(&mut life, alloc, rows, failing.landed);
    (life.end(), lost)
}

/// What a save of a story leaves, where it fails: whether the server is down over that note. Where memory ran
/// out, the story is told anew, as a save that finds none counts as one.
fn lost_at(alloc: Global, rows: &str, failing: Failing) -> Result<Option<bool>, Trouble> {
    let (wants, lost) = tell_lost(alloc, rows, failing);
    if wants == 1 {
        return tell_lost(alloc, rows, failing).1;
    }
    lost
}

/// How many saves of a story fail in turn, in one way.
fn lost_in_turn(alloc: Global, rows: &str, landed: bool) -> Result<u64, Trouble> {
    let mut count = 0;
    for at in 0..8 {
        match lost_at(alloc, rows, Failing { at, landed })? {
            Some(true) => count = at + 1,
            Some(false) => return Ok(0),
            None => return Ok(count),
        }
    }
    Ok(count)
}

/// Whether at least one save of a story fails in turn, in each way.
fn are_lost_in_turn(alloc: Global, rows: &str) -> Result<bool, Trouble> {
    let old = lost_in_turn(alloc, rows, false)?;
    let new = lost_in_turn(alloc, rows, true)?;
    Ok(old > 0 && new > 0)
}

#[test]
fn each_save_fails(rt: HostRuntime) {
    for (name, rows) in starts::STORIES.iter().chain(&triggers::STORIES) {
        let lost = are_lost_in_turn(rt.alloc(), rows);
        assert!(rt; lost == Ok(true), "{name}: {lost:?}");
    }
}

#[test]
fn notes_that_a_server_is_restarted_over(rt: HostRuntime) {
    for row in NOTES.lines() {
        let held = holds_note::<Told>(rt.alloc(), row);
        assert!(rt; held == Ok(true), "{row}: {held:?}");
    }
}

#[test]
fn notes_that_can_not_be_loaded(rt: HostRuntime) {
    assert!(rt; notes::come_back(rt.alloc()));
}

#[test]
fn a_note_that_is_cut_short_or_changed(rt: HostRuntime) {
    let whole = changes::is_whole(rt.alloc());
    assert!(rt; whole == Ok(true), "{whole:?}");
    let count = changes::changes(rt.alloc());
    assert!(rt; count == Ok(changes::CHANGES), "{count:?}");
}
