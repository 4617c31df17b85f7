//! What no clause shows: that a mirror answers as its rules say, with frames that are spelled here, and that
//! each call answers where memory is there.

mod changes;
mod full;
mod looks;
mod notes;
mod stories;
mod told;

use super::shared::{Failing, holds_note, sends_all, unlike_after, unlike_over};
use notes::NOTES;
use std::alloc::AllocGlobal;
use std::process::Abort;
use stories::{Story, copies, fetches, losses, refusals, worked};
use told::Told;

/// A mirror over blank notes answers the rows of each story.
fn are_answered(rt: &(impl Abort + AllocGlobal), stories: &[Story]) {
    for (name, rows) in stories {
        let unlike = unlike_over::<Told>(rt.alloc(), 1, "-", rows);
        assert!(rt; unlike.is_none(), "{name}: {unlike:?}");
    }
}

#[test]
fn frames_to_the_byte(rt: HostRuntime) {
    are_answered(&rt, &worked::STORIES);
}

#[test]
fn states_are_kept(rt: HostRuntime) {
    are_answered(&rt, &copies::STORIES);
    let unlike = unlike_over::<Told>(rt.alloc(), 1, "1 listed", copies::LISTED);
    assert!(rt; unlike.is_none(), "{unlike:?}");
}

#[test]
fn generations_are_granted(rt: HostRuntime) {
    are_answered(&rt, &fetches::STORIES);
}

#[test]
fn frames_are_refused(rt: HostRuntime) {
    are_answered(&rt, &refusals::STORIES);
}

#[test]
fn saves_that_fail(rt: HostRuntime) {
    for story in &losses::LOST_SAVES {
        let failing = Failing {
            at: story.at,
            landed: story.landed,
        };
        let unlike = unlike_after::<Told>(rt.alloc(), story.note, failing, story.rows);
        assert!(rt; unlike.is_none(), "{}: {unlike:?}", story.name);
    }
}

#[test]
fn a_full_table(rt: HostRuntime) {
    let full = full::holds(rt.alloc(), "full 1024", copies::FULL);
    assert!(rt; full == Ok(true));
    let fuller = full::holds(rt.alloc(), "full 1025", "");
    assert!(rt; fuller == Ok(false));
    let failing = full::fails(rt.alloc(), "full 1024", losses::FULL);
    assert!(rt; failing == Ok(true));
    let sent = sends_all::<Told>(rt.alloc(), "full 1024", 1_024, &full::FETCHED);
    assert!(rt; sent == Ok(true));
}

#[test]
fn notes_that_a_mirror_is_restarted_over(rt: HostRuntime) {
    for row in NOTES.lines() {
        let held = holds_note::<Told>(rt.alloc(), row);
        assert!(rt; held == Ok(true), "{row}: {held:?}");
    }
    assert!(rt; notes::comes_back(rt.alloc()));
}

#[test]
fn notes_that_are_cut_short(rt: HostRuntime) {
    let whole = changes::is_whole(rt.alloc(), notes::TWO);
    assert!(rt; whole == Ok(true), "{whole:?}");
}

#[test]
fn notes_that_are_changed(rt: HostRuntime) {
    let unlike = changes::unlike_field(rt.alloc(), notes::TWO);
    assert!(rt; unlike == Ok(None), "{unlike:?}");
}
