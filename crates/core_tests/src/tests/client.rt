//! What no clause shows: that a client answers as the manual and its rules say, with frames that others
//! computed, and that each call answers where memory is there.

mod calls;
mod changed_states;
mod changes;
mod looks;
mod notes;
mod opening;
mod stages;
mod stories;
mod told;
mod words;
mod written;

use super::shared::{
    Failing, NONE_FAILS, Trouble, holds_note, holds_once_on, sends_all, unlike_after, unlike_over,
};
use notes::NOTES;
use std::alloc::{AllocGlobal, Global};
use std::process::Abort;
use stories::stages::STAGES;
use stories::{
    LostSave, Story, begins, copies, elsewhere, grants, losses, lost_notes, numbers, pieces,
    renewals, states, stopped, triggers, verifies,
};
use told::Told;

/// A client of so many servers over blank notes answers the rows of each story.
fn are_answered(rt: &(impl Abort + AllocGlobal), servers: u32, stories: &[Story]) {
    for (name, rows) in stories {
        let unlike = unlike_over::<Told>(rt.alloc(), servers, "-", rows);
        assert!(rt; unlike.is_none(), "{name}: {unlike:?}");
    }
}

/// A client over blank notes answers the rows of each story, in which a save fails.
fn are_answered_after(rt: &(impl Abort + AllocGlobal), stories: &[LostSave]) {
    for story in stories {
        let failing = Failing {
            at: story.at,
            landed: story.landed,
        };
        let unlike = unlike_after::<Told>(rt.alloc(), "-", failing, story.rows);
        assert!(rt; unlike.is_none(), "{}: {unlike:?}", story.name);
    }
}

#[test]
fn frames_from_elsewhere(rt: HostRuntime) {
    are_answered(&rt, 1, &elsewhere::STORIES);
    are_answered_after(&rt, &stopped::LOST_SAVES);
}

#[test]
fn runs_begin(rt: HostRuntime) {
    are_answered(&rt, 1, &begins::STORIES);
    are_answered(&rt, 2, &begins::OF_TWO);
}

#[test]
fn numbers_are_given(rt: HostRuntime) {
    are_answered(&rt, 1, &numbers::STORIES);
    let note = "old 18446744073709551615 18446744073709551615";
    let unlike = unlike_over::<Told>(rt.alloc(), 1, note, numbers::SPENT);
    assert!(rt; unlike.is_none(), "{unlike:?}");
}

#[test]
fn runs_are_triggered_and_stopped(rt: HostRuntime) {
    are_answered(&rt, 1, &triggers::STORIES);
}

#[test]
fn runs_are_verified(rt: HostRuntime) {
    are_answered(&rt, 1, &verifies::STORIES);
}

#[test]
fn states_are_kept(rt: HostRuntime) {
    are_answered(&rt, 1, &states::STORIES);
    let unlike = unlike_over::<Told>(rt.alloc(), 1, "old 1 1 listed", states::LISTED);
    assert!(rt; unlike.is_none(), "{unlike:?}");
}

/// Whether a client is opened over this note, and then answers the rows.
fn holds_of(alloc: Global, note: &str, opening: &str, rows: &str) -> Result<bool, Trouble> {
    holds_once_on::<Told>(alloc, note, opening, NONE_FAILS, rows)
}

#[test]
fn a_full_table(rt: HostRuntime) {
    let full = holds_of(rt.alloc(), "full 1024", "restart", states::FULL);
    assert!(rt; full == Ok(true));
    let copied = holds_of(rt.alloc(), "full 1024", "restart mirror", copies::FULL);
    assert!(rt; copied == Ok(true));
    let fuller = holds_of(rt.alloc(), "full 1025", "restart", "");
    assert!(rt; fuller == Ok(false));
    let sent = sends_all::<Told>(rt.alloc(), "full 1024", 1_024, &copies::ASKED_AGAIN);
    assert!(rt; sent == Ok(true), "{sent:?}");
}

#[test]
fn lost_notes(rt: HostRuntime) {
    are_answered(&rt, 1, &lost_notes::STORIES);
}

#[test]
fn notes_that_begin_anew(rt: HostRuntime) {
    are_answered(&rt, 1, &renewals::STORIES);
    are_answered_after(&rt, &renewals::LOST_SAVES);
}

#[test]
fn generations_are_granted(rt: HostRuntime) {
    are_answered(&rt, 1, &grants::STORIES);
}

#[test]
fn states_are_copied(rt: HostRuntime) {
    are_answered(&rt, 1, &copies::STORIES);
    are_answered(&rt, 2, &copies::OF_TWO);
}

#[test]
fn states_in_pieces(rt: HostRuntime) {
    are_answered(&rt, 1, &pieces::STORIES);
}

#[test]
fn packets_in_each_stage(rt: HostRuntime) {
    let unlike = stages::unlike_in(rt.alloc(), &STAGES);
    assert!(rt; unlike.is_none(), "{unlike:?}");
}

#[test]
fn saves_that_fail(rt: HostRuntime) {
    are_answered_after(&rt, &losses::LOST_SAVES);
}

#[test]
fn notes_that_a_client_is_restarted_over(rt: HostRuntime) {
    for row in NOTES.lines() {
        let held = holds_note::<Told>(rt.alloc(), row);
        assert!(rt; held == Ok(true), "{row}: {held:?}");
    }
    assert!(rt; notes::come_back(rt.alloc()));
}

#[test]
fn notes_that_are_cut_short(rt: HostRuntime) {
    for words in [notes::TWO, notes::OLD_TWO] {
        let whole = changes::is_whole(rt.alloc(), words);
        assert!(rt; whole == Ok(true), "{words}: {whole:?}");
    }
}

#[test]
fn notes_that_are_changed(rt: HostRuntime) {
    let unlike = changes::unlike_field(rt.alloc(), notes::TWO);
    assert!(rt; unlike == Ok(None), "{unlike:?}");
}

#[test]
fn old_notes_that_are_changed(rt: HostRuntime) {
    let count = changes::changes_of(rt.alloc(), notes::OLD_TWO);
    assert!(rt; count == Ok(changes::OLD_CHANGES), "{count:?}");
}

#[test]
fn a_changed_state_of_a_kept_key(rt: HostRuntime) {
    let outcomes = changed_states::outcomes(rt.alloc());
    assert!(rt; outcomes == Ok(changed_states::OUTCOMES), "{outcomes:?}");
}
