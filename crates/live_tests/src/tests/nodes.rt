//! What no clause shows: that nodes under locks answer where memory is there, and send the frames that
//! others computed.

mod frames;
mod rows;
mod stage;

use frames::{BEFORE_ITS_SAVE, BEHIND_ITS_SAVE, JOURNAL, STORED_RUN};
use rows::{STATES, STOPPED_BEFORE, STOPPED_BEHIND, STORED};
use stage::{Outcome, Story, told};

/// No save fails.
const SOUND: (u64, bool) = (u64::MAX, false);

#[test]
fn the_stored_run(rt: HostRuntime) {
    let story = Story {
        failing: SOUND,
        rows: &STORED,
        frames: &STORED_RUN,
    };
    let outcome = told(rt.alloc(), story);
    let wanted = Outcome {
        rows: STORED.len(),
        frames: STORED_RUN.len(),
        lines: JOURNAL.len(),
        histories: (8, 15),
        turns: (4, 4),
    };
    assert!(rt; outcome == Some(wanted), "{outcome:?}");
}

#[test]
fn a_start_whose_save_fails(rt: HostRuntime) {
    let before = Story {
        failing: (1, false),
        rows: &STOPPED_BEFORE,
        frames: &BEFORE_ITS_SAVE,
    };
    let behind = Story {
        failing: (1, true),
        rows: &STOPPED_BEHIND,
        frames: &BEHIND_ITS_SAVE,
    };
    for story in [before, behind] {
        let outcome = told(rt.alloc(), story).map(|o| (o.rows, o.frames));
        assert!(rt;
            outcome == Some((story.rows.len(), story.frames.len())),
            "{outcome:?}"
        );
    }
}

#[test]
fn each_event_of_nodes_on_and_off(rt: HostRuntime) {
    let story = Story {
        failing: SOUND,
        rows: &STATES,
        frames: &[],
    };
    let rows = told(rt.alloc(), story).map(|o| o.rows);
    assert!(rt; rows == Some(STATES.len()), "{rows:?}");
}
