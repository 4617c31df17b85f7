//! What no clause shows: that the rules of the window are the manual's, and that it takes no memory.

mod beside;
mod plain;
mod step;

use engine::{Room, Window};
use fc_base::{MAX_DEPTH, MAX_WINDOW};
use std::alloc::Global;
use std::test::Fail;
use step::{Step, first_unlike};

/// A window by its depth and its length, and what happens to it.
struct Story {
    name: &'static str,
    limits: (u64, u64),
    steps: &'static [Step],
}

static STORIES: [Story; 5] = [
    Story {
        name: "completions out of order",
        limits: (3, 3),
        steps: &[
            Step::Issues(0, 3),
            Step::Completes(&[2, 1, 0]),
            Step::Issues(3, 5),
            Step::Completes(&[3, 4]),
            Step::Recalls(&[2, 1, 0, 3, 4]),
            Step::Issued(5),
            Step::Marks([7, 0, 0, 0]),
        ],
    },
    Story {
        name: "held by the window",
        limits: (2, 2),
        steps: &[
            Step::Issues(0, 2),
            Step::Room(Room::Depth),
            Step::Completes(&[1]),
            Step::Room(Room::Held),
            Step::Marks([2, 0, 0, 0]),
            Step::Completes(&[0]),
            Step::Issues(2, 3),
            Step::Marks([1, 0, 0, 0]),
        ],
    },
    // The floor is 44, so that 107 and 108 lie on both sides of a word's end, and 255 and 256, the last
    // slot and the first one, in the fourth word.
    Story {
        name: "marks across words",
        limits: (64, 256),
        steps: &[
            Step::Runs(0, 107, 0),
            Step::Issues(107, 109),
            Step::Runs(109, 255, 0),
            Step::Issues(255, 257),
            Step::Runs(257, 300, 0),
            Step::Issued(300),
            Step::Marks([!(1 << 63), !1, u64::MAX, !(3 << 19)]),
        ],
    },
    Story {
        name: "a failed write stays in flight",
        limits: (2, 2),
        steps: &[
            Step::Issues(0, 2),
            Step::Fails(0),
            Step::InFlight(0, true),
            Step::Room(Room::Depth),
            Step::Completes(&[1]),
            Step::InFlight(1, false),
            Step::Room(Room::Held),
            Step::Recalls(&[1]),
            Step::Refuses(0),
            Step::Refuses(1),
            Step::Refuses(2),
            Step::Refuses(u64::MAX),
            Step::Room(Room::Held),
            Step::Recalls(&[1]),
        ],
    },
    Story {
        name: "a million writes",
        limits: (64, 256),
        steps: &[
            Step::Runs(0, 1_000_000, 0),
            Step::RecallsFrom(999_488, 1_000_000),
        ],
    },
];

/// A window of these limits, which are some that it can have.
fn window_of(alloc: Global, limits: (u64, u64)) -> Option<Window> {
    let (depth, length) = limits;
    if depth < 1 || depth > u64::from(MAX_DEPTH) {
        return None;
    }
    if length < depth || length > u64::from(MAX_WINDOW) {
        return None;
    }
    Window::new(alloc, depth, length).ok()
}

/// Whether a story goes so.
fn goes_so(alloc: Global, story: &Story) -> bool {
    match window_of(alloc, story.limits) {
        Some(mut window) => first_unlike(&mut window, story.steps).is_none(),
        None => false,
    }
}

#[test]
fn stories(rt: HostRuntime) -> Result<(), Fail> {
    for story in &STORIES {
        if !goes_so(rt.alloc(), story) {
            return Err(Fail::new(story.name));
        }
    }
    Ok(())
}

static LONG: Story = Story {
    name: "no memory after the making",
    limits: (64, 256),
    steps: &[
        Step::Issues(0, 63),
        Step::Runs(0, 1_000, 63),
        Step::Fails(1_000),
        Step::Issued(1_063),
        Step::InFlight(1_062, true),
    ],
};

/// Also run with every allocation after the first refused.
#[test]
fn no_memory_after_the_making(rt: HostRuntime) {
    assert!(rt; goes_so(rt.alloc(), &LONG));
}
