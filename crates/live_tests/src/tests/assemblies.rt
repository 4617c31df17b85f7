//! What no clause shows: that nodes which ran are assembled where memory is there, in the order that can be
//! counted by hand; and which node is told of, and which place, where they don't agree.

mod play;
mod players;
mod plays;
mod stage;
mod unlike;

use play::Play;
use plays::{LOST, LOST_ORDER, REPEATED, REPEATED_ORDER, RUN, RUN_ORDER};
use stage::outcome_of;
use std::test::Fail;
use unlike::UNLIKE;

/// A play, and the order of its events: their nodes, and the places in their histories.
struct Ordered {
    name: &'static str,
    play: Play,
    order: &'static [(u32, u64)],
}

static ORDERED: [Ordered; 4] = [
    Ordered {
        name: "a run of two servers",
        play: RUN,
        order: &RUN_ORDER,
    },
    Ordered {
        name: "a save that failed, with the old bytes",
        play: Play {
            failing: (1, false),
            ..LOST
        },
        order: &LOST_ORDER,
    },
    Ordered {
        name: "a save that failed, with the new bytes",
        play: Play {
            failing: (1, true),
            ..LOST
        },
        order: &LOST_ORDER,
    },
    Ordered {
        name: "entries put in by hand",
        play: REPEATED,
        order: &REPEATED_ORDER,
    },
];

#[test]
fn orders_of_plays(rt: HostRuntime) -> Result<(), Fail> {
    for row in &ORDERED {
        if !outcome_of(rt.alloc(), &row.play, row.order).is_order() {
            return Err(Fail::new(row.name));
        }
    }
    Ok(())
}

#[test]
fn nodes_that_are_unlike(rt: HostRuntime) -> Result<(), Fail> {
    for (i, case) in UNLIKE.iter().enumerate() {
        if !outcome_of(rt.alloc(), &case.play(), &[]).is_unlike(case.node, case.at) {
            return Err(Fail::new(i));
        }
    }
    Ok(())
}
