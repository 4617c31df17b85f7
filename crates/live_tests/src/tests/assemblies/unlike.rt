//! Plays after which the nodes and the hub are unlike.

use super::play::{Handed, Play, Step};
use super::plays::{FIRST, LOST, OWN};
use Step::*;

/// The client's number.
const CLIENT: u32 = 8;

/// What happens to a client of one server, over a note that was used or not; what is handed in; and the
/// node that is unlike then, and the place.
pub struct Case {
    pub is_used: bool,
    pub steps: &'static [Step],
    pub handed: Handed,
    pub node: u32,
    pub at: u64,
}

impl Case {
    pub fn play(&self) -> Play {
        Play {
            is_used: self.is_used,
            steps: self.steps,
            handed: self.handed,
            ..LOST
        }
    }
}

/// The second server's cell alone, with its seat.
const SECOND: Handed = Handed {
    servers: (1, 2),
    seat: 1,
    ..OWN
};

/// The first server in another life.
const TWIN: Handed = Handed {
    servers: (2, 3),
    ..FIRST
};

const TWIN_SEAT: Handed = Handed { seat: 2, ..FIRST };

const ELSEWHERE: Handed = Handed {
    elsewhere: true,
    ..FIRST
};

/// Plays, and what is unlike behind each.
pub static UNLIKE: [Case; 15] = [
    // The hub lacks the entry of the client's second event: the last, and with others behind it.
    Case {
        is_used: false,
        steps: &[Begin, TickElsewhere],
        handed: FIRST,
        node: CLIENT,
        at: 1,
    },
    Case {
        is_used: false,
        steps: &[Begin, TickElsewhere, ToServer(0), ToClient],
        handed: FIRST,
        node: CLIENT,
        at: 1,
    },
    // It has none at all, or those of another client's run.
    Case {
        is_used: false,
        steps: &[Begin],
        handed: ELSEWHERE,
        node: CLIENT,
        at: 0,
    },
    Case {
        is_used: false,
        steps: &[Begin, RivalBegins],
        handed: ELSEWHERE,
        node: CLIENT,
        at: 0,
    },
    // It has an entry of an event that wasn't: behind the last, of one that took nothing, a second time, of
    // a server that has no cell, and of a number that no server has.
    Case {
        is_used: false,
        steps: &[Begin, Forged(0, 5, 0)],
        handed: FIRST,
        node: 0,
        at: 5,
    },
    Case {
        is_used: false,
        steps: &[Begin, Issue(0), Forged(0, 0, 0)],
        handed: FIRST,
        node: 0,
        at: 0,
    },
    Case {
        is_used: false,
        steps: &[Begin, ToServer(0), Forged(0, 0, 0)],
        handed: FIRST,
        node: 0,
        at: 0,
    },
    Case {
        is_used: false,
        steps: &[Begin, ToServer(0), Forged(1, 0, 0)],
        handed: FIRST,
        node: 1,
        at: 0,
    },
    Case {
        is_used: false,
        steps: &[Begin, Forged(77, 3, 0)],
        handed: FIRST,
        node: 77,
        at: 3,
    },
    // It has the client's third and fourth entries in each other's place.
    Case {
        is_used: false,
        steps: &[
            Begin,
            ToServer(0),
            ToClient,
            RivalBeginsAlike,
            ToTwinElsewhere,
            ToClientElsewhere(1),
            ToClientElsewhere(1),
            Forged(CLIENT, 3, 1),
            Forged(CLIENT, 2, 1),
        ],
        handed: FIRST,
        node: CLIENT,
        at: 2,
    },
    // The cell is of another server; there are more than the client drives.
    Case {
        is_used: false,
        steps: &[],
        handed: SECOND,
        node: 0,
        at: 0,
    },
    Case {
        is_used: false,
        steps: &[],
        handed: OWN,
        node: CLIENT,
        at: 0,
    },
    // The seat has applied more than the history has, or less.
    Case {
        is_used: false,
        steps: &[Issue(0)],
        handed: TWIN,
        node: 0,
        at: 0,
    },
    Case {
        is_used: false,
        steps: &[Issue(0)],
        handed: TWIN_SEAT,
        node: 0,
        at: 0,
    },
    // The server's note said of a boot.
    Case {
        is_used: true,
        steps: &[],
        handed: FIRST,
        node: 0,
        at: 0,
    },
];
