//! Plays, and their events in the order that the journal gives.

use super::play::{Handed, Play, Step};
use Step::*;

/// The nodes' numbers.
const CLIENT: u32 = 8;

/// All that took part is handed in.
pub const OWN: Handed = Handed {
    elsewhere: false,
    servers: (0, 2),
    seat: 0,
};

/// The client and the first server.
pub const FIRST: Handed = Handed {
    servers: (0, 1),
    ..OWN
};

/// Two servers and their client: of the entries in the journal, three come behind what their node did
/// without the network, and each node has something left behind its last.
pub const RUN: Play = Play {
    servers: 2,
    failing: (u64::MAX, false),
    is_used: false,
    steps: &[
        Begin,
        ToServer(0),
        ToClient,
        ToServer(1),
        ToClient,
        Cut(0),
        Restart(0),
        Issue(1),
        ToServer(1),
        Done(1),
        CutClient,
        RestartClient,
        ToServer(0),
        Issue(0),
        Cut(1),
    ],
    handed: OWN,
};

/// Place 3 of the second server is a refusal, which stands in no list.
pub const RUN_ORDER: [(u32, u64); 14] = [
    (CLIENT, 0),
    (0, 0),
    (CLIENT, 1),
    (1, 0),
    (CLIENT, 2),
    (1, 1),
    (1, 2),
    (0, 1),
    (0, 2),
    (0, 3),
    (0, 4),
    (1, 4),
    (CLIENT, 3),
    (CLIENT, 4),
];

/// The server's save of the run's start fails, so that it is down: a request for a write is refused, and
/// it is started again.
pub const LOST: Play = Play {
    servers: 1,
    failing: (u64::MAX, false),
    is_used: false,
    steps: &[
        Begin,
        ToServer(0),
        ToClient,
        ToServer(0),
        Issue(0),
        Restart(0),
    ],
    handed: FIRST,
};

pub const LOST_ORDER: [(u32, u64); 5] = [(CLIENT, 0), (0, 0), (CLIENT, 1), (0, 1), (0, 3)];

/// A frame comes to the client twice more, from a hub elsewhere with the same frames: the entries of these
/// events are put into the journal by hand, in their order.
pub const REPEATED: Play = Play {
    steps: &[
        Begin,
        ToServer(0),
        ToClient,
        RivalBeginsAlike,
        ToTwinElsewhere,
        ToClientElsewhere(1),
        ToClientElsewhere(1),
        Forged(CLIENT, 2, 1),
        Forged(CLIENT, 3, 1),
    ],
    ..LOST
};

pub const REPEATED_ORDER: [(u32, u64); 5] = [
    (CLIENT, 0),
    (0, 0),
    (CLIENT, 1),
    (CLIENT, 2),
    (CLIENT, 3),
];
