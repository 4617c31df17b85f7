//! What no clause of a fleet shows: that its threads do their work.

mod cut_off;
mod gates;
mod kinds;
mod replay;
mod story;
mod texts;

use fc_base::Fault;
use gates::{Always, Write};
use node_threads::{FleetFault, FleetLeft, OpenGate, run_and_leave};
use replay::sends_the_same;
use std::alloc::Global;
use std::sync::Wait;
use std::test::Fail;
use std::thread::Threads;
use story::{READING, Row, STORED, Story, WRITING, Wanted, goes_so};
use texts::{READING_OTHER, READING_UNLIKE, WRITING_TWO, WRITING_UNLIKE};

/// What comes of jobs of unlike settings at two servers: with seed 9 the eight writes of the last go to the blocks
/// 3, 0, 7, 3, 1, 2, 3 and 1, as another program told, which are five.
const UNLIKE_ENDS: &[Row] = &[
    (0, 0, Some(4)),
    (0, 1, Some(4)),
    (0, 2, Some(5)),
    (1, 0, Some(4)),
    (1, 1, Some(4)),
    (1, 2, Some(5)),
];

/// The first write waits for the second.
const REVERSED: &[(Write, Write)] = &[((0, 0), (0, 1))];

/// The second write of each server waits for the first of the other.
const CROSSWISE: &[(Write, Write)] = &[((0, 1), (1, 0)), ((1, 1), (0, 0))];

/// Each write waits for itself.
const SHUT: &[(Write, Write)] = &[
    ((0, 0), (0, 0)),
    ((0, 1), (0, 1)),
    ((1, 0), (1, 0)),
    ((1, 1), (1, 1)),
];

/// The end of each of the eight servers.
const EIGHT: &[Row] = &[
    (0, 0, Some(2)),
    (1, 0, Some(2)),
    (2, 0, Some(2)),
    (3, 0, Some(2)),
    (4, 0, Some(2)),
    (5, 0, Some(2)),
    (6, 0, Some(2)),
    (7, 0, Some(2)),
];

static STORIES: [Story; 8] = [
    STORED,
    // Two workers of one server: were there one, the first write would wait until its turns are spent.
    Story {
        name: "writes in the reverse order",
        servers: 1,
        waits: REVERSED,
        wanted: Wanted::Ends(&[(0, 0, Some(2))]),
        ..STORED
    },
    // One worker at each of two servers: one after the other, the first would wait in vain.
    Story {
        name: "writes that wait crosswise",
        workers: 1,
        waits: CROSSWISE,
        ..STORED
    },
    // Job 0 of each server fits its state, and job 1 is of another shape.
    Story {
        name: "a job of another shape",
        texts: (WRITING_TWO, READING_OTHER),
        wanted: Wanted::Ends(&[(0, 0, Some(2)), (0, 1, None), (1, 0, Some(2)), (1, 1, None)]),
        ..STORED
    },
    Story {
        name: "jobs of unlike settings",
        workers: 3,
        texts: (WRITING_UNLIKE, READING_UNLIKE),
        wanted: Wanted::Ends(UNLIKE_ENDS),
        ..STORED
    },
    // Whatever was completed by then is checked, and found.
    Story {
        name: "a trigger at the start",
        pulled: true,
        wanted: Wanted::Sound(2),
        ..STORED
    },
    Story {
        name: "the largest fleet",
        servers: 8,
        workers: 16,
        wanted: Wanted::Ends(EIGHT),
        ..STORED
    },
    Story {
        name: "a gate that stays shut",
        waits: SHUT,
        wanted: Wanted::Refused(Fault::TurnsSpent),
        ..STORED
    },
];

#[test]
fn stories(rt: HostRuntime) -> Result<(), Fail> {
    for story in &STORIES {
        if !goes_so(&rt, rt.alloc(), story) {
            return Err(Fail::new(story.name));
        }
    }
    Ok(())
}

/// A text that writes where one has to read, the other way round, and one that is too long.
static TEXTS: [Story; 3] = [
    Story {
        name: "both texts read",
        texts: (READING, READING),
        wanted: Wanted::Refused(Fault::BadJobs),
        ..STORED
    },
    Story {
        name: "both texts write",
        texts: (WRITING, WRITING),
        wanted: Wanted::Refused(Fault::BadJobs),
        ..STORED
    },
    Story {
        name: "a text that is too long",
        texts: (&[b'\n'; 16_385], READING),
        wanted: Wanted::Refused(Fault::JobTooLong),
        ..STORED
    },
];

#[test]
fn texts_that_are_refused(rt: HostRuntime) -> Result<(), Fail> {
    for story in &TEXTS {
        if !goes_so(&rt, rt.alloc(), story) {
            return Err(Fail::new(story.name));
        }
    }
    Ok(())
}

/// What is said of what is left of the stored run.
#[derive(Clone, Copy)]
enum Claim {
    /// At each of two servers Jobs, Start, Trigger, StateAck, Verify, Saved, and from each JobsOk, Started,
    /// State, WantState, Report: 22 frames. All seats come back, three of each server. Each worker has asked
    /// for the 16 jobs once more than for writes, each of the four writes was asked for and ended, and each
    /// server was cut and restarted.
    Counts,
    /// A world in which all events of both servers and of the client happen one after the other sends the same
    /// frames.
    World,
}

/// Whether this holds of what is left.
fn holds(alloc: Global, left: &FleetLeft, claim: Claim) -> Result<bool, Fault> {
    match claim {
        Claim::Counts => Ok(has_counts(left)),
        Claim::World => sends_the_same(alloc, left),
    }
}

fn has_counts(left: &FleetLeft) -> bool {
    let turns = turns(left);
    left.hub.len() == 22
        && left.servers.len() == 2
        && left.seats.len() == 6
        && turns == applied(left)
        && turns >= 76
}

/// How many events of the servers' histories came from seats.
fn turns(left: &FleetLeft) -> u64 {
    let mut turns: u64 = 0;
    for server in &left.servers {
        let history = server.history();
        for at in 0..history.len() {
            if history.at(at).as_entry().by.is_some() {
                turns = turns.saturating_add(1);
            }
        }
    }
    turns
}

/// How many events the seats have applied.
fn applied(left: &FleetLeft) -> u64 {
    let mut applied: u64 = 0;
    for seat in &left.seats {
        applied = applied.saturating_add(seat.applied());
    }
    applied
}

/// Whether this holds of what the stored run leaves.
fn leaves<R: Threads + Wait + Sync>(
    rt: &R,
    alloc: Global,
    claim: Claim,
) -> Result<bool, FleetFault> {
    let mut trigger = Always(false);
    let (ends, left) = run_and_leave(rt, alloc, 2, 2, WRITING, READING, &mut trigger, &OpenGate)?;
    drop(ends);
    let is_so = holds(alloc, &left, claim);
    drop(left);
    Ok(is_so?)
}

/// The same, told once more where memory runs out.
fn is_left<R: Threads + Wait + Sync>(rt: &R, alloc: Global, claim: Claim) -> bool {
    let is_so = match leaves(rt, alloc, claim) {
        Err(FleetFault::Refused(Fault::NoMemory)) => leaves(rt, alloc, claim),
        is_so => is_so,
    };
    matches!(is_so, Ok(true))
}

#[test]
fn what_is_left(rt: HostRuntime) {
    assert!(rt; is_left(&rt, rt.alloc(), Claim::Counts));
}

#[test]
fn one_list_of_events(rt: HostRuntime) {
    assert!(rt; is_left(&rt, rt.alloc(), Claim::World));
}

#[test]
fn what_a_fault_leaves_to_write_is_cut_off(rt: HostRuntime) {
    assert!(rt; cut_off::ends_before_all_is_written(&rt, rt.alloc()));
}

#[test]
fn checks_of_three_kinds(rt: HostRuntime) {
    assert!(rt; matches!(kinds::end_by_kind(&rt, rt.alloc()), Ok(true)));
}

#[test]
fn the_trigger_is_asked(rt: HostRuntime) {
    assert!(rt; matches!(kinds::is_asked(&rt, rt.alloc()), Ok(true)));
}
