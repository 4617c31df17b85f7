//! What no clause shows: that workers carry out their writes, that two of them work at the same time, and
//! what a server knows of writes that fail.

mod gates;
mod hands;
mod jobs;
mod site;
mod step;

use fc_base::Fault;
use gates::Lets;
use hands::Ended;
use jobs::{
    EIGHT, EIGHT_WRITES, FIRST, NEITHER, NO_WRITE, ONE, SOUND, THREE, THREE_OF_FOUR, TWICE,
    TWO_JOBS, TWO_PASSES, TWO_WRITES, UNLIKE_JOBS,
};
use site::{NONE, Site, Workers};
use std::alloc::Global;
use std::sync::Wait;
use std::test::Fail;
use std::thread::Threads;
use step::Step;

/// How many workers a server has, which call of each job's disk fails, which writes the gate lets through, and
/// what happens.
struct Story {
    name: &'static str,
    workers: Workers,
    failing: &'static [u64],
    lets: Lets,
    steps: &'static [Step],
}

/// One worker of one job of two writes.
const ALONE: Story = Story {
    name: "",
    workers: Workers::One,
    failing: &[NONE],
    lets: Lets::Below(u64::MAX),
    steps: &[],
};

static STORIES: [Story; 15] = [
    // Its seat has applied two writes, their ends, and that the job has no more.
    Story {
        name: "two writes",
        steps: &[
            Step::Begin(TWO_WRITES),
            Step::Works(Ended::Finished, 5),
            Step::Trigger,
            Step::Takes(0, SOUND),
        ],
        ..ALONE
    },
    Story {
        name: "write 0 fails",
        failing: &[0],
        steps: &[
            Step::Begin(TWO_WRITES),
            Step::Works(Ended::Stopped, 3),
            Step::Trigger,
            Step::Takes(0, NO_WRITE),
        ],
        ..ALONE
    },
    Story {
        name: "write 1 fails",
        failing: &[1],
        steps: &[
            Step::Begin(TWO_WRITES),
            Step::Works(Ended::Stopped, 5),
            Step::Trigger,
            Step::Takes(0, FIRST),
        ],
        ..ALONE
    },
    // Four are asked for and told, twice over, and then it has no more.
    Story {
        name: "eight writes, four at once",
        lets: Lets::All,
        steps: &[
            Step::Begin(EIGHT_WRITES),
            Step::Works(Ended::Finished, 17),
            Step::Trigger,
            Step::Takes(0, EIGHT),
        ],
        ..ALONE
    },
    Story {
        name: "the second of four fails",
        failing: &[1],
        lets: Lets::All,
        steps: &[
            Step::Begin(EIGHT_WRITES),
            Step::Works(Ended::Stopped, 9),
            Step::Trigger,
            Step::Takes(0, THREE_OF_FOUR),
        ],
        ..ALONE
    },
    // The first is in hand until the second is done; then it is carried out with the next four.
    Story {
        name: "the first of four waits for the second",
        lets: Lets::Crosswise,
        steps: &[
            Step::Begin(EIGHT_WRITES),
            Step::Works(Ended::Finished, 17),
            Step::Trigger,
            Step::Takes(0, EIGHT),
        ],
        ..ALONE
    },
    // It asks for the second, since its gate refuses the first, and is told twice that there is no third.
    Story {
        name: "one worker, whose first write waits for the second",
        lets: Lets::Crosswise,
        steps: &[
            Step::Begin(TWO_WRITES),
            Step::Works(Ended::Finished, 6),
            Step::Trigger,
            Step::Takes(0, SOUND),
        ],
        ..ALONE
    },
    // It asks for the second, too, and is told that there is no third; both have failed then.
    Story {
        name: "a gate that never opens",
        lets: Lets::Below(0),
        steps: &[
            Step::Begin(TWO_WRITES),
            Step::Works(Ended::Refused(90), 5),
            Step::Trigger,
            Step::Takes(0, NEITHER),
        ],
        ..ALONE
    },
    Story {
        name: "a gate that opens for write 0 alone",
        lets: Lets::Below(1),
        steps: &[
            Step::Begin(TWO_WRITES),
            Step::Works(Ended::Refused(90), 5),
            Step::Trigger,
            Step::Takes(0, FIRST),
        ],
        ..ALONE
    },
    // Seven events are not of workers; each worker has asked once more than for its writes at least, and each
    // write was asked for and is done.
    Story {
        name: "two workers at once, one of whose writes waits for the other's",
        workers: Workers::Two,
        lets: Lets::Crosswise,
        steps: &[
            Step::Begin(TWO_WRITES),
            Step::WorkBoth(Ended::Finished),
            Step::Trigger,
            Step::DoneWrites(2),
            Step::Takes(0, SOUND),
            Step::HasEvents(13),
        ],
        ..ALONE
    },
    Story {
        name: "two jobs",
        failing: &[NONE, NONE],
        lets: Lets::All,
        steps: &[
            Step::Begin(TWO_JOBS),
            Step::Works(Ended::Finished, 10),
            Step::Trigger,
            Step::Takes(0, SOUND),
            Step::Takes(1, SOUND),
        ],
        ..ALONE
    },
    Story {
        name: "two passes",
        lets: Lets::All,
        steps: &[
            Step::Begin(TWO_PASSES),
            Step::Works(Ended::Finished, 9),
            Step::Trigger,
            Step::Takes(0, TWICE),
        ],
        ..ALONE
    },
    Story {
        name: "two jobs of unlike settings",
        failing: &[NONE, NONE],
        lets: Lets::All,
        steps: &[
            Step::Begin(UNLIKE_JOBS),
            Step::Works(Ended::Finished, 12),
            Step::Trigger,
            Step::Takes(0, SOUND),
            Step::Takes(1, THREE),
        ],
        ..ALONE
    },
    // The other worker has told it, so what this one tells is refused, and it goes on to no other.
    Story {
        name: "a write that another worker has told",
        workers: Workers::Two,
        lets: Lets::ToldBefore,
        steps: &[
            Step::Begin(TWO_WRITES),
            Step::Works(Ended::Refused(21), 2),
            Step::DoneWrites(1),
            Step::Trigger,
            Step::Takes(0, ONE),
        ],
        ..ALONE
    },
    Story {
        name: "a server that is off, and a seat of another server",
        lets: Lets::All,
        steps: &[
            Step::Cut,
            Step::Works(Ended::Off, 2),
            Step::StrangerWorks(Ended::Refused(93), 0),
        ],
        ..ALONE
    },
];

/// Whether a story goes so.
fn goes_so<R: Threads + Wait + Sync>(rt: &R, alloc: Global, story: &Story) -> Result<bool, Fault> {
    let mut site = Site::new(alloc, story.workers, story.failing, story.lets)?;
    site.all_hold(rt, story.steps)
}

/// Whether a story may be told once more: where memory ran out, and with two workers whatever came of it, since
/// a thread may have had none, and one thread alone waits for the gate until its turns are spent.
fn may_be_told_anew(story: &Story, told: Result<bool, Fault>) -> bool {
    match told {
        Ok(true) => false,
        Err(Fault::NoMemory) => true,
        _ => matches!(story.workers, Workers::Two),
    }
}

#[test]
fn stories(rt: HostRuntime) -> Result<(), Fail> {
    for story in &STORIES {
        let mut told = goes_so(&rt, rt.alloc(), story);
        if may_be_told_anew(story, told) {
            told = goes_so(&rt, rt.alloc(), story);
        }
        if told != Ok(true) {
            return Err(Fail::new(story.name));
        }
    }
    Ok(())
}
