//! What no clause shows: that worlds, and scripts of them, answer as others computed it, line by line and frame by
//! frame, and that each call answers where memory is there.

mod ends;
mod frames;
mod lines;
mod looks;
mod played;
mod rows;
mod running;
mod same;
mod scripts;
mod spelling;
mod stories;
mod trouble;
mod walk;

use ends::{End, end_of_story};
use fc_base::ServerNo;
use messages::Node;
use played::{Change, Leaves, left, length_stopped, plays_as};
use std::alloc::{AllocGlobal, Global};
use std::process::Abort;
use std::test::Fail;
use stories::saves::{CUTS, CUTS_WITH_MIRROR, STOPS, STOPS_WITH_MIRROR, Whose};
use stories::{
    Story, copies, disks, mirror_refusals, mirrors, numbers, pieces, refusals, renewals, runs,
    stops,
};
use trouble::Trouble;
use walk::{first_unlike, world_of};

/// The scripts of these stories print their lines, with their statuses.
fn are_printed<R: Abort + AllocGlobal>(rt: &R, stories: &[Story]) -> Result<(), Fail> {
    for story in stories {
        let end = end_of_story(rt.alloc(), story)?;
        assert!(rt; end == End::Wanted, "{}: {end:?}", story.name);
    }
    Ok(())
}

/// Where a story isn't as it says.
#[derive(Clone, Copy, Debug)]
enum Difference {
    /// A row, and what trouble there was, if any.
    Row(usize, Option<Trouble>),
    /// What is played at once gives another world than its events one by one, or trouble.
    Played(Option<Trouble>),
}

/// Where a story isn't as it says: its events one by one, what the world shows between them, and all of it
/// played at once.
fn first_difference(alloc: Global, story: &Story) -> Option<Difference> {
    let mut world = match world_of(alloc, story.rows) {
        Ok(world) => world,
        Err(trouble) => return Some(Difference::Row(0, Some(trouble))),
    };
    if let Some((line, trouble)) = first_unlike(alloc, &mut world, story.rows) {
        return Some(Difference::Row(line, trouble));
    }
    match plays_as(alloc, story.rows, &world) {
        Ok(true) => None,
        Ok(false) => Some(Difference::Played(None)),
        Err(trouble) => Some(Difference::Played(Some(trouble))),
    }
}

/// These stories are printed by their scripts, and hold of their worlds.
fn are_told<R: Abort + AllocGlobal>(rt: &R, stories: &[Story]) -> Result<(), Fail> {
    for story in stories {
        let unlike = first_difference(rt.alloc(), story);
        assert!(rt; unlike.is_none(), "{}: {unlike:?}", story.name);
    }
    are_printed(rt, stories)
}

#[test]
fn runs_from_the_first_text_to_the_last_report(rt: HostRuntime) -> Result<(), Fail> {
    are_told(&rt, &runs::STORIES)
}

#[test]
fn nodes_that_stop_within_a_save(rt: HostRuntime) -> Result<(), Fail> {
    are_told(&rt, &stops::STORIES)
}

#[test]
fn what_is_refused(rt: HostRuntime) -> Result<(), Fail> {
    are_told(&rt, &refusals::STORIES)
}

#[test]
fn texts_in_pieces(rt: HostRuntime) -> Result<(), Fail> {
    are_told(&rt, &pieces::STORIES)
}

#[test]
fn numbers_that_a_cut_uses_up(rt: HostRuntime) -> Result<(), Fail> {
    are_told(&rt, &numbers::STORIES)
}

#[test]
fn disks_that_rot_and_tear(rt: HostRuntime) -> Result<(), Fail> {
    are_told(&rt, &disks::STORIES)
}

#[test]
fn notes_that_are_lost_and_come_back_from_a_mirror(rt: HostRuntime) -> Result<(), Fail> {
    are_told(&rt, &mirrors::STORIES)
}

#[test]
fn clients_that_are_renewed(rt: HostRuntime) -> Result<(), Fail> {
    are_told(&rt, &renewals::STORIES)
}

#[test]
fn copies_of_a_mirror(rt: HostRuntime) -> Result<(), Fail> {
    are_printed(&rt, &copies::STORIES)
}

#[test]
fn what_is_refused_of_a_mirror(rt: HostRuntime) -> Result<(), Fail> {
    are_printed(&rt, &mirror_refusals::STORIES)
}

/// The node whose save it would be.
fn node_of(whose: &Whose) -> Node {
    match whose {
        Whose::Server => Node::Server(ServerNo(0)),
        Whose::Client => Node::Client,
        Whose::Mirror => Node::Mirror,
    }
}

/// A story that is changed, and the run in it whose state is kept.
#[derive(Clone, Copy)]
struct Tried {
    rows: &'static str,
    run: u64,
}

fn stored_run() -> Tried {
    Tried {
        rows: runs::STORIES[0].rows,
        run: 1,
    }
}

fn fetched_run() -> Tried {
    Tried {
        rows: mirrors::STORIES[0].rows,
        run: 4_294_967_297,
    }
}

/// A change leaves this of a story.
fn leaves(
    rt: &(impl Abort + AllocGlobal),
    tried: &Tried,
    at: usize,
    change: Change,
    wanted: &Leaves,
) {
    let leaves = left(rt.alloc(), tried.rows, tried.run, change);
    assert!(rt; leaves == Ok(Some(*wanted)), "{at}: {leaves:?}");
}

/// What the stops of each command leave of a story.
fn stops_leave(rt: &(impl Abort + AllocGlobal), tried: &Tried, stops: &[(Whose, Leaves, Leaves)]) {
    for (at, (whose, before, behind)) in stops.iter().enumerate() {
        for (landed, wanted) in [(false, before), (true, behind)] {
            let node = node_of(whose);
            leaves(rt, tried, at, Change::Stop { at, landed, node }, wanted);
        }
    }
}

/// What the cuts at each place leave of a story. Those of the mirror change nothing: all that it says is in its
/// note, and where there is none, they are refused.
fn cuts_leave(rt: &(impl Abort + AllocGlobal), tried: &Tried, cuts: &[(Leaves, Leaves)]) {
    for (at, (server, client)) in cuts.iter().enumerate() {
        let mirror = &Leaves::Same;
        for (whose, wanted) in [
            (Whose::Server, server),
            (Whose::Client, client),
            (Whose::Mirror, mirror),
        ] {
            let node = node_of(&whose);
            leaves(rt, tried, at, Change::Cut { at, node }, wanted);
        }
    }
}

/// Wherever a node stops within a save of the stored run, the client keeps of its job the state that was
/// taken, or none; and what makes no save isn't stopped in one.
#[test]
fn a_stop_in_each_save(rt: HostRuntime) {
    stops_leave(&rt, &stored_run(), &STOPS);
}

/// A cut within a save has no save of its own to be cut in, and no list of events has one there.
#[test]
fn no_stop_in_a_stop(rt: HostRuntime) {
    for (command, wanted) in [
        ("deliver 0", Some(3)),
        ("cutold deliver 0", None),
        ("cutnew restart 0", None),
    ] {
        for landed in [false, true] {
            let length = length_stopped(rt.alloc(), command, landed);
            assert!(rt; length == Ok(wanted), "{command}: {length:?}");
        }
    }
}

/// Wherever a node of the stored run loses its power, and is started again, the client keeps of its job the
/// state that was taken, or none, and no report faults a block.
#[test]
fn a_cut_at_each_place(rt: HostRuntime) {
    cuts_leave(&rt, &stored_run(), &CUTS);
}

/// The same of a run whose client loses its note, and has the state back from the mirror.
#[test]
fn a_stop_in_each_save_with_a_mirror(rt: HostRuntime) {
    stops_leave(&rt, &fetched_run(), &STOPS_WITH_MIRROR);
}

#[test]
fn a_cut_at_each_place_with_a_mirror(rt: HostRuntime) {
    cuts_leave(&rt, &fetched_run(), &CUTS_WITH_MIRROR);
}
