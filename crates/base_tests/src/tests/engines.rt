//! What no clause shows: that the rules of the engine are the manual's, and that its calls succeed
//! where memory is there.

mod step;

use super::jobs::{KEY, ONE_WRITE};
use engine::{Issue, Ticket};
use fc_base::{Fault, JobParts, JobRecord, Key, Kind, Seq, ServerNo};
use std::alloc::Global;
use std::process::Abort;
use std::test::Fail;
use step::{Step, copies_alike, first_unlike, goes_so, state_after};
use verify_state::VerifyState;

/// A sequential job of eight blocks, each written once.
const PARTS: JobParts = JobParts {
    blocks: 8,
    total: 8,
    depth: 3,
    window: 3,
    ..ONE_WRITE
};

/// A random job that writes its one block twice.
const ONE_BLOCK: JobParts = JobParts {
    kind: Kind::RandomMap,
    blocks: 1,
    total: 2,
    depth: 2,
    window: 2,
    ..PARTS
};

/// The first words of the generator of seed 1, computed by another program.
const WORDS: [u64; 5] = [
    0xcfc5_d07f_6f03_c29b,
    0xbf42_4132_963f_e08d,
    0x19a3_7d57_57aa_f520,
    0xbf08_119f_05cd_56d6,
    0x2f47_184b_8618_6fa4,
];

/// The ticket of write `seq` to `block`.
fn ticket(seq: u64, block: u32) -> Ticket {
    Ticket {
        boot: 3,
        key: KEY,
        seq: Seq(seq),
        block,
    }
}

/// Write `number` of a sequential job is issued.
fn issued(number: u32) -> Step {
    Step::Issue(Issue::Write(ticket(u64::from(number), number)))
}

/// Write `number` of a sequential job is done.
fn done(number: u32) -> Step {
    Step::Done(ticket(u64::from(number), number), Ok(()))
}

/// The ticket is refused when its write is said to be done.
fn refused(ticket: Ticket, fault: Fault) -> Step {
    Step::Done(ticket, Err(fault))
}

/// Whether a state has this floor, and marks of the next 64 writes alone: these.
fn has_marks(state: &VerifyState, floor: u64, word: u64) -> bool {
    state.floor() == floor && state.marks() == [word, 0, 0, 0]
}

#[test]
fn overlap_on_one_block(rt: HostRuntime) -> Result<(), Fail> {
    let steps = [
        issued(0),
        Step::Issue(Issue::Overlap),
        done(0),
        Step::Issue(Issue::Write(ticket(1, 0))),
        Step::Issue(Issue::Finished),
        Step::Ended(false),
        Step::Done(ticket(1, 0), Ok(())),
        Step::Ended(true),
    ];
    goes_so(rt.alloc(), ONE_BLOCK, &steps)
}

#[test]
fn overlap_without_a_map(rt: HostRuntime) -> Result<(), Fail> {
    let job = JobParts {
        kind: Kind::RandomFree,
        ..ONE_BLOCK
    };
    let steps = [issued(0), Step::Issue(Issue::Overlap)];
    let state = state_after(rt.alloc(), job, &steps)?;
    assert!(rt; state.issued() == 1 && state.completed() == 0 && has_marks(&state, 0, 0));
    assert!(rt; state.place().as_slice() == &WORDS[1..5]);
    Ok(())
}

/// Write 0 lies below the floor, so that it counts without a mark.
#[test]
fn torn_overwrite(rt: HostRuntime) -> Result<(), Fail> {
    let job = JobParts {
        kind: Kind::Sequential,
        depth: 1,
        window: 1,
        ..ONE_BLOCK
    };
    let steps = [issued(0), done(0), Step::Issue(Issue::Write(ticket(1, 0)))];
    let state = state_after(rt.alloc(), job, &steps)?;
    assert!(rt; state.issued() == 2 && has_marks(&state, 1, 0));
    assert!(rt; state.counts(Seq(0)) && !state.counts(Seq(1)));
    Ok(())
}

#[test]
fn trigger_before_any_issue(rt: HostRuntime) -> Result<(), Fail> {
    let state = state_after(rt.alloc(), PARTS, &[])?;
    assert!(rt; state.issued() == 0 && state.completed() == 0 && has_marks(&state, 0, 0));
    assert!(rt; state.place().as_slice() == &WORDS[0..4]);
    Ok(())
}

/// Write 0 is done, write 2 isn't issued, and write 1 is open until it fails.
#[test]
fn tickets_of_open_writes(rt: HostRuntime) -> Result<(), Fail> {
    let steps = [
        issued(0),
        issued(1),
        Step::OpenWrite(Seq(0), Some(ticket(0, 0))),
        done(0),
        Step::OpenWrite(Seq(0), None),
        Step::OpenWrite(Seq(1), Some(ticket(1, 1))),
        Step::OpenWrite(Seq(2), None),
        Step::Failed(ticket(1, 1), Ok(())),
        Step::OpenWrite(Seq(1), None),
    ];
    goes_so(rt.alloc(), PARTS, &steps)
}

#[test]
fn failed_write_stays_in_flight(rt: HostRuntime) -> Result<(), Fail> {
    let steps = [
        issued(0),
        issued(1),
        Step::Failed(ticket(0, 0), Ok(())),
        Step::Issue(Issue::Stopped),
        Step::OpenWrites(1),
        Step::Ended(false),
        done(1),
        refused(ticket(0, 0), Fault::NotInFlight),
        Step::Issue(Issue::Stopped),
        Step::Ended(true),
    ];
    let state = state_after(rt.alloc(), PARTS, &steps)?;
    assert!(rt; state.issued() == 2 && !state.counts(Seq(0)) && state.counts(Seq(1)));
    Ok(())
}

#[test]
fn tickets_that_name_no_open_write(rt: HostRuntime) -> Result<(), Fail> {
    let first = ticket(0, 0);
    let older = Ticket { boot: 2, ..first };
    let other_key = Key {
        server: ServerNo(1),
        ..KEY
    };
    let steps = [
        refused(first, Fault::NotInFlight),
        issued(0),
        refused(older, Fault::OldBoot),
        Step::Failed(Ticket { block: 1, ..older }, Err(Fault::OldBoot)),
        refused(
            Ticket {
                key: other_key,
                ..first
            },
            Fault::NotInFlight,
        ),
        Step::Failed(Ticket { block: 1, ..first }, Err(Fault::NotInFlight)),
        refused(ticket(1, 1), Fault::NotInFlight),
        done(0),
        refused(first, Fault::NotInFlight),
        Step::OpenWrites(0),
    ];
    assert_eq!(rt; first_unlike(rt.alloc(), PARTS, &steps)?, None);
    Ok(())
}

/// A state of `PARTS` with this list, before any word of the generator is used.
fn state_of(alloc: Global, issued: u64, list: &[Seq]) -> Option<VerifyState> {
    let rec = JobRecord::make(PARTS)?;
    let place = [WORDS[0], WORDS[1], WORDS[2], WORDS[3]];
    let list = Vec::from_slice(alloc, list).ok()?;
    VerifyState::make(KEY, &rec, issued, place, list).ok()
}

/// Whether a state is that of this list.
fn is_listed(alloc: Global, state: &VerifyState, issued: u64, list: &[Seq]) -> bool {
    match state_of(alloc, issued, list) {
        Some(listed) => state.same(&listed),
        None => false,
    }
}

#[test]
fn completions_out_of_order(rt: HostRuntime) -> Result<(), Fail> {
    let steps = [
        issued(0),
        issued(1),
        issued(2),
        done(2),
        done(1),
        done(0),
        issued(3),
        issued(4),
        done(3),
        done(4),
    ];
    let state = state_after(rt.alloc(), PARTS, &steps)?;
    let listed = [Seq(2), Seq(1), Seq(0), Seq(3), Seq(4)];
    assert!(rt; has_marks(&state, 2, 7) && is_listed(rt.alloc(), &state, 5, &listed));
    Ok(())
}

#[test]
fn first_reason_is_told(rt: HostRuntime) -> Result<(), Fail> {
    let job = JobParts {
        total: 3,
        depth: 2,
        window: 2,
        ..PARTS
    };
    let steps = [
        issued(0),
        issued(1),
        Step::Issue(Issue::Full),
        done(1),
        Step::Issue(Issue::Held),
        done(0),
        issued(2),
        Step::Issue(Issue::Finished),
        Step::Stop,
        Step::Issue(Issue::Stopped),
        Step::Ended(false),
        done(2),
        Step::Ended(true),
    ];
    goes_so(rt.alloc(), job, &steps)
}

#[test]
fn million_states_like_their_copies(rt: HostRuntime) -> Result<(), Fail> {
    let steps = [issued(0), issued(1), done(1)];
    assert!(rt; copies_alike(rt.alloc(), PARTS, &steps, 1_000_000)?);
    Ok(())
}
