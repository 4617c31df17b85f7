//! The check beside the plain one.

use super::plain::PlainCheck;
use super::{Given, JOB};
use fc_base::{JobParts, Kind, Seq};
use recheck::Verdict;
use std::alloc::Global;
use verify_state::VerifyState;
use write_order::place_of;

/// The writes that have completed, of 14 that were issued: 11 and 13 are in flight.
const COMPLETED: [Seq; 8] = [
    Seq(4),
    Seq(5),
    Seq(6),
    Seq(7),
    Seq(9),
    Seq(8),
    Seq(10),
    Seq(12),
];

impl Given {
    /// What the plain check by this state finds at a block that holds these bytes.
    fn plain_verdict(
        &self,
        alloc: Global,
        state: &VerifyState,
        block: u32,
        bytes: &[u8],
    ) -> Option<Verdict> {
        if bytes.len() != self.job.bs() as usize {
            return None;
        }
        match PlainCheck::new(alloc, self.key, &self.job, Some(state)) {
            Ok(plain) => Some(plain.verdict(block, bytes)),
            Err(_) => None,
        }
    }

    /// Whether both checks find the same at a block that holds the bytes of this write.
    fn is_same(&self, alloc: Global, state: &VerifyState, seq: u64, block: u32) -> Option<bool> {
        let bytes = self.bytes_of(alloc, seq, block)?;
        let plain = self.plain_verdict(alloc, state, block, &bytes)?;
        Some(self.verdict(alloc, state, block, &bytes)? == plain)
    }

    /// Whether both checks find the same at each block, with the bytes of each of the writes 0 to 16.
    fn are_same(&self, alloc: Global, state: &VerifyState) -> bool {
        for seq in 0..17u64 {
            for block in 0..8u32 {
                if self.is_same(alloc, state, seq, block) != Some(true) {
                    return false;
                }
            }
        }
        true
    }
}

/// Whether both do for a job of this kind, by the state of 14 of its writes.
fn are_same_for(alloc: Global, kind: Kind) -> Option<bool> {
    let given = Given::new(JobParts {
        kind,
        blocks: 8,
        total: 16,
        seed: 5,
        depth: 3,
        window: 4,
        ..JOB
    })?;
    let state = given.state_of(alloc, 14, place_of(&given.job, 14), &COMPLETED)?;
    Some(given.are_same(alloc, &state))
}

#[test]
fn random_orders(rt: HostRuntime) {
    for kind in [Kind::RandomMap, Kind::RandomFree] {
        assert!(rt; are_same_for(rt.alloc(), kind) == Some(true));
    }
}
