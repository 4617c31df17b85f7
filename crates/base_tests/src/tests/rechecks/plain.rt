//! The plain check: the list of all issued writes with their blocks, looked through at each block.
//! The tests run it beside the other.

ghost use Rattle.std.specs.Prelude.{◌≡◌, IfOk, length};

use fc_base::{JobRecord, Key, Seq};
use recheck::Verdict;
use std::alloc::{AllocError, Global};
use verify_state::VerifyState;
use write_order::{Order, holds_write};

/// A write, its block, and whether it counts as completed.
#[derive(Clone, Copy)]
struct Issued {
    seq: Seq,
    block: u32,
    counts: bool,
}

/// A check of one job's blocks.
#[derive(Drop)]
pub struct PlainCheck {
    key: Key,
    job: JobRecord,
    writes: Vec<Issued>,
}

impl PlainCheck {
    pub fn new(
        alloc: Global,
        key: Key,
        job: &JobRecord,
        state: Option<&VerifyState>,
    ) -> Result<PlainCheck, AllocError>
        ensures { IfOk result (λ check. check.job ≡ job.now) }
    {
        let issued = match state {
            None => job.total(),
            Some(state) => state.issued().min(job.total()),
        };
        let mut writes = Vec::new(alloc);
        note_all(&mut writes, &mut Order::new(alloc, job)?, issued, state)?;
        Ok(PlainCheck {
            key,
            job: *job,
            writes,
        })
    }

    pub fn verdict(&self, block: u32, bytes: &[u8]) -> Verdict
        requires { length bytes.now ≡ self.now.job.bs }
    {
        let mut last = None;
        for issued in &self.writes {
            if issued.counts && issued.block == block {
                last = Some(issued.seq);
            }
        }
        let Some(last) = last else {
            return Verdict::Skipped;
        };
        for issued in &self.writes {
            let is_expected = !issued.counts || issued.seq == last;
            if is_expected
                && issued.block == block
                && holds_write(&self.key, &self.job, issued.seq, block, bytes)
            {
                return Verdict::Good;
            }
        }
        Verdict::Fault
    }
}

/// Notes the first so many writes, each with its block and whether it counts.
fn note_all(
    writes: &mut Vec<Issued>,
    order: &mut Order,
    issued: u64,
    state: Option<&VerifyState>,
) -> Result<(), AllocError> {
    for k in 0..issued {
        let Some(block) = order.peek() else {
            break;
        };
        let seq = Seq(k);
        let counts = match state {
            None => true,
            Some(state) => state.counts(seq),
        };
        writes.push(Issued { seq, block, counts })?;
        order.advance();
    }
    Ok(())
}
