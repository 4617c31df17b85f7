//! The numbers in the bodies of records.

ghost use Rattle.std.specs.Prelude.{◌≡◌, length};
ghost use Rattle.filters.specs.ServerChecks.{block_in};
ghost use Rattle.filters.specs.ServerLives.{write_in};

use fc_base::{Attempt, JobNo, RunNo, Seq, split_u32, split_u64};

/// Which write is told of.
#[derive(Clone, Copy, Debug)]
pub(crate) struct WriteName {
    pub run: RunNo,
    pub job: JobNo,
    pub seq: Seq,
}

/// The write of these 20 bytes; `None` where they are more or fewer.
pub(crate) fn write_name(bytes: &[u8]) -> Option<WriteName>
    ensures { result ≡ write_in bytes.now }
{
    if bytes.len() != 20 {
        return None;
    }
    let (run, rest) = split_u64(bytes);
    let (job, rest) = split_u32(rest);
    let (seq, _) = split_u64(rest);
    Some(WriteName {
        run: RunNo(run),
        job: JobNo(job),
        seq: Seq(seq),
    })
}

/// Which block of a check is told of, in a record of blocks that come or of one that can't be read.
#[derive(Clone, Copy, Debug)]
pub struct BlockName {
    /// The attempt of the check.
    pub attempt: Attempt,
    /// The job that is checked.
    pub job: JobNo,
    /// The block, counted from 0.
    pub block: u32,
}

/// How many bytes name a block of a check.
pub const BLOCK_NAME: usize = 16;

/// The block that these 16 bytes name.
pub(crate) fn block_name(bytes: &[u8]) -> BlockName
    requires { length bytes.now ≡ BLOCK_NAME }
    ensures { result ≡ block_in bytes.now }
{
    let (attempt, rest) = split_u64(bytes);
    let (job, rest) = split_u32(rest);
    let (block, _) = split_u32(rest);
    BlockName {
        attempt: Attempt(attempt),
        job: JobNo(job),
        block,
    }
}
