//! The job of which the tests make theirs.

use fc_base::{JobNo, JobParts, Key, Kind, RunNo, ServerNo, Verify};

/// Whose it is.
pub const KEY: Key = Key {
    run: RunNo(1),
    server: ServerNo(0),
    job: JobNo(0),
};

/// A job that writes one block of a sector, once.
pub const ONE_WRITE: JobParts = JobParts {
    kind: Kind::Sequential,
    verify: Verify::Stamp,
    pattern: 0,
    bs: 512,
    blocks: 1,
    total: 1,
    seed: 1,
    depth: 1,
    window: 1,
};
