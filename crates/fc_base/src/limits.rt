//! The limits of the product, each once: clauses and definitions name them.

/// How many bytes a job file has at the most.
pub const MAX_TEXT: usize = 16_384;

/// How many jobs a job file has at the most, copies counted; also one past the greatest
/// [`JobNo`](crate::JobNo), and how many files a server has.
pub const MAX_JOBS: u32 = 16;

/// How many servers there are at the most; also one past the greatest
/// [`ServerNo`](crate::ServerNo).
pub const MAX_SERVERS: u32 = 8;

/// How many workers a server has at the most.
pub const MAX_WORKERS: u32 = 16;

/// How many seats a server has at the most: one for each worker, and the post's.
pub const MAX_SEATS: u32 = MAX_WORKERS + 1;

/// How many bytes a block has at the most.
pub const MAX_BLOCK_SIZE: u32 = 65_536;

/// How many blocks a job's region has at the most; also one past the greatest number of a block.
pub const MAX_BLOCKS: u32 = 65_536;

/// How many writes a job has at the most; also one past the greatest [`Seq`](crate::Seq).
pub const MAX_WRITES: u64 = 1_000_000;

/// How many writes may be in flight at the most.
pub const MAX_DEPTH: u32 = 64;

/// How far writes may run ahead of one that isn't done at the most; also how many bits
/// [`Marks`](crate::Marks) have.
pub const MAX_WINDOW: u32 = 256;

/// How many faulty blocks a report lists at the most.
pub const MAX_LISTED: usize = 32;

/// The greatest [`Generation`](crate::Generation).
pub const MAX_GENERATION: u64 = 4_294_967_295;
