//! The jobs of the stories, and what has to be taken of them.

use super::step::Taken;

/// Two writes of a sector each, to blocks 0 and 1, both of which may be in flight.
pub const TWO_WRITES: &[u8] = b"[a]\nrw=write\nbs=512\nsize=1k\niodepth=2\n";

/// Eight writes of a sector each, to as many blocks, all of which may be in flight: a worker takes four at once.
pub const EIGHT_WRITES: &[u8] = b"[a]\nrw=write\nbs=512\nsize=4k\niodepth=8\n";

/// Two jobs of two writes each, one in flight.
pub const TWO_JOBS: &[u8] = b"[global]\nrw=write\nbs=512\nsize=1k\n[a]\n[b]\n";

/// Two passes over two blocks, two writes in flight: what the second pass writes has to be found.
pub const TWO_PASSES: &[u8] = b"[a]\nrw=write\nbs=512\nsize=1k\nio_size=2k\niodepth=2\n";

/// Two jobs that have nothing in common: the second writes larger blocks, in another order, of one byte.
pub const UNLIKE_JOBS: &[u8] = b"\
[a]
rw=write
bs=512
size=1k
[b]
rw=randwrite
bs=1k
size=3k
verify=pattern
verify_pattern=0x5a
";

/// Two writes, which were found on their disk.
pub const SOUND: Taken = Taken {
    issued: 2,
    completed: 2,
    checked: 2,
    faults: 0,
};

/// Two writes, of which the second isn't done.
pub const FIRST: Taken = Taken {
    completed: 1,
    checked: 1,
    ..SOUND
};

/// Two writes to each of two blocks, of which the later were found.
pub const TWICE: Taken = Taken {
    issued: 4,
    completed: 4,
    ..SOUND
};

/// Three writes to three blocks.
pub const THREE: Taken = Taken {
    issued: 3,
    completed: 3,
    checked: 3,
    faults: 0,
};

/// Eight writes, which were found on their disk.
pub const EIGHT: Taken = Taken {
    issued: 8,
    completed: 8,
    checked: 8,
    faults: 0,
};

/// Four writes, of which one has failed.
pub const THREE_OF_FOUR: Taken = Taken { issued: 4, ..THREE };

/// One write, which was found on its disk.
pub const ONE: Taken = Taken { issued: 1, ..FIRST };

/// A write that isn't done.
pub const NO_WRITE: Taken = Taken {
    issued: 1,
    completed: 0,
    checked: 0,
    faults: 0,
};

/// Two writes, neither of which is done.
pub const NEITHER: Taken = Taken {
    issued: 2,
    ..NO_WRITE
};
