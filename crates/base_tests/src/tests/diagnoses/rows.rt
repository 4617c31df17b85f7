//! What blocks hold, by hand.

use super::layout::{Odd, Part, Stamped};
use diagnosis::{Holds, Write};
use fc_base::{JobNo, Key, RunNo, Seq, ServerNo};

/// What is told of a block.
#[derive(Clone, Copy)]
pub enum Told {
    Sound,
    Lost,
    Unissued,
    OtherRun,
    Misdirected,
    Unwritten,
    Filled(u8),
    Torn,
    Corrupt(u32),
}

impl Told {
    /// What is told, where the write that is named is this.
    pub fn of(self, stamp: Stamped) -> Holds {
        match self {
            Told::Sound => Holds::Sound,
            Told::Lost => Holds::Lost(Seq(stamp.write)),
            Told::Unissued => Holds::Unissued(Seq(stamp.write)),
            Told::OtherRun => Holds::OtherRun(write_of(stamp)),
            Told::Misdirected => Holds::Misdirected(write_of(stamp)),
            Told::Unwritten => Holds::Unwritten,
            Told::Filled(byte) => Holds::Filled(byte),
            Told::Torn => Holds::Torn,
            Told::Corrupt(sectors) => Holds::Corrupt(sectors),
        }
    }
}

/// The write that a stamp names.
pub fn write_of(stamp: Stamped) -> Write {
    Write {
        key: Key {
            run: RunNo(stamp.run),
            server: ServerNo(stamp.server),
            job: JobNo(stamp.job),
        },
        seq: Seq(stamp.write),
        block: (stamp.block % 0x1_0000_0000) as u32,
    }
}

/// A block, the write that it holds the whole of, by its run, server, job, number and block, and
/// what is told: the wanted write, both that may stand in block 0, older ones, one that was never
/// issued, those whose number is that of a write to another block, and writes of others.
pub static WHOLE: [(u32, (u64, u32, u32, u64, u64), Told); 16] = [
    (2, (1, 0, 0, 6, 2), Told::Sound),
    (0, (1, 0, 0, 4, 0), Told::Sound),
    (0, (1, 0, 0, 8, 0), Told::Sound),
    (2, (1, 0, 0, 2, 2), Told::Lost),
    (0, (1, 0, 0, 0, 0), Told::Lost),
    (2, (1, 0, 0, 5, 2), Told::Lost),
    (2, (1, 0, 0, 7, 2), Told::Unissued),
    (2, (1, 0, 0, 9, 2), Told::Unissued),
    (2, (1, 0, 0, 10, 2), Told::Unissued),
    (3, (1, 0, 0, 6, 2), Told::Misdirected),
    (2, (1, 0, 0, 6, 3), Told::Misdirected),
    (2, (1, 1, 0, 6, 2), Told::Misdirected),
    (2, (1, 0, 1, 6, 2), Told::Misdirected),
    (2, (2, 0, 0, 6, 2), Told::OtherRun),
    (2, (7, 3, 5, 1, 9), Told::OtherRun),
    // A block number of more than four bytes is none of a job's.
    (2, (1, 0, 0, 6, 0x1_0000_0002), Told::Corrupt(4)),
];

/// Whole writes in block 2 of a job of 12 writes to 4 blocks, by what their stamps say, at each
/// limit and past it: of servers, jobs, runs, blocks and writes. A stamp of another job, or of
/// another run, is within the limits of all jobs; and one of the job itself within that job.
pub static LIMITS: [((u64, u32, u32, u64, u64), Told); 17] = [
    ((1, 7, 0, 7, 2), Told::Misdirected),
    ((1, 8, 0, 7, 2), Told::Corrupt(4)),
    ((1, 0, 15, 7, 2), Told::Misdirected),
    ((1, 0, 16, 7, 2), Told::Corrupt(4)),
    ((0, 0, 0, 7, 2), Told::Corrupt(4)),
    ((u64::MAX, 0, 0, 7, 2), Told::OtherRun),
    ((1, 1, 0, 7, 65_535), Told::Misdirected),
    ((1, 1, 0, 7, 65_536), Told::Corrupt(4)),
    ((1, 0, 0, 7, 3), Told::Misdirected),
    ((1, 0, 0, 7, 4), Told::Corrupt(4)),
    ((2, 0, 0, 7, 4), Told::OtherRun),
    ((2, 0, 0, 999_999, 2), Told::OtherRun),
    ((2, 0, 0, 1_000_000, 2), Told::Corrupt(4)),
    ((1, 0, 1, 999_999, 2), Told::Misdirected),
    ((1, 0, 1, 1_000_000, 2), Told::Corrupt(4)),
    ((1, 0, 0, 11, 2), Told::Unissued),
    ((1, 0, 0, 12, 2), Told::Corrupt(4)),
];

/// One odd sector in block 2. By the layout, a changed number is another stamp, unless the bytes
/// behind it count up from that number, or there is no such stamp; and where it counts up, or in
/// the high half of the block, a changed byte is no stamp. What differs in few bits from the wanted
/// write is corrupt all the same.
pub static ODD: [(Odd, Told); 26] = [
    (Odd::Byte(0), Told::Torn),
    (Odd::Byte(0x5a), Told::Corrupt(1)),
    (Odd::Of(1, 2, 2), Told::Torn),
    (Odd::Of(1, 7, 3), Told::Torn),
    (Odd::Of(2, 5, 2), Told::Torn),
    (Odd::Of(2, 6, 2), Told::Corrupt(0)),
    // Sixteen bits of the run, seventeen, fifteen and one of the block, and sixteen and one.
    (Odd::Of(0xfffe, 6, 2), Told::Corrupt(0)),
    (Odd::Of(0x1_fffe, 6, 2), Told::Torn),
    (Odd::Of(0xfffc, 6, 3), Told::Corrupt(0)),
    (Odd::Of(0xfffe, 6, 3), Told::Torn),
    // The job has four sectors a block, and others at most 128.
    (Odd::Placed(1, 7, 2, 3), Told::Torn),
    (Odd::Placed(1, 7, 2, 4), Told::Corrupt(1)),
    (Odd::Placed(2, 7, 2, 4), Told::Torn),
    (Odd::Placed(2, 7, 2, 127), Told::Torn),
    (Odd::Placed(2, 7, 2, 128), Told::Corrupt(1)),
    (Odd::Moved(512), Told::Corrupt(1)),
    (Odd::Changed(0, 0x80), Told::Corrupt(0)),
    (Odd::Changed(8, 1), Told::Corrupt(1)),
    (Odd::Changed(15, 1), Told::Corrupt(0)),
    (Odd::Changed(22, 1), Told::Corrupt(1)),
    (Odd::Changed(23, 1), Told::Corrupt(1)),
    (Odd::Changed(24, 1), Told::Corrupt(1)),
    (Odd::Changed(28, 0x80), Told::Corrupt(1)),
    (Odd::Changed(35, 4), Told::Corrupt(1)),
    (Odd::Changed(36, 1), Told::Corrupt(1)),
    (Odd::Changed(511, 0x80), Told::Corrupt(1)),
];

/// Blocks of a job whose pattern is a5, by the byte that each sector is over and over.
pub static PATTERNS: [([u8; 4], Told); 8] = [
    ([0xa5, 0xa5, 0xa5, 0xa5], Told::Sound),
    ([0, 0, 0, 0], Told::Unwritten),
    ([0x5a, 0x5a, 0x5a, 0x5a], Told::Filled(0x5a)),
    ([0, 0xa5, 0xa5, 0xa5], Told::Torn),
    ([0xa5, 0xa5, 0, 0xa5], Told::Torn),
    ([0xa5, 0xa5, 0xa5, 0], Told::Torn),
    ([0xa5, 0x5a, 0xa5, 0xa5], Told::Corrupt(1)),
    ([0x5a, 0, 0xa5, 0xa6], Told::Corrupt(2)),
];

/// The sectors of such a block.
pub fn filled(bytes: [u8; 4]) -> [Part; 4] {
    let [a, b, c, d] = bytes;
    [Part::Byte(a), Part::Byte(b), Part::Byte(c), Part::Byte(d)]
}
