//! What a block holds, whatever it has to hold.

use super::layout::{Odd, SECTORS, spell};
use super::rows::filled;
use super::{JOB, check_of};
use diagnosis::{Content, Write, content_of};
use fc_base::{JobNo, JobParts, Key, RunNo, Seq, ServerNo, Verify};
use recheck::Recheck;
use std::alloc::Global;
use std::test::Fail;

/// What a block holds, a write by its run, its number and its block.
#[derive(Clone, Copy)]
enum Held {
    Byte(u8),
    Whole(u64, u64, u32),
    Mixed(u32),
}

impl Held {
    fn content(self) -> Content {
        match self {
            Held::Byte(byte) => Content::Byte(byte),
            Held::Mixed(sectors) => Content::Mixed(sectors),
            Held::Whole(run, write, block) => Content::Whole(Write {
                key: Key {
                    run: RunNo(run),
                    server: ServerNo(0),
                    job: JobNo(0),
                },
                seq: Seq(write),
                block,
            }),
        }
    }
}

/// The sectors of a block, and what it holds. The job has 12 writes to 4 blocks.
static STAMPS: [([Odd; SECTORS], Held); 12] = [
    ([Odd::Byte(0); SECTORS], Held::Byte(0)),
    ([Odd::Byte(0x5a); SECTORS], Held::Byte(0x5a)),
    ([Odd::Byte(255); SECTORS], Held::Byte(255)),
    ([Odd::Moved(0); SECTORS], Held::Whole(1, 6, 2)),
    ([Odd::Of(9, 700, 30); SECTORS], Held::Whole(9, 700, 30)),
    // The job itself has no such write, and no run is 0.
    ([Odd::Of(1, 700, 30); SECTORS], Held::Mixed(4)),
    ([Odd::Of(0, 6, 2); SECTORS], Held::Mixed(4)),
    (
        [
            Odd::Moved(0),
            Odd::Moved(0),
            Odd::Byte(0),
            Odd::Of(9, 700, 30),
        ],
        Held::Mixed(0),
    ),
    (
        [
            Odd::Placed(1, 6, 2, 0),
            Odd::Placed(1, 6, 2, 0),
            Odd::Placed(1, 6, 2, 2),
            Odd::Placed(1, 6, 2, 3),
        ],
        Held::Mixed(0),
    ),
    (
        [
            Odd::Moved(0),
            Odd::Changed(40, 1),
            Odd::Moved(0),
            Odd::Moved(0),
        ],
        Held::Mixed(1),
    ),
    (
        [Odd::Byte(0), Odd::Byte(0), Odd::Byte(0), Odd::Byte(7)],
        Held::Mixed(1),
    ),
    (
        [Odd::Byte(7), Odd::Byte(8), Odd::Byte(0), Odd::Moved(0)],
        Held::Mixed(2),
    ),
];

/// What a block of these bytes holds, by this check.
fn content(check: &Recheck, bytes: &[u8]) -> Option<Content> {
    let expected = check.expected();
    if bytes.len() == expected.rec().bs() as usize {
        Some(content_of(expected, bytes))
    } else {
        None
    }
}

fn holds(alloc: Global, check: &Recheck, odd: [Odd; SECTORS]) -> Option<Content> {
    let [a, b, c, d] = odd;
    let bytes = spell(alloc, &[a.part(0), b.part(1), c.part(2), d.part(3)])?;
    content(check, &bytes)
}

#[test]
fn contents_of_stamped_blocks(rt: HostRuntime) -> Result<(), Fail> {
    let Some(check) = check_of(rt.alloc(), JOB) else {
        return Err(Fail::new("check"));
    };
    for (number, (odd, held)) in STAMPS.iter().enumerate() {
        if holds(rt.alloc(), &check, *odd) != Some(held.content()) {
            return Err(Fail::new(number));
        }
    }
    Ok(())
}

/// Blocks of a job whose pattern is a5, by the byte that each sector is over and over, and what they hold: no write,
/// since a pattern says none.
static PATTERNS: [([u8; 4], Held); 5] = [
    ([0xa5, 0xa5, 0xa5, 0xa5], Held::Byte(0xa5)),
    ([0, 0, 0, 0], Held::Byte(0)),
    ([0xa5, 0xa5, 0, 0xa5], Held::Mixed(0)),
    ([0xa5, 0x5a, 0xa5, 0], Held::Mixed(1)),
    ([1, 2, 3, 4], Held::Mixed(4)),
];

#[test]
fn contents_of_patterned_blocks(rt: HostRuntime) -> Result<(), Fail> {
    let alloc = rt.alloc();
    let pattern = JobParts {
        verify: Verify::Pattern,
        pattern: 0xa5,
        ..JOB
    };
    let Some(check) = check_of(alloc, pattern) else {
        return Err(Fail::new("check"));
    };
    for (number, (bytes, held)) in PATTERNS.iter().enumerate() {
        let Some(bytes) = spell(alloc, &filled(*bytes)) else {
            return Err(Fail::new("memory"));
        };
        if content(&check, &bytes) != Some(held.content()) {
            return Err(Fail::new(number));
        }
    }
    // A whole write of stamps is nothing that such a job knows.
    let stamps = holds(alloc, &check, [Odd::Moved(0); SECTORS]);
    assert!(rt; stamps == Some(Content::Mixed(4)));
    Ok(())
}
