//! Blocks made at random, told by how they were made.

ghost use Rattle.std.specs.Prelude.{◌<◌};

use super::layout::{Part, SECTORS, Stamped};
use super::rows::write_of;
use super::{JOB, check_of, is_told};
use diagnosis::Holds;
use fc_base::Seq;
use std::test::Fail;

/// Words, one after another.
#[derive(Drop)]
struct Words(u64);

impl Words {
    /// A number below this one.
    fn below(&mut self, limit: u64) -> u64
        requires { 0 < limit }
        ensures { result < limit }
    {
        self.0 = self
            .0
            .wrapping_mul(6_364_136_223_846_793_005)
            .wrapping_add(1);
        (self.0 >> 33) % limit
    }

    /// A stamp of few numbers, so that many are the wanted ones.
    fn stamp(&mut self) -> Stamped {
        Stamped {
            run: 1 + self.below(8) / 7,
            server: (self.below(8) / 7) as u32,
            job: (self.below(8) / 7) as u32,
            write: self.below(12),
            block: self.below(4),
            sector: 0,
        }
    }

    /// What a sector is made of: zeros, a stamp, or a stamp with a changed byte where it counts up.
    fn part(&mut self, at: u32) -> Part {
        let stamp = self.stamp().at(at);
        match self.below(8) {
            0 | 1 | 2 => Part::Byte(0),
            3 => Part::Changed(stamp, 36 + self.below(476) as usize, 1 << self.below(8)),
            _ => Part::Stamp(stamp),
        }
    }

    /// A stamp that may have another number than this one.
    fn near(&mut self, stamp: Stamped) -> Part {
        Part::Stamp(match self.below(12) {
            0 => Stamped { run: 2, ..stamp },
            1 => Stamped { server: 1, ..stamp },
            2 => Stamped { job: 1, ..stamp },
            3 => Stamped {
                block: self.below(4),
                ..stamp
            },
            4 => Stamped {
                sector: self.below(4) as u32,
                ..stamp
            },
            _ => stamp,
        })
    }

    /// Four sectors: of one write, or of one but for some numbers, or of any.
    fn parts(&mut self) -> [Part; SECTORS] {
        let stamp = self.stamp();
        match self.below(3) {
            0 => super::whole(stamp),
            1 => [
                self.near(stamp.at(0)),
                self.near(stamp.at(1)),
                self.near(stamp.at(2)),
                self.near(stamp.at(3)),
            ],
            _ => [self.part(0), self.part(1), self.part(2), self.part(3)],
        }
    }
}

/// How many of these sectors are changed stamps.
fn changed_stamps(parts: &[Part; SECTORS]) -> u32 {
    let mut count = 0u32;
    for part in parts {
        if let Part::Changed(_, _, _) = part {
            count = count.wrapping_add(1);
        }
    }
    count
}

/// Whether both are made of the same sectors.
fn are_same(parts: &[Part; SECTORS], others: &[Part; SECTORS]) -> bool {
    for i in 0..SECTORS {
        if parts[i] != others[i] {
            return false;
        }
    }
    true
}

/// What a block of these sectors holds, by how they were made.
fn made(block: u32, parts: &[Part; SECTORS]) -> Holds {
    let unknown = changed_stamps(parts);
    if unknown > 0 {
        return Holds::Corrupt(unknown);
    }
    if are_same(parts, &[Part::Byte(0); SECTORS]) {
        return Holds::Unwritten;
    }
    let [first, _, _, _] = *parts;
    match first {
        Part::Stamp(stamp) if are_same(parts, &super::whole(stamp.at(0))) => of_write(
            block,
            stamp.at(0),
        ),
        _ => of_several(block, parts),
    }
}

/// What a block of these sectors holds, which are not all of one write.
fn of_several(block: u32, parts: &[Part; SECTORS]) -> Holds {
    if is_near(block, parts) && !are_in_place(block, parts) {
        Holds::Corrupt(0)
    } else {
        Holds::Torn
    }
}

/// The last write to a block.
fn last_to(block: u32) -> u64 {
    u64::from(block % 4).wrapping_add(4)
}

/// Whether at most 16 bits of them are other than in a write that the block may hold.
fn is_near(block: u32, parts: &[Part; SECTORS]) -> bool {
    let last = last_to(block);
    bits_apart(block, parts, last) <= 16
        || (block < 2 && bits_apart(block, parts, last.wrapping_add(4)) <= 16)
}

/// How many bits are other than in that write of the job to the block.
fn bits_apart(block: u32, parts: &[Part; SECTORS], write: u64) -> u32 {
    let own = Stamped::of((1, 0, 0, write, u64::from(block)));
    let mut bits = 0u32;
    for at in 0..SECTORS {
        let sector = own.at(at as u32);
        for i in 0..512 {
            bits = bits.wrapping_add((parts[at].byte(i) ^ sector.byte(i)).count_ones());
        }
    }
    bits
}

/// Whether each is of a write of the job to the block that was issued, in its place.
fn are_in_place(block: u32, parts: &[Part; SECTORS]) -> bool {
    for at in 0..SECTORS {
        if !is_in_place(block, at as u32, parts[at]) {
            return false;
        }
    }
    true
}

fn is_in_place(block: u32, at: u32, part: Part) -> bool {
    let last = last_to(block);
    match part {
        Part::Stamp(stamp) => {
            stamp == Stamped::of((1, 0, 0, stamp.write, u64::from(block))).at(at)
                && (stamp.write <= last || (block < 2 && stamp.write == last.wrapping_add(4)))
        }
        _ => false,
    }
}

/// What a block holds that has the whole of this write.
fn of_write(block: u32, stamp: Stamped) -> Holds {
    let write = write_of(stamp);
    if stamp.run != 1 {
        Holds::OtherRun(write)
    } else if stamp.server != 0 || stamp.job != 0 || write.block != block {
        Holds::Misdirected(write)
    } else {
        own(stamp.write, last_to(block), block < 2)
    }
}

/// What a block holds that has this write of its job to it, where this one is the last that
/// completed, and the one after the next four is in flight or not.
fn own(write: u64, last: u64, in_flight: bool) -> Holds {
    if write == last || (in_flight && write == last.wrapping_add(4)) {
        Holds::Sound
    } else if write < last {
        Holds::Lost(Seq(write))
    } else {
        Holds::Unissued(Seq(write))
    }
}

#[test]
fn a_thousand_blocks(rt: HostRuntime) -> Result<(), Fail> {
    let alloc = rt.alloc();
    let Some(check) = check_of(alloc, JOB) else {
        return Err(Fail::new("check"));
    };
    let mut words = Words(1);
    for n in 0..1000 {
        let block = words.below(4) as u32;
        let parts = words.parts();
        if !is_told(alloc, &check, block, &parts, made(block, &parts)) {
            return Err(Fail::new(n));
        }
    }
    Ok(())
}
