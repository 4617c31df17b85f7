//! A stamp by its layout in the manual: run (8 bytes), server (4), job (4), number of the write
//! (8), block (8) and sector within the block (4), each high byte first, and then bytes that count
//! up from the write's number, modulo 256.

use std::alloc::Global;

/// The sectors of a block.
pub const SECTORS: usize = 4;

/// The numbers of a stamp.
#[derive(Clone, Copy, PartialEq, Eq)]
pub struct Stamped {
    pub run: u64,
    pub server: u32,
    pub job: u32,
    pub write: u64,
    pub block: u64,
    pub sector: u32,
}

impl Stamped {
    /// The first sector of a write, by its run, server, job, number and block.
    pub fn of(numbers: (u64, u32, u32, u64, u64)) -> Stamped {
        let (run, server, job, write, block) = numbers;
        Stamped {
            run,
            server,
            job,
            write,
            block,
            sector: 0,
        }
    }

    pub fn at(self, sector: u32) -> Stamped {
        Stamped { sector, ..self }
    }

    pub fn byte(&self, i: usize) -> u8 {
        match i {
            0..=7 => self.run.to_be_bytes()[i],
            8..=11 => self.server.to_be_bytes()[i - 8],
            12..=15 => self.job.to_be_bytes()[i - 12],
            16..=23 => self.write.to_be_bytes()[i - 16],
            24..=31 => self.block.to_be_bytes()[i - 24],
            32..=35 => self.sector.to_be_bytes()[i - 32],
            _ => (self.write.wrapping_add(i as u64).wrapping_sub(36) % 256) as u8,
        }
    }
}

/// What a sector is made of.
#[derive(Clone, Copy, PartialEq, Eq)]
pub enum Part {
    /// This byte over and over.
    Byte(u8),
    Stamp(Stamped),
    /// A stamp of which these bits of this byte are others.
    Changed(Stamped, usize, u8),
}

impl Part {
    pub fn byte(&self, i: usize) -> u8 {
        match self {
            Part::Byte(byte) => *byte,
            Part::Stamp(stamp) => stamp.byte(i),
            Part::Changed(stamp, at, bits) if i == *at => stamp.byte(i) ^ *bits,
            Part::Changed(stamp, _, _) => stamp.byte(i),
        }
    }
}

/// What stands in one sector of a block whose others are of write 6 to block 2.
#[derive(Clone, Copy)]
pub enum Odd {
    Byte(u8),
    /// The sector at that place of another write, by its run, number and block.
    Of(u64, u64, u64),
    /// The sector at this place of another write, likewise.
    Placed(u64, u64, u64, u32),
    /// The stamp with this number more of the sector.
    Moved(u32),
    /// The stamp with these bits of this byte changed.
    Changed(usize, u8),
}

impl Odd {
    /// What it is made of at that place.
    pub fn part(self, at: u32) -> Part {
        let own = Stamped::of((1, 0, 0, 6, 2));
        match self {
            Odd::Byte(byte) => Part::Byte(byte),
            Odd::Of(run, write, block) => Part::Stamp(Stamped::of((run, 0, 0, write, block)).at(
                at,
            )),
            Odd::Placed(run, write, block, place) => {
                Part::Stamp(Stamped::of((run, 0, 0, write, block)).at(place))
            }
            Odd::Moved(by) => Part::Stamp(own.at(at.wrapping_add(by))),
            Odd::Changed(i, bits) => Part::Changed(own.at(at), i, bits),
        }
    }
}

/// The bytes of these sectors.
pub fn spell(alloc: Global, parts: &[Part]) -> Option<Vec<u8>> {
    let mut bytes = Vec::new(alloc);
    for part in parts {
        for i in 0..512 {
            bytes.push(part.byte(i)).ok()?;
        }
    }
    Some(bytes)
}
