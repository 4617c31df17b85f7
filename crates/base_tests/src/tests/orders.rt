//! What no clause shows: that the definitions give the values that others computed, and that each
//! call answers with ample memory.

mod vectors;

use super::jobs::{KEY, ONE_WRITE};
use fc_base::{JobNo, JobParts, JobRecord, Key, Kind, RunNo, Seq, ServerNo, Verify};
use std::alloc::{AllocError, Global};
use std::test::Fail;
use vectors::{BLOCKS, FRONTS, Front, PLACES, WORDS};
use write_order::{Order, fill_block, holds_write, pick_blocks, place_of};

const JOB: JobParts = JobParts {
    blocks: 4,
    total: 6,
    ..ONE_WRITE
};

fn job(kind: Kind, seed: u64, blocks: u64, total: u64) -> Option<JobRecord> {
    JobRecord::make(JobParts {
        kind,
        seed,
        blocks,
        total,
        ..JOB
    })
}

/// Whether these are the first words of a seed's generator.
fn has_words(seed: u64, words: [u64; 8]) -> bool {
    let Some(rec) = job(Kind::RandomFree, seed, 4, 6) else {
        return false;
    };
    let [a, b, c, d] = place_of(&rec, 0);
    let [e, f, g, h] = place_of(&rec, 4);
    [a, b, c, d, e, f, g, h] == words
}

#[test]
fn words_of_the_generator(_rt: HostRuntime) -> Result<(), Fail> {
    for (seed, words) in &WORDS {
        if !has_words(*seed, *words) {
            return Err(Fail::new(*seed));
        }
    }
    Ok(())
}

/// Whether this is the place after `n` writes.
fn has_place(kind: Kind, seed: u64, n: u64, place: [u64; 4]) -> bool {
    match job(kind, seed, 7, 1_000_000) {
        Some(rec) => place_of(&rec, n) == place,
        None => false,
    }
}

/// Whether this is the place after `n` writes of either random order.
fn have_place(seed: u64, n: u64, place: [u64; 4]) -> bool {
    has_place(Kind::RandomMap, seed, n, place) && has_place(Kind::RandomFree, seed, n, place)
}

#[test]
fn places_after_writes(rt: HostRuntime) -> Result<(), Fail> {
    for (row, (seed, n, place)) in PLACES.iter().enumerate() {
        if !have_place(*seed, *n, *place) {
            return Err(Fail::new(row));
        }
    }
    assert!(rt; has_place(Kind::Sequential, 1, 5, PLACES[0].2));
    Ok(())
}

/// Whether the next write goes to this block, and the generator stands where it has to.
fn goes_to(order: &mut Order, rec: &JobRecord, block: u32) -> bool {
    if order.peek() != Some(block) || order.place() != place_of(rec, order.issued()) {
        return false;
    }
    order.advance();
    true
}

/// Whether the writes that are left go to just these blocks, in this order.
fn goes_on<T: Copy + Into<u32>>(order: &mut Order, rec: &JobRecord, written: &[T]) -> bool {
    for block in written {
        if !goes_to(order, rec, (*block).into()) {
            return false;
        }
    }
    order.peek().is_none() && order.issued() == rec.total()
}

/// Whether a job writes to just these blocks, in this order.
fn follows<T: Copy + Into<u32>>(alloc: Global, rec: &JobRecord, written: &[T]) -> bool {
    match Order::new(alloc, rec) {
        Ok(mut order) => goes_on(&mut order, rec, written),
        Err(_) => false,
    }
}

/// The same of a job of as many writes.
fn follow(alloc: Global, kind: Kind, seed: u64, blocks: u64, written: &[u8]) -> bool {
    match job(kind, seed, blocks, written.len() as u64) {
        Some(rec) => follows(alloc, &rec, written),
        None => false,
    }
}

#[test]
fn blocks_of_the_three_orders(rt: HostRuntime) -> Result<(), Fail> {
    for (kind, seed, blocks, written) in &BLOCKS {
        if !follow(rt.alloc(), *kind, *seed, *blocks, written) {
            return Err(Fail::new(*blocks));
        }
    }
    Ok(())
}

#[test]
fn two_passes_by_io_size(rt: HostRuntime) {
    let written = b"\x00\x01\x02\x03\x00\x01";
    assert!(rt; follow(rt.alloc(), Kind::Sequential, 1, 4, written));
}

/// Whether these words pick these blocks of four.
fn picks(alloc: Global, words: &[u64], map: bool, blocks: &[u32]) -> bool {
    match pick_blocks(alloc, words, 4, map) {
        Ok(picked) => picked.as_slice() == blocks,
        Err(_) => false,
    }
}

#[test]
fn picked_blocks(rt: HostRuntime) {
    let words = [7, 5, 3, 9, 2, 6];
    assert!(rt; picks(rt.alloc(), &words, true, &[3, 2, 1, 0, 2, 0]));
    assert!(rt; picks(rt.alloc(), &words, false, &[3, 1, 3, 1, 2, 2]));
}

/// The words that the writes of a random job use up.
fn words_of(alloc: Global, rec: &JobRecord) -> Result<Vec<u64>, AllocError> {
    let mut words = Vec::new(alloc);
    for n in 0..rec.total() {
        words.push(place_of(rec, n)[0])?;
    }
    Ok(words)
}

/// Whether a random job writes to the blocks that `pick_blocks` picks.
fn follows_picks(alloc: Global, kind: Kind) -> Option<bool> {
    let rec = job(kind, 42, 100, 300)?;
    let words = words_of(alloc, &rec).ok()?;
    let picked = pick_blocks(alloc, &words, 100, kind == Kind::RandomMap).ok()?;
    Some(follows(alloc, &rec, &picked))
}

#[test]
fn order_beside_pick_blocks(rt: HostRuntime) {
    assert!(rt; follows_picks(rt.alloc(), Kind::RandomMap) == Some(true));
    assert!(rt; follows_picks(rt.alloc(), Kind::RandomFree) == Some(true));
}

/// Whether the block of a write begins and ends with these bytes, where the block has one sector.
fn is_framed(rec: &JobRecord, seq: u64, block: u32, front: &[u8], back: &[u8]) -> bool {
    let mut bytes = [0xff; 512];
    if rec.bs() != 512 {
        return false;
    }
    fill_block(KEY, rec, Seq(seq), block, &mut bytes);
    bytes.starts_with(front) && bytes.ends_with(back)
}

/// The first bytes of a stamp, of write 5 to block 1.
static STAMP: [u8; 40] =
    *b"\x00\x00\x00\x00\x00\x00\x00\x01\x00\x00\x00\x00\x00\x00\x00\x00\x00\x00\x00\x00\
          \x00\x00\x00\x05\x00\x00\x00\x00\x00\x00\x00\x01\x00\x00\x00\x00\x05\x06\x07\x08";

#[test]
fn bytes_of_a_stamp(rt: HostRuntime) {
    let framed = match JobRecord::make(JOB) {
        Some(rec) => is_framed(&rec, 5, 1, &STAMP, b"\xdd\xde\xdf\xe0"),
        None => false,
    };
    assert!(rt; framed);
}

/// Whether bytes count up from this one, modulo 256.
fn count_up(bytes: &[u8], first: u8) -> bool {
    for (i, byte) in bytes.iter().enumerate() {
        if usize::from(*byte) != (usize::from(first) + i % 256) % 256 {
            return false;
        }
    }
    true
}

/// Whether a sector is stamped, where the first of its block begins with `front`.
fn is_stamped(sector: &[u8], number: u32, front: &[u8]) -> bool {
    if sector.len() != 512 || front.len() != 40 {
        return false;
    }
    let (fields, _) = front.split_at(32);
    sector.starts_with(fields)
        && sector[32..].starts_with(&number.to_be_bytes())
        && count_up(&sector[36..], front[36])
}

/// Whether each sector of a block is stamped, where the block begins with `front`.
fn is_full_of_stamps(bytes: &[u8], front: &[u8]) -> bool {
    let mut number = 0;
    for sector in bytes.chunks(512) {
        if !is_stamped(sector, number, front) {
            return false;
        }
        number = number.wrapping_add(1);
    }
    true
}

/// Whether the bytes of a block are those of a write whose first bytes are `front`.
fn is_filled(rec: &JobRecord, bytes: &[u8], front: &[u8]) -> bool {
    let parts = rec.parts();
    let is_full = match parts.verify {
        Verify::Pattern => bytes.iter().all(|byte| *byte == parts.pattern),
        Verify::Stamp => is_full_of_stamps(bytes, front),
    };
    is_full && bytes.starts_with(front)
}

/// Whether a write fills its block as its row has it. There is room for the largest.
fn fills(row: &Front, room: &mut [u8]) -> bool {
    let ((run, server, job), verify, pattern, bs, seq, block, front) = *row;
    let Some(rec) = JobRecord::make(JobParts {
        verify,
        pattern,
        bs,
        ..JOB
    }) else {
        return false;
    };
    let key = Key {
        run: RunNo(run),
        server: ServerNo(server),
        job: JobNo(job),
    };
    let Some(bytes) = room.get_mut(..rec.bs() as usize) else {
        return false;
    };
    fill_block(key, &rec, Seq(seq), block, bytes);
    is_filled(&rec, bytes, front)
}

#[test]
fn bytes_of_writes(_rt: HostRuntime) -> Result<(), Fail> {
    let mut room = [0; 65_536];
    for (at, row) in FRONTS.iter().enumerate() {
        if !fills(row, &mut room) {
            return Err(Fail::new(at));
        }
    }
    Ok(())
}

/// Whether a block of two sectors that write 5 filled holds the bytes of this write, also where one
/// byte of it was changed.
fn holds(verify: Verify, seq: u64, changed: Option<usize>) -> bool {
    let mut bytes = [0; 1024];
    let bs = 1024;
    let Some(rec) = JobRecord::make(JobParts { verify, bs, ..JOB }) else {
        return false;
    };
    if rec.bs() != 1024 {
        return false;
    }
    fill_block(KEY, &rec, Seq(5), 1, &mut bytes);
    match changed {
        Some(at) if at < bytes.len() => bytes[at] ^= 1,
        _ => {}
    }
    holds_write(&KEY, &rec, Seq(seq), 1, &bytes)
}

#[test]
fn block_that_holds_a_write(rt: HostRuntime) {
    assert!(rt; holds(Verify::Stamp, 5, None) && !holds(Verify::Stamp, 6, None));
    assert!(rt; !holds(Verify::Stamp, 5, Some(1023)));
    assert!(rt; holds(Verify::Pattern, 6, None) && !holds(Verify::Pattern, 6, Some(1023)));
}
