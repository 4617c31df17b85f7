//! The bytes that writes put into blocks of one sector, by the layout that the manual gives them.

use std::alloc::{AllocError, Global};

/// The run of these tests.
pub(super) const RUN: u64 = 7;

/// Adds the stamp of a write of job 0 of server 0 into a block of one sector: run, server, job, write, block and sector,
/// and 476 bytes that count up from the write's number.
pub(super) fn push_stamp_of(
    bytes: &mut Vec<u8>,
    run: u64,
    write: u64,
    block: u64,
) -> Result<(), AllocError> {
    bytes.extend_from_slice(&run.to_be_bytes())?;
    bytes.extend_from_slice(&[0; 8])?;
    bytes.extend_from_slice(&write.to_be_bytes())?;
    bytes.extend_from_slice(&block.to_be_bytes())?;
    bytes.extend_from_slice(&[0; 4])?;
    for place in 0..476u64 {
        bytes.push((write.wrapping_add(place) % 256) as u8)?;
    }
    Ok(())
}

/// The same of a write of [`RUN`].
pub(super) fn push_stamp(bytes: &mut Vec<u8>, write: u64, block: u64) -> Result<(), AllocError> {
    push_stamp_of(bytes, RUN, write, block)
}

/// Adds an order: the number of a write and its block, eight bytes each, and the bytes of the block.
pub(super) fn push_order(bytes: &mut Vec<u8>, write: u64, block: u64) -> Result<(), AllocError> {
    bytes.extend_from_slice(&write.to_be_bytes())?;
    bytes.extend_from_slice(&block.to_be_bytes())?;
    push_stamp(bytes, write, block)
}

/// The blocks of a target that hold these writes, or zeros where there is none.
pub(super) fn target_of(
    alloc: Global,
    writes: &[Option<(u64, u64)>],
) -> Result<Vec<u8>, AllocError> {
    let mut bytes = Vec::new(alloc);
    for write in writes {
        match write {
            Some((write, block)) => push_stamp(&mut bytes, *write, *block)?,
            None => bytes.extend_from_slice(&[0; 512])?,
        }
    }
    Ok(bytes)
}
