//! Each front of a recorded input: what comes before is answered as ever.

use super::rows::{Life, life_of};
use super::shared::{Node, writes};
use fake_io::source_of;
use std::alloc::{AllocError, Global};
use std::test::Fail;

/// The record that ends an input which ends within a record.
const CUT_SHORT: [u8; 10] = [73, 0, 0, 0, 0, 0, 0, 0, 1, 95];

/// What is written for the first bytes of a life, so many: the answers to the records that are whole, and the end where
/// another one has begun, or no note has come.
fn expected(alloc: Global, life: &Life, length: usize) -> Result<(Vec<u8>, u8), AllocError> {
    let mut read = 0;
    let mut written = 0;
    for (input, output) in life.marks.iter() {
        if *input <= length {
            read = *input;
            written = *output;
        }
    }
    let mut bytes = Vec::from_slice(alloc, &life.output[..written.min(life.output.len())])?;
    if read == length && read > 0 {
        return Ok((bytes, 0));
    }
    bytes.extend_from_slice(&CUT_SHORT)?;
    Ok((bytes, 2))
}

/// Whether each front of a life is answered so.
fn fronts_agree(alloc: Global, node: Node, rows: &str) -> Result<bool, AllocError> {
    let life = life_of(alloc, rows)?;
    for length in 0..=life.input.len() {
        let (output, status) = expected(alloc, &life, length)?;
        let front = &life.input[..length];
        if !writes(alloc, node, source_of(front), status, &output) {
            return Ok(false);
        }
    }
    Ok(true)
}

#[test]
fn fronts_of_lives(rt: HostRuntime) -> Result<(), Fail> {
    let lives = [
        ("server", Node::Server(0), super::server::WRITES),
        ("its check", Node::Server(0), super::server::CHECKS),
        ("client", Node::Client(1), super::client::WRITES),
        ("its verify", Node::Client(1), super::client::CHECKS),
        ("mirror", Node::Mirror, super::mirror::KEEPS),
        ("renewed", Node::Renewed(1, 2), super::mirrored::RENEWS),
    ];
    for (name, node, rows) in lives {
        if !fronts_agree(rt.alloc(), node, rows)? {
            return Err(Fail::new(name));
        }
    }
    Ok(())
}
