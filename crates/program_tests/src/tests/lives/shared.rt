//! Running a filter over an input.

use super::rows::life_of;
use fake_io::{Page, Source, in_steps, page_with, source_of};
use fc_base::{Generation, ServerNo};
use filters::{Beginning, run_client, run_mirror, run_server};
use std::alloc::Global;
use std::io::{BufReader, Write};

/// Which node a filter is.
#[derive(Clone, Copy)]
pub enum Node {
    Server(u32),
    /// The client of so many servers, without a mirror.
    Client(u32),
    /// With one.
    Mirrored(u32),
    /// It begins anew, in this generation.
    Renewed(u32, u64),
    Mirror,
}

/// Runs a node over a source, and answers the status, unless a write fails.
pub fn run<W: Write>(alloc: Global, node: Node, source: Source<'_>, writer: &mut W) -> Option<u8> {
    let mut reader = BufReader::new(alloc, source).ok()?;
    match node {
        Node::Server(me) => {
            if me >= 8 {
                return None;
            }
            run_server(alloc, ServerNo(me), &mut reader, writer).ok()
        }
        Node::Client(servers) => run_as(alloc, servers, Beginning::Alone, &mut reader, writer),
        Node::Mirrored(servers) => {
            run_as(alloc, servers, Beginning::Mirrored, &mut reader, writer)
        }
        Node::Renewed(servers, generation) => {
            let beginning = Beginning::Renewed(Generation(generation));
            run_as(alloc, servers, beginning, &mut reader, writer)
        }
        Node::Mirror => run_mirror(alloc, &mut reader, writer).ok(),
    }
}

/// Runs the client, as it begins.
fn run_as<W: Write>(
    alloc: Global,
    servers: u32,
    beginning: Beginning,
    reader: &mut BufReader<Source<'_>>,
    writer: &mut W,
) -> Option<u8> {
    if servers < 1 || servers > 8 {
        return None;
    }
    run_client(alloc, servers, beginning, reader, writer).ok()
}

/// Whether a node over a source ends with this status, and has written just this.
pub fn writes(alloc: Global, node: Node, source: Source<'_>, status: u8, output: &[u8]) -> bool {
    let mut page: Page = page_with(alloc, usize::MAX);
    let ended = run(alloc, node, source, &mut page);
    ended == Some(status) && page.text.as_slice() == output
}

/// Whether a node lives as these rows say, and ends with this status: the input whole, and in steps.
pub fn lives_by(alloc: Global, node: Node, rows: &str, status: u8) -> bool {
    match life_of(alloc, rows) {
        Ok(life) => {
            writes(alloc, node, source_of(&life.input), status, &life.output)
                && writes(alloc, node, in_steps(&life.input, 7), status, &life.output)
        }
        Err(_) => false,
    }
}
