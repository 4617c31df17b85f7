//! That nothing is kept back while a filter waits: what is shown of an output that has to be flushed, and how often it was.

use super::rows::life_of;
use super::shared::{Node, run};
use fake_io::{Held, Source, failing_at, held_output, in_steps, source_of};
use std::alloc::Global;
use std::test::Fail;

/// Whether all is shown, after so many flushes.
fn shows(alloc: Global, node: Node, source: Source<'_>, flushes: u32, output: &[u8]) -> bool {
    let mut held: Held = held_output(alloc);
    let status = run(alloc, node, source, &mut held);
    status.is_some()
        && held.held.is_empty()
        && held.flushes == flushes
        && held.shown.as_slice() == output
}

/// Whether a life is shown so: where each byte comes by itself, it is flushed so often, before each record, before the end
/// and behind it; where all are there at once, nothing is waited for between them.
fn is_shown(alloc: Global, node: Node, rows: &str, flushes: u32) -> bool {
    match life_of(alloc, rows) {
        Ok(life) => {
            let by_bytes = in_steps(&life.input, 1);
            let at_once = source_of(&life.input);
            shows(alloc, node, by_bytes, flushes, &life.output)
                && shows(alloc, node, at_once, 3, &life.output)
        }
        Err(_) => false,
    }
}

#[test]
fn answers_are_flushed(rt: HostRuntime) -> Result<(), Fail> {
    let lives = [
        (Node::Server(0), super::server::WRITES, 8),
        (Node::Server(0), super::server::CHECKS, 6),
        (Node::Client(1), super::client::WRITES, 14),
        (Node::Client(1), super::client::CHECKS, 13),
        (Node::Mirror, super::mirror::KEEPS, 9),
        (Node::Renewed(1, 1), super::mirrored::BEGINS, 16),
    ];
    for (node, rows, flushes) in lives {
        if !is_shown(rt.alloc(), node, rows, flushes) {
            return Err(Fail::new(flushes));
        }
    }
    Ok(())
}

/// A head is there, and its body isn't: what was answered before is shown before that is waited for.
static HALF: &str = "> note\n< end 00\n> look 8:1 4:0 01\n< end 5b";

#[test]
fn answers_are_flushed_before_a_body(rt: HostRuntime) -> Result<(), Fail> {
    let life = life_of(rt.alloc(), HALF)?;
    let source = failing_at(&life.input, 18, 1);
    if shows(rt.alloc(), Node::Client(1), source, 3, &life.output) {
        Ok(())
    } else {
        Err(Fail::new("before a body"))
    }
}

#[test]
fn failed_flushes(rt: HostRuntime) -> Result<(), Fail> {
    let life = life_of(rt.alloc(), super::server::WRITES)?;
    let mut held = held_output(rt.alloc());
    held.fails = true;
    match run(
        rt.alloc(),
        Node::Server(0),
        source_of(&life.input),
        &mut held,
    ) {
        None => Ok(()),
        Some(_) => Err(Fail::new("a flush")),
    }
}
