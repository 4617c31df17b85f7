//! Each byte of a record's head, changed to each other one.

use super::draft::Draft;
use super::shared::{Node, writes};
use fake_io::source_of;
use std::alloc::{AllocError, Global};
use std::test::Fail;

/// The most bytes that a body has.
const MOST: u64 = 1_114_112;

/// A tick's head, behind a note of no bytes.
const NOTE: [u8; 9] = [1, 0, 0, 0, 0, 0, 0, 0, 0];

const TICK: [u8; 9] = [11, 0, 0, 0, 0, 0, 0, 0, 0];

/// What begins each output: the first save of a server, and the end of the answer to the note.
fn opened(node: Node) -> &'static str {
    match node {
        Node::Server(_) => "41 8:20 46434e31 8:1 8:0 49 8:1 00",
        _ => "49 8:1 00",
    }
}

/// What is written for a head with this kind, whose body has no bytes.
fn by_kind(node: Node, kind: u8) -> &'static str {
    if kind == 2 {
        return "49 8:1 28";
    }
    match node {
        Node::Client(_) => by_kind_at_the_client(kind),
        _ => "49 8:1 5e",
    }
}

/// The same of the client: a run of no jobs is begun, a tick ticks, and all else wants a body.
fn by_kind_at_the_client(kind: u8) -> &'static str {
    if kind == 7 {
        "41 8:32 46434332 8:0 8:1 8:0 4:0 46 8:8 8:1 42 8:24 46430101000000080000000000000008 8:1 49 8:1 00"
    } else if kind == 11 {
        "49 8:1 00"
    } else {
        "49 8:1 5e"
    }
}

/// What is written for a head that says so many bytes, of which there are none.
fn by_length(length: u64) -> &'static str {
    if length > MOST {
        "49 8:1 5e"
    } else {
        "49 8:1 5f"
    }
}

/// The bytes of words behind those of others.
fn bytes_of(alloc: Global, first: &str, words: &str) -> Result<Vec<u8>, AllocError> {
    let mut draft = Draft::new(alloc);
    for word in first.split_whitespace() {
        draft.put_word(word);
    }
    for word in words.split_whitespace() {
        draft.put_word(word);
    }
    draft.into_bytes()
}

/// Whether a node answers a tick's head with this byte in this place as it should.
fn agrees(alloc: Global, node: Node, place: usize, byte: u8) -> Result<bool, AllocError> {
    let mut head = TICK;
    if place < head.len() {
        head[place] = byte;
    }
    let mut input = Vec::from_slice(alloc, &NOTE)?;
    input.extend_from_slice(&head)?;
    let mut length: u64 = 0;
    for place in 1..9 {
        length = length
            .wrapping_mul(256)
            .wrapping_add(u64::from(head[place]));
    }
    let (words, status) = if length == 0 {
        (by_kind(node, head[0]), 0)
    } else {
        (by_length(length), 2)
    };
    let output = bytes_of(alloc, opened(node), words)?;
    Ok(writes(alloc, node, source_of(&input), status, &output))
}

#[test]
fn changed_heads(rt: HostRuntime) -> Result<(), Fail> {
    for node in [Node::Server(0), Node::Client(1), Node::Mirror] {
        for place in 0..9usize {
            for byte in 0..=255u8 {
                if !agrees(rt.alloc(), node, place, byte)? {
                    return Err(Fail::new(place));
                }
            }
        }
    }
    Ok(())
}
