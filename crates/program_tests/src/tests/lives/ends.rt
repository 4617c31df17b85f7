//! What ends a filter, with status 2 and a last record that says why.

use super::rows::{Life, life_of};
use super::shared::{Node, lives_by, run, writes};
use fake_io::{failing, failing_at, in_steps, interrupted, page_with};
use std::alloc::Global;
use std::test::Fail;

/// What is no note, or no record: of each node.
static OF_EACH: [(&str, &str); 7] = [
    ("nothing", "< end 5f"),
    ("a part of a head", "! 01 00*7\n< end 5f"),
    ("a part of a note", "! 01 8:2 46\n< end 5f"),
    ("another record first", "> frame frame:Jobs\n< end 5e"),
    ("no kind first", "> 0\n< end 5e"),
    ("a note that isn't one", "> note 46\n< end 36"),
    ("a note that is too long", "! 01 8:1114113\n< end 5e"),
];

/// Of a server.
static OF_A_SERVER: [(&str, &str); 4] = [
    (
        "the last boot",
        "> note 46434e31 8:18446744073709551615 8:0\n< end 48",
    ),
    (
        "a body that is too long",
        "> note\n< save 46434e31 8:1 8:0\n< end 00\n! 03 8:1114113\n< end 5e",
    ),
    (
        "a body that never comes",
        "> note\n< save 46434e31 8:1 8:0\n< end 00\n! 03 8:1114112\n< end 5f",
    ),
    (
        "a body without an end",
        "> note\n< save 46434e31 8:1 8:0\n< end 00\n! 03 ff*8\n< end 5e",
    ),
];

/// Whether each row ends a node so.
fn all_end(alloc: Global, node: Node, rows: &[(&'static str, &str)]) -> Result<(), Fail> {
    for (name, rows) in rows {
        if !lives_by(alloc, node, rows, 2) {
            return Err(Fail::new(*name));
        }
    }
    Ok(())
}

#[test]
fn inputs_without_a_note(rt: HostRuntime) -> Result<(), Fail> {
    all_end(rt.alloc(), Node::Server(0), &OF_EACH)?;
    all_end(rt.alloc(), Node::Client(1), &OF_EACH)?;
    all_end(rt.alloc(), Node::Mirror, &OF_EACH)?;
    all_end(rt.alloc(), Node::Server(0), &OF_A_SERVER)
}

/// A read that fails in place of the end, and one behind the note.
static UNREAD: &str = "> note\n< end 00\n> tick\n< end 00\n< end 5b";

#[test]
fn failed_reads(rt: HostRuntime) -> Result<(), Fail> {
    let life = life_of(rt.alloc(), UNREAD)?;
    let node = Node::Client(1);
    if !writes(rt.alloc(), node, failing(&life.input, 7), 2, &life.output) {
        return Err(Fail::new("in place of the end"));
    }
    let (first, _) = life.output.split_at(life.output.len().min(10));
    let within = failing_at(&life.input, 9, 1);
    let mut page = page_with(rt.alloc(), usize::MAX);
    let status = run(rt.alloc(), node, within, &mut page);
    if status == Some(2) && page.text.starts_with(first) && page.text.len() == 20 {
        Ok(())
    } else {
        Err(Fail::new("behind the note"))
    }
}

#[test]
fn interrupted_reads(rt: HostRuntime) -> Result<(), Fail> {
    let life = life_of(rt.alloc(), super::client::WRITES)?;
    let node = Node::Client(1);
    let slow = interrupted(&life.input, 1_000);
    let bytes = in_steps(&life.input, 1);
    if writes(rt.alloc(), node, slow, 0, &life.output)
        && writes(rt.alloc(), node, bytes, 0, &life.output)
    {
        Ok(())
    } else {
        Err(Fail::new("interrupted"))
    }
}

/// Whether a node that has room for so many bytes, a few at a time, ends by an error, has written just the first ones
/// of its output, and writes nothing behind the write that failed.
fn fails_at(alloc: Global, node: Node, life: &Life, room: usize) -> bool {
    let mut page = page_with(alloc, room);
    page.step = 7;
    let status = run(alloc, node, in_steps(&life.input, 100), &mut page);
    status.is_none()
        && page.late_writes == 0
        && page.text.len() == room
        && life.output.starts_with(&page.text)
}

#[test]
fn failed_writes(rt: HostRuntime) -> Result<(), Fail> {
    let lives = [
        (Node::Server(0), super::server::WRITES),
        (Node::Server(0), super::server::CHECKS),
        (Node::Client(1), super::client::CHECKS),
        (Node::Mirror, super::mirror::KEEPS),
        (Node::Renewed(1, 1), super::mirrored::BEGINS),
    ];
    for (node, rows) in lives {
        let life = life_of(rt.alloc(), rows)?;
        for room in (0..life.output.len()).step_by(11) {
            if !fails_at(rt.alloc(), node, &life, room) {
                return Err(Fail::new(room));
            }
        }
    }
    Ok(())
}
