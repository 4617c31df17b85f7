//! Lives of a client with a mirror.

use super::shared::{Node, lives_by};
use std::test::Fail;

/// The first client, whose generation is 1: it gives no number before the mirror has granted that, and sends the state
/// that it keeps until the mirror has it.
pub static BEGINS: &str = "
    > note
    < save 46434332 8:1 8:4294967296 8:4294967296 4:0
    < end 00
    > begin text:write
    < end 48
    > tick
    < send frame:Fetch1
    < end 00
    > frame frame:Granted1
    < end 00
    > tick
    < end 00
    > begin text:write
    < save 46434332 8:1 8:4294967297 8:4294967296 4:0
    < number 8:4294967297
    < send frame:Jobs1
    < end 00
    > frame frame:JobsOk1
    < send frame:Start1
    < end 00
    > frame frame:Started1
    < end 00
    > trigger 8:4294967297 00
    < send frame:Trigger1
    < end 00
    > frame frame:State1
    < save 46434332 8:1 8:4294967297 8:4294967296 4:1 4:136 frame:first1
    < send frame:StateAck1
    < send frame:Copy1
    < end 00
    > frame frame:State1
    < send frame:StateAck1
    < end 00
    > tick
    < send frame:Copy1
    < end 00
    > frame frame:CopyOk1
    < end 00
    > tick
    < end 00
";

/// Its note is lost. The next one, whose generation is 2, has the state from the mirror, and checks by it.
pub static RENEWS: &str = "
    > note
    < save 46434332 8:2 8:8589934592 8:8589934592 4:0
    < end 00
    > verify 8:4294967297 text:read
    < end 48
    > tick
    < send frame:Fetch2
    < end 00
    > frame frame:Granted2
    < end 00
    > frame frame:Copy2
    < save 46434332 8:2 8:8589934592 8:8589934592 4:1 4:136 frame:first1
    < end 00
    > frame frame:Copy2
    < end 00
    > begin text:write
    < save 46434332 8:2 8:8589934593 8:8589934592 4:1 4:136 frame:first1
    < number 8:8589934593
    < send frame:Jobs2
    < end 00
    > verify 8:4294967297 text:read
    < save 46434332 8:2 8:8589934593 8:8589934593 4:1 4:136 frame:first1
    < number 8:8589934593
    < send 4643010b00000008000000000000003f 8:4294967297 8:8589934593 text:read
    < end 00
    > frame 4643010c000000000000000800000014 8:4294967297 8:8589934593 4:0
    < send 4643010d000000080000000000000090 8:8589934593 frame:first1
    < end 00
    > tick
    < send frame:Jobs2
    < send 4643010b00000008000000000000003f 8:4294967297 8:8589934593 text:read
    < send frame:Copy1
    < end 00
";

/// It is restarted with its mirror: it asks for its grant anew, and sends its state.
static RESTARTS: &str = "
    > note 46434332 8:2 8:8589934593 8:8589934592 4:1 4:136 frame:first1
    < end 00
    > begin text:write
    < end 48
    > tick
    < send frame:Fetch2
    < send frame:Copy1
    < end 00
    > frame frame:Granted1
    < end 00
    > begin text:write
    < end 48
    > frame frame:Granted2
    < end 00
    > frame frame:CopyOk1
    < end 00
    > tick
    < end 00
";

/// Without its mirror it takes nothing from that, and sends nothing to it.
static ALONE: &str = "
    > note 46434332 8:0 8:1 8:0 4:1 4:136 frame:first1
    < end 00
    > frame frame:Granted1
    < end 45
    > frame frame:Copy2
    < end 45
    > frame frame:CopyOk1
    < end 45
    > tick
    < end 00
";

#[test]
fn a_client_that_loses_its_note(rt: HostRuntime) -> Result<(), Fail> {
    let lives = [
        ("generation 1", Node::Renewed(1, 1), BEGINS),
        ("generation 2", Node::Renewed(1, 2), RENEWS),
        ("restarted", Node::Mirrored(1), RESTARTS),
        ("alone", Node::Client(1), ALONE),
    ];
    for (name, node, rows) in lives {
        if !lives_by(rt.alloc(), node, rows, 0) {
            return Err(Fail::new(name));
        }
    }
    Ok(())
}

/// The notes over which no client with a mirror begins: none, where it is restarted; any, where it begins anew, and
/// before that a generation that there can't be.
static NOTES: [(&str, Node, &str); 7] = [
    ("none", Node::Mirrored(1), "> note\n< end 36"),
    ("no note", Node::Mirrored(1), "> note 46\n< end 36"),
    (
        "a note",
        Node::Renewed(1, 2),
        "> note 46434332 8:1 8:4294967296 8:4294967296 4:0\n< end 36",
    ),
    ("bytes", Node::Renewed(1, 2), "> note 46\n< end 36"),
    ("generation 0", Node::Renewed(1, 0), "> note\n< end 58"),
    (
        "one behind the last",
        Node::Renewed(1, 4_294_967_296),
        "> note\n< end 58",
    ),
    (
        "generation 0 over a note",
        Node::Renewed(1, 0),
        "> note 46\n< end 58",
    ),
];

#[test]
fn notes_of_no_client_with_a_mirror(rt: HostRuntime) -> Result<(), Fail> {
    for (name, node, rows) in NOTES.iter() {
        if !lives_by(rt.alloc(), *node, rows, 2) {
            return Err(Fail::new(*name));
        }
    }
    Ok(())
}
