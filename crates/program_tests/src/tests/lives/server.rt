//! Lives of a server.

use super::shared::{Node, lives_by};
use std::test::Fail;

/// A run of two writes, of which the first is done, triggered for a cut.
pub static WRITES: &str = "
    > note
    < save 46434e31 8:1 8:0
    < end 00
    > frame frame:Jobs
    < send frame:JobsOk
    < end 00
    > frame frame:Start
    < save 46434e31 8:1 8:1
    < send frame:Started
    < order 8:1 4:0 8:0 4:0 stamp:0:0
    < order 8:1 4:0 8:1 4:1 stamp:1:1
    < end 00
    > done 8:1 4:0 8:0
    < end 00
    > frame frame:Trigger
    < send frame:State
    < end 00
    > frame frame:StateAck
    < cut
    < end 00
";

/// Its check in the next boot.
pub static CHECKS: &str = "
    > note 46434e31 8:1 8:1
    < save 46434e31 8:2 8:1
    < end 00
    > frame frame:Verify
    < send frame:WantState
    < end 00
    > frame frame:Saved
    < want 8:1 4:0 4:0 4:1 4:512
    < end 00
    > blocks 8:1 4:0 4:0 stamp:0:0
    < send frame:Report
    < end 00
";

/// What else comes to a server.
static LIVES: [(&str, &str); 5] = [
    (
        "a job file in two pieces, the second first and twice",
        "
        > note
        < save 46434e31 8:1 8:0
        < end 00
        > frame frame:Piece1
        < end 00
        > frame frame:Piece1
        < end 00
        > frame frame:Piece0
        < send frame:JobsOk
        < end 00
        ",
    ),
    (
        "a failed write stays open, and none is ordered behind it",
        "
        > note
        < save 46434e31 8:1 8:0
        < end 00
        > frame frame:Jobs
        < send frame:JobsOk
        < end 00
        > frame frame:Start
        < save 46434e31 8:1 8:1
        < send frame:Started
        < order 8:1 4:0 8:0 4:0 stamp:0:0
        < order 8:1 4:0 8:1 4:1 stamp:1:1
        < end 00
        > failed 8:1 4:0 8:1
        < end 00
        > done 8:1 4:0 8:1
        < end 15
        > failed 8:1 4:0 8:1
        < end 15
        > done 8:1 4:0 8:0
        < end 00
        > done 8:1 4:0 8:0
        < end 15
        ",
    ),
    (
        "writes of an older boot, of another run, of another job and of none",
        "
        > note 46434e31 8:1 8:1
        < save 46434e31 8:2 8:1
        < end 00
        > done 8:1 4:0 8:0
        < end 15
        > done 8:2 4:0 8:0
        < end 15
        > done 8:1 4:1 8:0
        < end 15
        > failed 8:1 4:4294967295 8:18446744073709551615
        < end 15
        ",
    ),
    (
        "blocks that no check wants, too few and too many; one that can't be read",
        "
        > note 46434e31 8:1 8:1
        < save 46434e31 8:2 8:1
        < end 00
        > blocks 8:1 4:0 4:0 stamp:0:0
        < end 15
        > frame frame:Verify
        < send frame:WantState
        < end 00
        > frame frame:Saved
        < want 8:1 4:0 4:0 4:1 4:512
        < end 00
        > blocks 8:2 4:0 4:0 stamp:0:0
        < end 15
        > blocks 8:1 4:1 4:0 stamp:0:0
        < end 15
        > blocks 8:1 4:0 4:1 stamp:0:0
        < end 15
        > blocks 8:1 4:0 4:0
        < end 5e
        > blocks 8:1 4:0 4:0 00*511
        < end 5e
        > blocks 8:1 4:0 4:0 00*1024
        < end 5e
        > unread 8:1 4:0 4:1
        < end 15
        > blocks 8:1 4:0 4:65536 stamp:0:0
        < end 15
        > unread 8:1 4:0 4:65536
        < end 15
        > unread 8:1 4:0 4:4294967295
        < end 15
        > unread 8:1 4:0 4:0 00
        < end 5e
        > unread 8:1 4:0 4:0
        < send 4643010f000000000000000800000029 8:1 8:1 4:0 4:1 1:2 4:0 4:0 4:0 4:0
        < end 00
        ",
    ),
    (
        "a later attempt ends the check of the one before, also while it waits for its state",
        "
        > note 46434e31 8:1 8:1
        < save 46434e31 8:2 8:1
        < end 00
        > frame frame:Verify
        < send frame:WantState
        < end 00
        > frame frame:Saved
        < want 8:1 4:0 4:0 4:1 4:512
        < end 00
        > frame 4643010b00000008000000000000003f 8:1 8:2 text:read
        < send 4643010c000000000000000800000014 8:1 8:2 4:0
        < end 00
        > blocks 8:1 4:0 4:0 stamp:0:0
        < end 15
        > unread 8:1 4:0 4:0
        < end 15
        > frame 4643010d000000080000000000000090 8:2 frame:first
        < want 8:2 4:0 4:0 4:1 4:512
        < end 00
        > blocks 8:1 4:0 4:0 stamp:0:0
        < end 15
        > blocks 8:2 4:0 4:0 stamp:0:0
        < send 4643010f000000000000000800000029 8:1 8:2 4:0 4:1 1:0 4:0 4:1 4:0 4:0
        < end 00
        ",
    ),
];

#[test]
fn the_stored_run_of_a_server(rt: HostRuntime) -> Result<(), Fail> {
    for rows in [WRITES, CHECKS] {
        if !lives_by(rt.alloc(), Node::Server(0), rows, 0) {
            return Err(Fail::new("the stored run"));
        }
    }
    Ok(())
}

#[test]
fn lives_of_a_server(rt: HostRuntime) -> Result<(), Fail> {
    for (name, rows) in LIVES.iter() {
        if !lives_by(rt.alloc(), Node::Server(0), rows, 0) {
            return Err(Fail::new(*name));
        }
    }
    Ok(())
}
