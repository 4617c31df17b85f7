//! Lives of the client.

use super::shared::{Node, lives_by};
use std::test::Fail;

/// A run is begun and triggered, and its state kept.
pub static WRITES: &str = "
    > note
    < end 00
    > begin text:write
    < save 46434332 8:0 8:1 8:0 4:0
    < number 8:1
    < send frame:Jobs
    < end 00
    > look 8:1 4:0 01
    < outcome 8:1 4:0 01 01
    < end 00
    > tick
    < send frame:Jobs
    < end 00
    > frame frame:JobsOk
    < send frame:Start
    < end 00
    > frame frame:Started
    < end 00
    > look 8:1 4:0 01
    < outcome 8:1 4:0 01 02
    < end 00
    > trigger 8:1 01
    < send frame:Trigger
    < end 00
    > frame frame:State
    < save 46434332 8:0 8:1 8:0 4:1 4:136 frame:first
    < send frame:StateAck
    < end 00
    > frame frame:State
    < send frame:StateAck
    < end 00
    > look 8:1 4:0 02
    < outcome 8:1 4:0 02 02
    < end 00
    > tick
    < end 00
";

/// It is checked in the next life.
pub static CHECKS: &str = "
    > note 46434332 8:0 8:1 8:0 4:1 4:136 frame:first
    < end 00
    > look 8:1 4:0 02
    < outcome 8:1 4:0 02 00
    < end 00
    > verify 8:1 text:read
    < save 46434332 8:0 8:1 8:1 4:1 4:136 frame:first
    < number 8:1
    < send frame:Verify
    < end 00
    > frame frame:WantState
    < send frame:Saved
    < end 00
    > show 8:0
    < end 00
    > frame frame:Report
    < end 00
    > show 8:0
    < report 8:1 8:1 4:0 4:0 4:1 4:0 4:0 4:0
    < end 00
    > show 8:1
    < end 00
    > show 8:18446744073709551615
    < end 00
    > look 8:1 4:0 04
    < outcome 8:1 4:0 04 02
    < end 00
    > look 8:1 4:1 04
    < outcome 8:1 4:1 04 00
    < end 00
";

/// What else comes to the client: a note of before there were generations, and a stop; a state in two pieces has no
/// place here, since none is that long.
static LIVES: [(&str, &str); 2] = [
    (
        "an old note",
        "
        > note 46434331 8:1 8:0 4:0
        < end 00
        > begin text:write
        < save 46434332 8:0 8:2 8:0 4:0
        < number 8:2
        < send 4643010100000008000000000000002e 8:2 text:write
        < end 00
        ",
    ),
    (
        "a run that is stopped",
        "
        > note
        < end 00
        > begin text:write
        < save 46434332 8:0 8:1 8:0 4:0
        < number 8:1
        < send frame:Jobs
        < end 00
        > stop 8:1
        < send 46430109000000080000000000000008 8:1
        < end 00
        > frame 4643010a000000000000000800000008 8:1
        < end 00
        > look 8:1 4:0 03
        < outcome 8:1 4:0 03 02
        < end 00
        ",
    ),
];

#[test]
fn the_stored_run_of_the_client(rt: HostRuntime) -> Result<(), Fail> {
    for rows in [WRITES, CHECKS] {
        if !lives_by(rt.alloc(), Node::Client(1), rows, 0) {
            return Err(Fail::new("the stored run"));
        }
    }
    Ok(())
}

#[test]
fn lives_of_the_client(rt: HostRuntime) -> Result<(), Fail> {
    for (name, rows) in LIVES.iter() {
        if !lives_by(rt.alloc(), Node::Client(1), rows, 0) {
            return Err(Fail::new(*name));
        }
    }
    Ok(())
}

/// With two servers each request goes to both.
static OF_TWO: &str = "
    > note
    < end 00
    > begin
    < save 46434332 8:0 8:1 8:0 4:0
    < number 8:1
    < send 46430101000000080000000000000008 8:1
    < send 46430101000000080000000100000008 8:1
    < end 00
    > frame 4643010200000001000000080000000c 8:1 4:1
    < send 46430103000000080000000100000008 8:1
    < end 00
";

#[test]
fn lives_of_the_client_of_two(rt: HostRuntime) -> Result<(), Fail> {
    if lives_by(rt.alloc(), Node::Client(2), OF_TWO, 0) {
        Ok(())
    } else {
        Err(Fail::new("two servers"))
    }
}
