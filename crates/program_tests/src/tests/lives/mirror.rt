//! Lives of a mirror.

use super::shared::{Node, lives_by};
use std::test::Fail;

/// The first client's generation is granted, its state kept; the next client's is granted, and the state given to it.
pub static KEEPS: &str = "
    > note
    < end 00
    > frame frame:Fetch1
    < save 46434d31 8:1 4:0
    < send frame:Granted1
    < end 00
    > frame frame:Fetch1
    < send frame:Granted1
    < end 00
    > frame frame:Copy1
    < save 46434d31 8:1 4:1 4:136 frame:first1
    < send frame:CopyOk1
    < end 00
    > frame frame:Copy1
    < send frame:CopyOk1
    < end 00
    > frame frame:Fetch2
    < save 46434d31 8:2 4:1 4:136 frame:first1
    < send frame:Granted2
    < send frame:Copy2
    < end 00
    > frame frame:Fetch1
    < end 3c
";

/// What else comes to a mirror.
static LIVES: [(&str, &str); 5] = [
    (
        "the next life, over the note that the last one left",
        "
        > note 46434d31 8:2 4:1 4:136 frame:first1
        < end 00
        > frame frame:Copy1
        < send frame:CopyOk1
        < end 00
        > frame frame:Fetch2
        < send frame:Granted2
        < send frame:Copy2
        < end 00
        > frame frame:Fetch1
        < end 3c
        ",
    ),
    (
        "another state of a kept key",
        "
        > note
        < end 00
        > frame frame:CopyOfTwo
        < save 46434d31 8:0 4:1 4:136 frame:first
        < send frame:CopyOk
        < end 00
        > frame frame:CopyOfOne
        < end 47
        > frame frame:CopyOfTwo
        < send frame:CopyOk
        < end 00
        ",
    ),
    (
        "a state as it was once spelled, which is saved as it is now",
        "
        > note
        < end 00
        > frame frame:OldCopy
        < save 46434d31 8:0 4:1 4:136 frame:first
        < send frame:CopyOk
        < end 00
        > frame frame:CopyOfTwo
        < send frame:CopyOk
        < end 00
        ",
    ),
    (
        "two states, which are given in the order in which they came",
        "
        > note 46434d31 8:1 4:1 4:136 frame:first1
        < end 00
        > frame frame:CopyOfTwo
        < save 46434d31 8:1 4:2 4:136 frame:first1 4:136 frame:first
        < send frame:CopyOk
        < end 00
        > frame frame:Fetch2
        < save 46434d31 8:2 4:2 4:136 frame:first1 4:136 frame:first
        < send frame:Granted2
        < send frame:Copy2
        < send 46430112000000090000000800000088 frame:first
        < end 00
        ",
    ),
    (
        "the last generation",
        "
        > note
        < end 00
        > frame 46430114000000080000000900000008 8:4294967295
        < save 46434d31 8:4294967295 4:0
        < send 46430115000000090000000800000008 8:4294967295
        < end 00
        > frame frame:Fetch2
        < end 3c
        ",
    ),
];

#[test]
fn the_stored_run_of_a_mirror(rt: HostRuntime) -> Result<(), Fail> {
    if lives_by(rt.alloc(), Node::Mirror, KEEPS, 0) {
        Ok(())
    } else {
        Err(Fail::new("the stored run"))
    }
}

#[test]
fn lives_of_a_mirror(rt: HostRuntime) -> Result<(), Fail> {
    for (name, rows) in LIVES.iter() {
        if !lives_by(rt.alloc(), Node::Mirror, rows, 0) {
            return Err(Fail::new(*name));
        }
    }
    Ok(())
}
