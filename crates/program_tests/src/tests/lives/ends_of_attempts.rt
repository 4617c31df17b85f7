//! How attempts end, as the client tells it.

use super::shared::{Node, lives_by};
use std::test::Fail;

/// What a client of so many servers tells. A report is `4643010f`, its server, 8, the length of its
/// body, and then the run, the attempt, the job, how many jobs there are, how it ended, where, how
/// many blocks were checked, how many are at fault, and which; a refusal is `46430110`.
static LIVES: [(&str, u32, &str); 10] = [
    (
        "unanswered, and then sound",
        1,
        "
        > note 46434332 8:0 8:1 8:0 4:1 4:136 frame:first
        < end 00
        > ends 8:1 8:1
        < place 8:1 8:1 4:0 4:0 4:3 4:0 4:0 4:0 4:0
        < word 8:1 8:1 02 8:0 8:0
        < end 00
        > verify 8:1 text:read
        < save 46434332 8:0 8:1 8:1 4:1 4:136 frame:first
        < number 8:1
        < send frame:Verify
        < end 00
        > ends 8:1 8:1
        < place 8:1 8:1 4:0 4:0 4:3 4:0 4:0 4:0 4:0
        < word 8:1 8:1 02 8:0 8:0
        < end 00
        > frame frame:Report
        < end 00
        > ends 8:1 8:1
        < place 8:1 8:1 4:0 4:0 4:8 4:1 4:0 4:0 4:0
        < word 8:1 8:1 00 8:1 8:0
        < end 00
        > ends 8:1 8:2
        < place 8:1 8:2 4:0 4:0 4:3 4:0 4:0 4:0 4:0
        < word 8:1 8:2 02 8:0 8:0
        < end 00
        > ends 8:2 8:1
        < word 8:2 8:1 03 8:0 8:0
        < end 00
        > ends
        < end 5e
        > ends 8:1 4:0 00*3
        < end 5e
        > ends 8:1 8:1 00
        < end 5e
        ",
    ),
    (
        "faults beside an absent server",
        2,
        "
        > note 46434332 8:0 8:1 8:0 4:1 4:136 frame:first
        < end 00
        > verify 8:1 text:read
        < save 46434332 8:0 8:1 8:1 4:1 4:136 frame:first
        < number 8:1
        < send frame:Verify
        < send 4643010b 4:8 4:1 4:63 8:1 8:1 text:read
        < end 00
        > frame 4643010f 4:0 4:8 4:45 8:1 8:1 4:0 4:1 00 4:0 4:2 4:1 4:1 4:1
        < end 00
        > ends 8:1 8:1
        < place 8:1 8:1 4:0 4:0 4:7 4:2 4:1 4:0 4:0
        < place 8:1 8:1 4:1 4:0 4:3 4:0 4:0 4:0 4:0
        < word 8:1 8:1 01 8:2 8:1
        < end 00
        ",
    ),
    (
        "one of two servers is away",
        2,
        "
        > note 46434332 8:0 8:1 8:0 4:1 4:136 frame:first
        < end 00
        > verify 8:1 text:read
        < save 46434332 8:0 8:1 8:1 4:1 4:136 frame:first
        < number 8:1
        < send frame:Verify
        < send 4643010b 4:8 4:1 4:63 8:1 8:1 text:read
        < end 00
        > frame frame:Report
        < end 00
        > ends 8:1 8:1
        < place 8:1 8:1 4:0 4:0 4:8 4:1 4:0 4:0 4:0
        < place 8:1 8:1 4:1 4:0 4:3 4:0 4:0 4:0 4:0
        < word 8:1 8:1 02 8:1 8:0
        < end 00
        ",
    ),
    (
        "a refusal",
        1,
        "
        > note 46434332 8:0 8:1 8:0 4:1 4:136 frame:first
        < end 00
        > verify 8:1 text:read
        < save 46434332 8:0 8:1 8:1 4:1 4:136 frame:first
        < number 8:1
        < send frame:Verify
        < end 00
        > frame 46430110 4:0 4:8 4:34 0b 40 4:0 4:0 8:1 8:1 8:0
        < end 00
        > ends 8:1 8:1
        < place 8:1 8:1 4:0 4:0 4:1 4:0 4:0 4:0 4:64
        < word 8:1 8:1 02 8:0 8:0
        < end 00
        ",
    ),
    (
        "a refusal behind a report hides no faults",
        1,
        "
        > note 46434332 8:0 8:1 8:0 4:1 4:136 frame:first
        < end 00
        > verify 8:1 text:read
        < save 46434332 8:0 8:1 8:1 4:1 4:136 frame:first
        < number 8:1
        < send frame:Verify
        < end 00
        > frame 4643010f 4:0 4:8 4:45 8:1 8:1 4:0 4:2 00 4:0 4:2 4:1 4:1 4:1
        < end 00
        > frame 46430110 4:0 4:8 4:34 0b 43 4:1 4:2 8:1 8:1 8:36
        < end 00
        > look 8:1 4:0 04
        < outcome 8:1 4:0 04 43
        < end 00
        > ends 8:1 8:1
        < place 8:1 8:1 4:0 4:0 4:7 4:2 4:1 4:0 4:0
        < word 8:1 8:1 01 8:2 8:1
        < end 00
        ",
    ),
    (
        "a full pass, and a state that comes behind the attempt",
        1,
        "
        > note 46434332 8:0 8:1 8:0 4:0
        < end 00
        > verify 8:1 text:read
        < save 46434332 8:0 8:1 8:1 4:0
        < number 8:1
        < send frame:Verify
        < end 00
        > frame frame:State
        < save 46434332 8:0 8:1 8:1 4:1 4:136 frame:first
        < send frame:StateAck
        < end 00
        > frame 4643010f 4:0 4:8 4:45 8:1 8:1 4:0 4:1 00 4:0 4:2 4:1 4:1 4:1
        < end 00
        > ends 8:1 8:1
        < place 8:1 8:1 4:0 4:0 4:4 4:2 4:1 4:0 4:0
        < word 8:1 8:1 03 8:0 8:0
        < end 00
        ",
    ),
    (
        "a text without the job",
        1,
        "
        > note 46434332 8:0 8:1 8:0 4:1 4:136 frame:first
        < end 00
        > verify 8:1
        < save 46434332 8:0 8:1 8:1 4:1 4:136 frame:first
        < number 8:1
        < send 4643010b 4:8 4:0 4:16 8:1 8:1
        < end 00
        > ends 8:1 8:1
        < place 8:1 8:1 4:0 4:0 4:2 4:0 4:0 4:0 4:0
        < word 8:1 8:1 02 8:0 8:0
        < end 00
        ",
    ),
    (
        "a block that could not be read, and nothing",
        2,
        "
        > note 46434332 8:0 8:1 8:0 4:1 4:136 frame:first
        < end 00
        > verify 8:1 text:read
        < save 46434332 8:0 8:1 8:1 4:1 4:136 frame:first
        < number 8:1
        < send frame:Verify
        < send 4643010b 4:8 4:1 4:63 8:1 8:1 text:read
        < end 00
        > frame 4643010f 4:0 4:8 4:41 8:1 8:1 4:0 4:1 02 4:1 4:1 4:0 4:0
        < end 00
        > frame 4643010f 4:1 4:8 4:41 8:1 8:1 4:0 4:1 00 4:0 4:0 4:0 4:0
        < end 00
        > ends 8:1 8:1
        < place 8:1 8:1 4:0 4:0 4:5 4:1 4:0 4:1 4:0
        < place 8:1 8:1 4:1 4:0 4:4 4:0 4:0 4:0 4:0
        < word 8:1 8:1 02 8:1 8:0
        < end 00
        ",
    ),
    (
        "nothing had to be there",
        1,
        "
        > note 46434332 8:0 8:1 8:0 4:1 4:136 frame:first
        < end 00
        > verify 8:1 text:read
        < save 46434332 8:0 8:1 8:1 4:1 4:136 frame:first
        < number 8:1
        < send frame:Verify
        < end 00
        > frame 4643010f 4:0 4:8 4:41 8:1 8:1 4:0 4:1 00 4:0 4:0 4:0 4:0
        < end 00
        > ends 8:1 8:1
        < place 8:1 8:1 4:0 4:0 4:6 4:0 4:0 4:0 4:0
        < word 8:1 8:1 03 8:0 8:0
        < end 00
        ",
    ),
    (
        "an attempt that was overtaken",
        1,
        "
        > note 46434332 8:0 8:1 8:0 4:1 4:136 frame:first
        < end 00
        > verify 8:1 text:read
        < save 46434332 8:0 8:1 8:1 4:1 4:136 frame:first
        < number 8:1
        < send frame:Verify
        < end 00
        > verify 8:1 text:read
        < save 46434332 8:0 8:1 8:2 4:1 4:136 frame:first
        < number 8:2
        < send 4643010b 4:8 4:0 4:63 8:1 8:2 text:read
        < end 00
        > frame 4643010f 4:0 4:8 4:41 8:1 8:2 4:0 4:1 00 4:0 4:1 4:0 4:0
        < end 00
        > ends 8:1 8:1
        < place 8:1 8:1 4:0 4:0 4:3 4:0 4:0 4:0 4:0
        < word 8:1 8:1 02 8:0 8:0
        < end 00
        > ends 8:1 8:2
        < place 8:1 8:2 4:0 4:0 4:8 4:1 4:0 4:0 4:0
        < word 8:1 8:2 00 8:1 8:0
        < end 00
        ",
    ),
];

#[test]
fn how_attempts_end(rt: HostRuntime) -> Result<(), Fail> {
    for (name, servers, rows) in LIVES.iter() {
        if !lives_by(rt.alloc(), Node::Client(*servers), rows, 0) {
            return Err(Fail::new(*name));
        }
    }
    Ok(())
}
