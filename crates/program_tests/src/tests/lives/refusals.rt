//! Records that are refused by a number, and change nothing.

use super::shared::{Node, lives_by};
use std::test::Fail;

/// To a server: no kind, those of the client and a second note; bodies that are too short or too long; a frame that
/// isn't one, and one that isn't for it. It goes on behind each.
static AT_A_SERVER: &str = "
    > note
    < save 46434e31 8:1 8:0
    < end 00
    > 0
    < end 5e
    > 14
    < end 5e
    > 65
    < end 5e
    > 255 00
    < end 5e
    > note
    < end 5e
    > begin text:write
    < end 5e
    > trigger 8:1 01
    < end 5e
    > stop 8:1
    < end 5e
    > verify 8:1 text:read
    < end 5e
    > tick
    < end 5e
    > look 8:1 4:0 01
    < end 5e
    > show 8:0
    < end 5e
    > done 00*19
    < end 5e
    > done 00*21
    < end 5e
    > failed
    < end 5e
    > failed 00*19
    < end 5e
    > blocks 00*15
    < end 5e
    > unread 00*15
    < end 5e
    > unread 00*17
    < end 5e
    > frame
    < end 28
    > frame 00*16
    < end 29
    > frame frame:JobsOk
    < end 45
    > frame 46430103000000080000000100000008 8:1
    < end 45
    > frame frame:Jobs
    < send frame:JobsOk
    < end 00
";

/// To the client likewise; and requests about a run that was never begun, and a job file that is too long.
static AT_THE_CLIENT: &str = "
    > note
    < end 00
    > 0
    < end 5e
    > 14
    < end 5e
    > 255 00
    < end 5e
    > note
    < end 5e
    > done 8:1 4:0 8:0
    < end 5e
    > failed 8:1 4:0 8:0
    < end 5e
    > blocks 8:1 4:0 4:0 stamp:0:0
    < end 5e
    > unread 8:1 4:0 4:0
    < end 5e
    > trigger 8:1
    < end 5e
    > trigger 8:1 02
    < end 5e
    > trigger 8:1 0100
    < end 5e
    > trigger 8:1 01
    < end 46
    > stop 00*7
    < end 5e
    > stop 00*9
    < end 5e
    > stop 8:1
    < end 46
    > verify 00*7
    < end 5e
    > verify 8:1 text:read
    < end 46
    > look 8:1 4:0
    < end 5e
    > look 8:1 4:0 00
    < end 5e
    > look 8:1 4:0 05
    < end 5e
    > look 8:1 4:0 0100
    < end 5e
    > look 8:1 4:0 01
    < outcome 8:1 4:0 01 00
    < end 00
    > show 00*7
    < end 5e
    > show 00*9
    < end 5e
    > begin 78*16385
    < end 01
    > frame
    < end 28
    > frame 00*16
    < end 29
    > frame frame:Start
    < end 45
    > frame 4643010200000001000000080000000c 8:1 4:1
    < end 45
    > tick 00
    < end 5e
    > tick 78*16385
    < end 5e
    > tick
    < end 00
";

/// To a mirror: all but frames; bytes that are no frame, as another program refuses them; pieces, of a Copy and of a
/// Jobs; and frames that aren't for it, or that only a client takes.
static AT_A_MIRROR: &str = "
    > note
    < end 00
    > 0
    < end 5e
    > 14
    < end 5e
    > 66
    < end 5e
    > 255 00
    < end 5e
    > note
    < end 5e
    > done 8:1 4:0 8:0
    < end 5e
    > failed 8:1 4:0 8:0
    < end 5e
    > blocks 8:1 4:0 4:0 stamp:0:0
    < end 5e
    > unread 8:1 4:0 4:0
    < end 5e
    > begin text:write
    < end 5e
    > trigger 8:1 01
    < end 5e
    > stop 8:1
    < end 5e
    > verify 8:1 text:read
    < end 5e
    > tick
    < end 5e
    > look 8:1 4:0 01
    < end 5e
    > show 8:0
    < end 5e
    > frame
    < end 28
    > frame 00*16
    < end 29
    > frame 46430114000000080000000900000008 00*7
    < end 28
    > frame 46430114000000080000000900000008 8:1 00
    < end 2d
    > frame 46430114000000080000000900000008 8:0
    < end 2b
    > frame 46430114000000080000000900000008 8:4294967296
    < end 2b
    > frame 46430116000000080000000900000008 8:1
    < end 2a
    > frame 46430111000000080000000900000421120000000000000001_00*18_040100000000_78*1024
    < end 2b
    > frame 464301110000000800000009000003f9010000000000000001_00*18_07d800000400_78*983_0a
    < end 45
    > frame frame:Jobs
    < end 45
    > frame frame:Granted1
    < end 45
    > frame frame:Copy2
    < end 45
    > frame 46430114000000000000000900000008 8:1
    < end 45
    > frame 46430114000000090000000900000008 8:1
    < end 45
    > frame 46430103000000080000000900000008 8:1
    < end 45
    > frame 46430115000000080000000900000008 8:1
    < end 45
    > frame frame:Fetch1
    < save 46434d31 8:1 4:0
    < send frame:Granted1
    < end 00
";

#[test]
fn refused_records(rt: HostRuntime) -> Result<(), Fail> {
    if !lives_by(rt.alloc(), Node::Server(0), AT_A_SERVER, 0) {
        return Err(Fail::new("a server"));
    }
    if !lives_by(rt.alloc(), Node::Client(1), AT_THE_CLIENT, 0) {
        return Err(Fail::new("the client"));
    }
    if !lives_by(rt.alloc(), Node::Mirror, AT_A_MIRROR, 0) {
        return Err(Fail::new("a mirror"));
    }
    Ok(())
}
