//! Texts in pieces, and frames that are sent again.

use super::Story;

pub static STORIES: [Story; 3] = [
    Story {
        name: "two pieces",
        is_begun: false,
        rows: "\
servers 1 => ok
begin / [a] / rw=write / bs=512 / size=1k / iodepth=2 / #x*1960 / . => ok run 1 + sent 0 client 0 Piece 1073 + sent 1 client 0 Piece 1033
deliver 1 => ok
deliver 1 => ok
deliver 0 => ok + sent 2 0 client JobsOk 28
frame 0 => Piece 0 of long
frame 1 => Piece 1 of long
frame 2 => JobsOk
status 0 => boot=1 last_run=0 staged=1 run=0 stage=Idle attempt=0
",
        status: 0,
    },
    Story {
        name: "pieces of two sendings",
        is_begun: false,
        rows: "\
servers 1 => ok
begin / [a] / rw=write / bs=512 / size=1k / iodepth=2 / #x*1960 / . => ok run 1 + sent 0 client 0 Piece 1073 + sent 1 client 0 Piece 1033
tick => ok + sent 2 client 0 Piece 1073 + sent 3 client 0 Piece 1033
deliver 0 => ok
deliver 3 => ok + sent 4 0 client JobsOk 28
frame 0 => Piece 0 of long
frame 1 => Piece 1 of long
frame 2 => Piece 0 of long
frame 3 => Piece 1 of long
frame 4 => JobsOk
status 0 => boot=1 last_run=0 staged=1 run=0 stage=Idle attempt=0
",
        status: 0,
    },
    Story {
        name: "tick repeats",
        is_begun: false,
        rows: "\
servers 1 => ok
begin / [a] / rw=write / bs=512 / size=1k / iodepth=2 / . => ok run 1 + sent 0 client 0 Jobs 62
tick => ok + sent 1 client 0 Jobs 62
deliver 0 => ok + sent 2 0 client JobsOk 28
deliver 1 => ok + sent 3 0 client JobsOk 28
deliver 2 => ok + sent 4 client 0 Start 24
deliver 3 => ok
stop 1 => ok + sent 5 client 0 Stop 24
deliver 5 => ok + sent 6 0 client Refused 50
frame 0 => Jobs of writing
frame 1 => Jobs of writing
frame 2 => JobsOk
frame 3 => JobsOk
frame 4 => Start
frame 5 => 464301090000000800000000000000080000000000000001
frame 6 => 4643011000000000000000080000002209410000000000000000000000000000000100000000000000000000000000000000
status 0 => boot=1 last_run=0 staged=1 run=0 stage=Idle attempt=0
",
        status: 0,
    },
];
