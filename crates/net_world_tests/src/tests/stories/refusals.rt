//! What a world and its nodes refuse.

use super::Story;

pub static STORIES: [Story; 3] = [
    Story {
        name: "refusals of the world",
        is_begun: false,
        rows: "\
servers 1 => ok
begin / [a] / rw=write / bs=512 / size=1k / iodepth=2 / . => ok run 1 + sent 0 client 0 Jobs 62
land 0 0 5 all => refused 83 NoWrite
cutold deliver 0 => refused 84 NoSave
frame 0 => Jobs of writing
status 0 => boot=1 last_run=0 staged=0 run=0 stage=Idle attempt=0
",
        status: 0,
    },
    Story {
        name: "refused commands",
        is_begun: false,
        rows: "\
servers 1 => ok
deliver 0 => refused 80 NoFrame
issue 0 0 => ok stopped
cut 0 => ok
issue 0 0 => refused 81 NodeOff
restart client => refused 82 NodeOn
check 1 0 => refused 85 NoServer
cutnew restart 0 => ok
status 0 => off
cut mirror => refused 89 NoMirror
restart mirror => refused 89 NoMirror
cutold restart mirror => refused 89 NoMirror
",
        status: 0,
    },
    Story {
        name: "empty text",
        is_begun: false,
        rows: "\
servers 1 => ok
begin / . => ok run 1 + sent 0 client 0 Jobs 24
deliver 0 => ok + sent 1 0 client Refused 50
frame 0 => 464301010000000800000000000000080000000000000001
frame 1 => 4643011000000000000000080000002201420000000000000000000000000000000100000000000000000000000000000006
status 0 => boot=1 last_run=0 staged=0 run=0 stage=Idle attempt=0
",
        status: 0,
    },
];
