//! Nodes that lose their power within a save, and runs that are started again.

use super::Story;

pub static STORIES: [Story; 5] = [
    Story {
        name: "client stopped before its save",
        is_begun: false,
        rows: "\
servers 1 => ok
begin / [a] / rw=write / bs=512 / size=1k / iodepth=2 / . => ok run 1 + sent 0 client 0 Jobs 62
deliver 0 => ok + sent 1 0 client JobsOk 28
deliver 1 => ok + sent 2 client 0 Start 24
deliver 2 => ok + sent 3 0 client Started 24
deliver 3 => ok
issue 0 0 => ok write 0 block 0
issue 0 0 => ok write 1 block 1
land 0 0 0 all => ok
done 0 0 0 => ok
trigger 1 cut => ok + sent 4 client 0 Trigger 25
deliver 4 => ok + sent 5 0 client State 156
cutold deliver 5 => ok
restart client => ok
deliver 5 => ok + sent 6 client 0 StateAck 28
frame 0 => Jobs of writing
frame 1 => JobsOk
frame 2 => Start
frame 3 => Started
frame 4 => Trigger and cut
frame 5 => State of writing
frame 6 => StateAck
status 0 => boot=1 last_run=1 staged=0 run=1 stage=Taken attempt=0
saved 1 0 0 => issued 2 counted 0
",
        status: 0,
    },
    Story {
        name: "client stopped behind its save",
        is_begun: false,
        rows: "\
servers 1 => ok
begin / [a] / rw=write / bs=512 / size=1k / iodepth=2 / . => ok run 1 + sent 0 client 0 Jobs 62
deliver 0 => ok + sent 1 0 client JobsOk 28
deliver 1 => ok + sent 2 client 0 Start 24
deliver 2 => ok + sent 3 0 client Started 24
deliver 3 => ok
issue 0 0 => ok write 0 block 0
issue 0 0 => ok write 1 block 1
land 0 0 0 all => ok
done 0 0 0 => ok
trigger 1 cut => ok + sent 4 client 0 Trigger 25
deliver 4 => ok + sent 5 0 client State 156
cutnew deliver 5 => ok
restart client => ok
deliver 5 => ok + sent 6 client 0 StateAck 28
frame 0 => Jobs of writing
frame 1 => JobsOk
frame 2 => Start
frame 3 => Started
frame 4 => Trigger and cut
frame 5 => State of writing
frame 6 => StateAck
status 0 => boot=1 last_run=1 staged=0 run=1 stage=Taken attempt=0
saved 1 0 0 => issued 2 counted 0
",
        status: 0,
    },
    Story {
        name: "start stopped before its save",
        is_begun: false,
        rows: "\
servers 1 => ok
begin / [a] / rw=write / bs=512 / size=1k / iodepth=2 / . => ok run 1 + sent 0 client 0 Jobs 62
deliver 0 => ok + sent 1 0 client JobsOk 28
deliver 1 => ok + sent 2 client 0 Start 24
cutold deliver 2 => ok
restart 0 => ok
deliver 2 => ok + sent 3 0 client Refused 50
deliver 3 => ok + sent 4 client 0 Jobs 62
deliver 4 => ok + sent 5 0 client JobsOk 28
deliver 5 => ok + sent 6 client 0 Start 24
deliver 6 => ok + sent 7 0 client Started 24
frame 0 => Jobs of writing
frame 1 => JobsOk
frame 2 => Start
frame 3 => 46430110000000000000000800000022033e0000000000000000000000000000000100000000000000000000000000000000
frame 4 => Jobs of writing
frame 5 => JobsOk
frame 6 => Start
frame 7 => Started
status 0 => boot=2 last_run=1 staged=0 run=1 stage=Writing attempt=0
",
        status: 0,
    },
    Story {
        name: "start stopped behind its save",
        is_begun: false,
        rows: "\
servers 1 => ok
begin / [a] / rw=write / bs=512 / size=1k / iodepth=2 / . => ok run 1 + sent 0 client 0 Jobs 62
deliver 0 => ok + sent 1 0 client JobsOk 28
deliver 1 => ok + sent 2 client 0 Start 24
cutnew deliver 2 => ok
restart 0 => ok
deliver 2 => ok + sent 3 0 client Refused 50
frame 0 => Jobs of writing
frame 1 => JobsOk
frame 2 => Start
frame 3 => Refused as an old run
status 0 => boot=2 last_run=1 staged=0 run=0 stage=Idle attempt=0
",
        status: 0,
    },
    Story {
        name: "start again after a cut",
        is_begun: false,
        rows: "\
servers 1 => ok
begin / [a] / rw=write / bs=512 / size=1k / iodepth=2 / . => ok run 1 + sent 0 client 0 Jobs 62
deliver 0 => ok + sent 1 0 client JobsOk 28
deliver 1 => ok + sent 2 client 0 Start 24
deliver 2 => ok + sent 3 0 client Started 24
cut 0 => ok
restart 0 => ok
deliver 2 => ok + sent 4 0 client Refused 50
issue 0 0 => ok stopped
frame 0 => Jobs of writing
frame 1 => JobsOk
frame 2 => Start
frame 3 => Started
frame 4 => Refused as an old run
status 0 => boot=2 last_run=1 staged=0 run=0 stage=Idle attempt=0
",
        status: 0,
    },
];
