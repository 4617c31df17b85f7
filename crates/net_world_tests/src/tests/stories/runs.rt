//! Runs from the first text to the last report.

use super::Story;

pub static STORIES: [Story; 5] = [
    Story {
        name: "stored run",
        is_begun: false,
        rows: "\
servers 1 => ok
begin / [a] / rw=write / bs=512 / size=1k / iodepth=2 / . => ok run 1 + sent 0 client 0 Jobs 62
deliver 0 => ok + sent 1 0 client JobsOk 28
deliver 1 => ok + sent 2 client 0 Start 24
deliver 2 => ok + sent 3 0 client Started 24
deliver 3 => ok
issue 0 0 => ok write 0 block 0
issue 0 0 => ok write 1 block 1
land 0 0 0 all => ok
done 0 0 0 => ok
trigger 1 cut => ok + sent 4 client 0 Trigger 25
deliver 4 => ok + sent 5 0 client State 156
deliver 5 => ok + sent 6 client 0 StateAck 28
deliver 6 => ok + act cut 0
cut 0 => ok
restart 0 => ok
verify 1 / [a] / rw=read / bs=512 / size=1k / verify_state_load=1 / . => ok attempt 1 + sent 7 client 0 Verify 79
deliver 7 => ok + sent 8 0 client WantState 36
deliver 8 => ok + sent 9 client 0 Saved 160
deliver 9 => ok
check 0 0 => ok report checked 1 faults 0 end whole first - + sent 10 0 client Report 57
deliver 10 => ok
frame 0 => Jobs of writing
frame 1 => JobsOk
frame 2 => Start
frame 3 => Started
frame 4 => Trigger and cut
frame 5 => State of writing
frame 6 => StateAck
frame 7 => Verify by loading
frame 8 => WantState
frame 9 => Saved of writing
frame 10 => 4643010f0000000000000008000000290000000000000001000000000000000100000000000000010000000000000000010000000000000000
status 0 => boot=2 last_run=1 staged=0 run=0 stage=Idle attempt=1
saved 1 0 0 => issued 2 counted 0
",
        status: 0,
    },
    Story {
        name: "full pass",
        is_begun: false,
        rows: "\
servers 1 => ok
begin / [a] / rw=write / bs=512 / size=1k / iodepth=2 / . => ok run 1 + sent 0 client 0 Jobs 62
deliver 0 => ok + sent 1 0 client JobsOk 28
deliver 1 => ok + sent 2 client 0 Start 24
deliver 2 => ok + sent 3 0 client Started 24
deliver 3 => ok
issue 0 0 => ok write 0 block 0
issue 0 0 => ok write 1 block 1
land 0 0 0 all => ok
done 0 0 0 => ok
cut 0 => ok
restart 0 => ok
verify 1 / [a] / rw=read / bs=512 / size=1k / . => ok attempt 1 + sent 4 client 0 Verify 59
deliver 4 => ok
check 0 0 => ok report checked 2 faults 1 end whole first 1 + sent 5 0 client Report 61
frame 0 => Jobs of writing
frame 1 => JobsOk
frame 2 => Start
frame 3 => Started
frame 4 => 4643010b00000008000000000000002b000000000000000100000000000000015b615d0a72773d726561640a62733d3531320a73697a653d316b0a
frame 5 => Report of a fault
status 0 => boot=2 last_run=1 staged=0 run=0 stage=Idle attempt=1
",
        status: 1,
    },
    Story {
        name: "no state kept",
        is_begun: false,
        rows: "\
servers 1 => ok
begin / [a] / rw=write / bs=512 / size=1k / iodepth=2 / . => ok run 1 + sent 0 client 0 Jobs 62
deliver 0 => ok + sent 1 0 client JobsOk 28
deliver 1 => ok + sent 2 client 0 Start 24
deliver 2 => ok + sent 3 0 client Started 24
deliver 3 => ok
issue 0 0 => ok write 0 block 0
issue 0 0 => ok write 1 block 1
land 0 0 0 all => ok
done 0 0 0 => ok
cut 0 => ok
restart 0 => ok
verify 1 / [a] / rw=read / bs=512 / size=1k / verify_state_load=1 / . => ok attempt 1 + sent 4 client 0 Verify 79
deliver 4 => ok + sent 5 0 client WantState 36
deliver 5 => ok + sent 6 client 0 NoSaved 36
deliver 6 => ok
check 0 0 => ok report checked 2 faults 1 end whole first 1 + sent 7 0 client Report 61
frame 0 => Jobs of writing
frame 1 => JobsOk
frame 2 => Start
frame 3 => Started
frame 4 => Verify by loading
frame 5 => WantState
frame 6 => 4643010e0000000800000000000000140000000000000001000000000000000100000000
frame 7 => Report of a fault
status 0 => boot=2 last_run=1 staged=0 run=0 stage=Idle attempt=1
",
        status: 1,
    },
    Story {
        name: "trigger before any issue",
        is_begun: false,
        rows: "\
servers 1 => ok
begin / [a] / rw=write / bs=512 / size=512 / . => ok run 1 + sent 0 client 0 Jobs 53
deliver 0 => ok + sent 1 0 client JobsOk 28
deliver 1 => ok + sent 2 client 0 Start 24
deliver 2 => ok + sent 3 0 client Started 24
deliver 3 => ok
trigger 1 => ok + sent 4 client 0 Trigger 25
deliver 4 => ok + sent 5 0 client State 156
deliver 5 => ok + sent 6 client 0 StateAck 28
deliver 6 => ok
cut 0 => ok
restart 0 => ok
verify 1 / [a] / rw=read / bs=512 / size=512 / verify_state_load=1 / . => ok attempt 1 + sent 7 client 0 Verify 80
deliver 7 => ok + sent 8 0 client WantState 36
deliver 8 => ok + sent 9 client 0 Saved 160
deliver 9 => ok
check 0 0 => ok report checked 0 faults 0 end whole first - + sent 10 0 client Report 57
frame 0 => 4643010100000008000000000000002500000000000000015b615d0a72773d77726974650a62733d3531320a73697a653d3531320a
frame 1 => JobsOk
frame 2 => Start
frame 3 => Started
frame 4 => 46430105000000080000000000000009000000000000000100
frame 5 => State of one_block
frame 6 => StateAck
frame 7 => Verify by loading_one_block
frame 8 => WantState
frame 9 => Saved of one_block
frame 10 => 4643010f0000000000000008000000290000000000000001000000000000000100000000000000010000000000000000000000000000000000
status 0 => boot=2 last_run=1 staged=0 run=0 stage=Idle attempt=1
saved 1 0 0 => issued 0 counted -
",
        status: 0,
    },
    Story {
        name: "verify with an open write",
        is_begun: false,
        rows: "\
servers 1 => ok
begin / [a] / rw=write / bs=512 / size=1k / iodepth=2 / . => ok run 1 + sent 0 client 0 Jobs 62
deliver 0 => ok + sent 1 0 client JobsOk 28
deliver 1 => ok + sent 2 client 0 Start 24
deliver 2 => ok + sent 3 0 client Started 24
issue 0 0 => ok write 0 block 0
verify 1 / [a] / rw=read / bs=512 / size=1k / verify_state_load=1 / . => ok attempt 1 + sent 4 client 0 Verify 79
deliver 4 => ok + sent 5 0 client Refused 50
fail 0 0 0 => ok
deliver 4 => ok + sent 6 0 client WantState 36
frame 0 => Jobs of writing
frame 1 => JobsOk
frame 2 => Start
frame 3 => Started
frame 4 => Verify by loading
frame 5 => 464301100000000000000008000000220b3d0000000000000000000000000000000100000000000000010000000000000000
frame 6 => WantState
status 0 => boot=1 last_run=1 staged=0 run=1 stage=Writing attempt=1
",
        status: 0,
    },
];
