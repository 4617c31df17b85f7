//! Files that rot, and writes that are torn.

use super::Story;

pub static STORIES: [Story; 3] = [
    Story {
        name: "a block that rots is faulted",
        is_begun: false,
        rows: "\
servers 1 => ok
begin / [a] / rw=write / bs=512 / size=1k / iodepth=2 / . => ok run 1 + sent 0 client 0 Jobs 62
deliver 0 => ok + sent 1 0 client JobsOk 28
deliver 1 => ok + sent 2 client 0 Start 24
deliver 2 => ok + sent 3 0 client Started 24
issue 0 0 => ok write 0 block 0
issue 0 0 => ok write 1 block 1
land 0 0 0 all => ok
done 0 0 0 => ok
trigger 1 => ok + sent 4 client 0 Trigger 25
deliver 4 => ok + sent 5 0 client State 156
deliver 5 => ok + sent 6 client 0 StateAck 28
cut 0 => ok
rot 0 0 0 170 => ok
restart 0 => ok
verify 1 / [a] / rw=read / bs=512 / size=1k / verify_state_load=1 / . => ok attempt 1 + sent 7 client 0 Verify 79
deliver 7 => ok + sent 8 0 client WantState 36
deliver 8 => ok + sent 9 client 0 Saved 160
deliver 9 => ok
check 0 0 => ok report checked 1 faults 1 end whole first 0 + sent 10 0 client Report 61
check 0 0 => refused 21 NotInFlight
",
        status: 1,
    },
    Story {
        name: "a write that is torn over the last completed one is faulted",
        is_begun: false,
        rows: "\
servers 1 => ok
begin / [a] / rw=write / bs=1k / size=1k / io_size=2k / . => ok run 1 + sent 0 client 0 Jobs 62
deliver 0 => ok + sent 1 0 client JobsOk 28
deliver 1 => ok + sent 2 client 0 Start 24
deliver 2 => ok + sent 3 0 client Started 24
issue 0 0 => ok write 0 block 0
land 0 0 0 all => ok
done 0 0 0 => ok
issue 0 0 => ok write 1 block 0
land 0 0 1 first 1 => ok
trigger 1 => ok + sent 4 client 0 Trigger 25
deliver 4 => ok + sent 5 0 client State 156
deliver 5 => ok + sent 6 client 0 StateAck 28
cut 0 => ok
restart 0 => ok
verify 1 / [a] / rw=read / bs=1k / size=1k / io_size=2k / verify_state_load=1 / . => ok attempt 1 + sent 7 client 0 Verify 89
deliver 7 => ok + sent 8 0 client WantState 36
deliver 8 => ok + sent 9 client 0 Saved 160
deliver 9 => ok
check 0 0 => ok report checked 1 faults 1 end whole first 0 + sent 10 0 client Report 61
",
        status: 1,
    },
    Story {
        name: "a write in flight that has landed whole is not faulted",
        is_begun: false,
        rows: "\
servers 1 => ok
begin / [a] / rw=write / bs=1k / size=1k / io_size=2k / . => ok run 1 + sent 0 client 0 Jobs 62
deliver 0 => ok + sent 1 0 client JobsOk 28
deliver 1 => ok + sent 2 client 0 Start 24
deliver 2 => ok + sent 3 0 client Started 24
issue 0 0 => ok write 0 block 0
land 0 0 0 all => ok
done 0 0 0 => ok
issue 0 0 => ok write 1 block 0
land 0 0 1 first 1 => ok
land 0 0 1 first 2 => ok
trigger 1 => ok + sent 4 client 0 Trigger 25
deliver 4 => ok + sent 5 0 client State 156
deliver 5 => ok + sent 6 client 0 StateAck 28
cut 0 => ok
restart 0 => ok
verify 1 / [a] / rw=read / bs=1k / size=1k / io_size=2k / verify_state_load=1 / . => ok attempt 1 + sent 7 client 0 Verify 89
deliver 7 => ok + sent 8 0 client WantState 36
deliver 8 => ok + sent 9 client 0 Saved 160
deliver 9 => ok
check 0 0 => ok report checked 1 faults 0 end whole first - + sent 10 0 client Report 57
",
        status: 0,
    },
];
