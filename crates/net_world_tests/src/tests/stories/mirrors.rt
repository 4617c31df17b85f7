//! The client's note is lost, and its states come back from the mirror, or don't.

use super::Story;

pub static STORIES: [Story; 7] = [
    Story {
        name: "what was lost is fetched",
        is_begun: false,
        rows: "\
servers 1 mirror => ok
begin / [a] / rw=write / bs=512 / size=1k / iodepth=2 / . => refused 72 NumbersSpent
tick => ok + sent 0 client mirror Fetch 24
deliver 0 => ok + sent 1 mirror client Granted 24
deliver 1 => ok
begin / [a] / rw=write / bs=512 / size=1k / iodepth=2 / . => ok run 4294967297 + sent 2 client 0 Jobs 62
deliver 2 => ok + sent 3 0 client JobsOk 28
deliver 3 => ok + sent 4 client 0 Start 24
deliver 4 => ok + sent 5 0 client Started 24
deliver 5 => ok
issue 0 0 => ok write 0 block 0
land 0 0 0 all => ok
done 0 0 0 => ok
trigger 4294967297 cut => ok + sent 6 client 0 Trigger 25
deliver 6 => ok + sent 7 0 client State 156
deliver 7 => ok + sent 8 client 0 StateAck 28 + sent 9 client mirror Copy 152
deliver 9 => ok + sent 10 mirror client CopyOk 32
saved 4294967297 0 0 => issued 1 counted 0
cut client => ok
losenote => ok
restart client => refused 54 BadNote
renew 1 => refused 87 UsedGeneration
renew 2 => ok
saved 4294967297 0 0 => none
tick => ok + sent 11 client mirror Fetch 24
deliver 11 => ok + sent 12 mirror client Granted 24 + sent 13 mirror client Copy 152
deliver 12 => ok
deliver 13 => ok
saved 4294967297 0 0 => issued 1 counted 0
begin / [a] / rw=write / bs=512 / size=1k / iodepth=2 / . => ok run 8589934593 + sent 14 client 0 Jobs 62
deliver 8 => ok + act cut 0
cut 0 => ok
restart 0 => ok
verify 4294967297 / [a] / rw=read / bs=512 / size=1k / verify_state_load=1 / . => ok attempt 8589934593 + sent 15 client 0 Verify 79
deliver 15 => ok + sent 16 0 client WantState 36
deliver 16 => ok + sent 17 client 0 Saved 160
deliver 17 => ok
check 0 0 => ok report checked 1 faults 0 end whole first - + sent 18 0 client Report 57
deliver 18 => ok
frames => 19
frame 0 => 46430114_00000008_00000009_00000008_0000000000000001
frame 1 => 46430115_00000009_00000008_00000008_0000000000000001
frame 10 => 46430113_00000009_00000008_00000010_0000000100000001_00000000_00000000
frame 11 => 46430114_00000008_00000009_00000008_0000000000000002
frame 12 => 46430115_00000009_00000008_00000008_0000000000000002
",
        status: 0,
    },
    Story {
        name: "the mirror is stopped within the save of a copy",
        is_begun: false,
        rows: "\
servers 1 mirror => ok
tick => ok + sent 0 client mirror Fetch 24
deliver 0 => ok + sent 1 mirror client Granted 24
deliver 1 => ok
begin / [a] / rw=write / bs=512 / size=1k / iodepth=2 / . => ok run 4294967297 + sent 2 client 0 Jobs 62
deliver 2 => ok + sent 3 0 client JobsOk 28
deliver 3 => ok + sent 4 client 0 Start 24
deliver 4 => ok + sent 5 0 client Started 24
deliver 5 => ok
issue 0 0 => ok write 0 block 0
land 0 0 0 all => ok
done 0 0 0 => ok
trigger 4294967297 cut => ok + sent 6 client 0 Trigger 25
deliver 6 => ok + sent 7 0 client State 156
deliver 7 => ok + sent 8 client 0 StateAck 28 + sent 9 client mirror Copy 152
cutnew deliver 9 => ok
restart mirror => ok
cut client => ok
losenote => ok
renew 2 => ok
tick => ok + sent 10 client mirror Fetch 24
deliver 10 => ok + sent 11 mirror client Granted 24 + sent 12 mirror client Copy 152
deliver 12 => ok
deliver 12 => ok
deliver 11 => ok
saved 4294967297 0 0 => issued 1 counted 0
",
        status: 0,
    },
    Story {
        name: "a copy that is lost: the check is a full pass",
        is_begun: false,
        rows: "\
servers 1 mirror => ok
tick => ok + sent 0 client mirror Fetch 24
deliver 0 => ok + sent 1 mirror client Granted 24
deliver 1 => ok
begin / [a] / rw=write / bs=512 / size=1k / iodepth=2 / . => ok run 4294967297 + sent 2 client 0 Jobs 62
deliver 2 => ok + sent 3 0 client JobsOk 28
deliver 3 => ok + sent 4 client 0 Start 24
deliver 4 => ok + sent 5 0 client Started 24
deliver 5 => ok
issue 0 0 => ok write 0 block 0
land 0 0 0 all => ok
done 0 0 0 => ok
trigger 4294967297 cut => ok + sent 6 client 0 Trigger 25
deliver 6 => ok + sent 7 0 client State 156
deliver 7 => ok + sent 8 client 0 StateAck 28 + sent 9 client mirror Copy 152
cutold deliver 9 => ok
restart mirror => ok
cut client => ok
losenote => ok
renew 2 => ok
tick => ok + sent 10 client mirror Fetch 24
deliver 10 => ok + sent 11 mirror client Granted 24
deliver 11 => ok
saved 4294967297 0 0 => none
deliver 8 => ok + act cut 0
cut 0 => ok
restart 0 => ok
verify 4294967297 / [a] / rw=read / bs=512 / size=1k / verify_state_load=1 / . => ok attempt 8589934593 + sent 12 client 0 Verify 79
deliver 12 => ok + sent 13 0 client WantState 36
deliver 13 => ok + sent 14 client 0 NoSaved 36
deliver 14 => ok
check 0 0 => ok report checked 2 faults 1 end whole first 1 + sent 15 0 client Report 61
deliver 15 => ok
",
        status: 1,
    },
    Story {
        name: "a copy of an older life comes late",
        is_begun: false,
        rows: "\
servers 1 mirror => ok
tick => ok + sent 0 client mirror Fetch 24
deliver 0 => ok + sent 1 mirror client Granted 24
deliver 1 => ok
begin / [a] / rw=write / bs=512 / size=1k / iodepth=2 / . => ok run 4294967297 + sent 2 client 0 Jobs 62
deliver 2 => ok + sent 3 0 client JobsOk 28
deliver 3 => ok + sent 4 client 0 Start 24
deliver 4 => ok + sent 5 0 client Started 24
deliver 5 => ok
issue 0 0 => ok write 0 block 0
land 0 0 0 all => ok
done 0 0 0 => ok
trigger 4294967297 cut => ok + sent 6 client 0 Trigger 25
deliver 6 => ok + sent 7 0 client State 156
deliver 7 => ok + sent 8 client 0 StateAck 28 + sent 9 client mirror Copy 152
deliver 9 => ok + sent 10 mirror client CopyOk 32
cut client => ok
losenote => ok
renew 2 => ok
tick => ok + sent 11 client mirror Fetch 24
deliver 11 => ok + sent 12 mirror client Granted 24 + sent 13 mirror client Copy 152
cut client => ok
losenote => ok
renew 3 => ok
deliver 12 => ok
begin / [a] / rw=write / bs=512 / size=1k / iodepth=2 / . => refused 72 NumbersSpent
deliver 13 => ok
saved 4294967297 0 0 => issued 1 counted 0
tick => ok + sent 14 client mirror Fetch 24 + sent 15 client mirror Copy 152
deliver 15 => ok + sent 16 mirror client CopyOk 32
deliver 14 => ok + sent 17 mirror client Granted 24 + sent 18 mirror client Copy 152
deliver 16 => ok
deliver 18 => ok
deliver 17 => ok
tick => ok
begin / [a] / rw=write / bs=512 / size=1k / iodepth=2 / . => ok run 12884901889 + sent 19 client 0 Jobs 62
",
        status: 0,
    },
    Story {
        name: "a request and a copy come twice",
        is_begun: false,
        rows: "\
servers 1 mirror => ok
tick => ok + sent 0 client mirror Fetch 24
deliver 0 => ok + sent 1 mirror client Granted 24
deliver 1 => ok
begin / [a] / rw=write / bs=512 / size=1k / iodepth=2 / . => ok run 4294967297 + sent 2 client 0 Jobs 62
deliver 2 => ok + sent 3 0 client JobsOk 28
deliver 3 => ok + sent 4 client 0 Start 24
deliver 4 => ok + sent 5 0 client Started 24
deliver 5 => ok
issue 0 0 => ok write 0 block 0
land 0 0 0 all => ok
done 0 0 0 => ok
trigger 4294967297 cut => ok + sent 6 client 0 Trigger 25
deliver 6 => ok + sent 7 0 client State 156
deliver 7 => ok + sent 8 client 0 StateAck 28 + sent 9 client mirror Copy 152
deliver 9 => ok + sent 10 mirror client CopyOk 32
deliver 9 => ok + sent 11 mirror client CopyOk 32
deliver 0 => ok + sent 12 mirror client Granted 24 + sent 13 mirror client Copy 152
deliver 13 => ok
deliver 12 => ok
cut client => ok
losenote => ok
renew 2 => ok
tick => ok + sent 14 client mirror Fetch 24
deliver 14 => ok + sent 15 mirror client Granted 24 + sent 16 mirror client Copy 152
deliver 14 => ok + sent 17 mirror client Granted 24 + sent 18 mirror client Copy 152
deliver 0 => refused 60 Old
deliver 18 => ok
deliver 16 => ok
deliver 15 => ok
saved 4294967297 0 0 => issued 1 counted 0
",
        status: 0,
    },
    Story {
        name: "the note is lost while a check is open",
        is_begun: false,
        rows: "\
servers 1 mirror => ok
tick => ok + sent 0 client mirror Fetch 24
deliver 0 => ok + sent 1 mirror client Granted 24
deliver 1 => ok
begin / [a] / rw=write / bs=512 / size=1k / iodepth=2 / . => ok run 4294967297 + sent 2 client 0 Jobs 62
deliver 2 => ok + sent 3 0 client JobsOk 28
deliver 3 => ok + sent 4 client 0 Start 24
deliver 4 => ok + sent 5 0 client Started 24
deliver 5 => ok
issue 0 0 => ok write 0 block 0
land 0 0 0 all => ok
done 0 0 0 => ok
trigger 4294967297 cut => ok + sent 6 client 0 Trigger 25
deliver 6 => ok + sent 7 0 client State 156
deliver 7 => ok + sent 8 client 0 StateAck 28 + sent 9 client mirror Copy 152
deliver 9 => ok + sent 10 mirror client CopyOk 32
deliver 8 => ok + act cut 0
cut 0 => ok
restart 0 => ok
verify 4294967297 / [a] / rw=read / bs=512 / size=1k / verify_state_load=1 / . => ok attempt 4294967297 + sent 11 client 0 Verify 79
deliver 11 => ok + sent 12 0 client WantState 36
cut client => ok
losenote => ok
renew 2 => ok
tick => ok + sent 13 client mirror Fetch 24
deliver 13 => ok + sent 14 mirror client Granted 24 + sent 15 mirror client Copy 152
deliver 14 => ok
deliver 15 => ok
deliver 12 => ok + sent 16 client 0 Saved 160
deliver 16 => ok
check 0 0 => ok report checked 1 faults 0 end whole first - + sent 17 0 client Report 57
deliver 17 => ok
",
        status: 0,
    },
    Story {
        name: "the note is lost between the acks of two servers",
        is_begun: false,
        rows: "\
servers 2 mirror => ok
tick => ok + sent 0 client mirror Fetch 24
deliver 0 => ok + sent 1 mirror client Granted 24
deliver 1 => ok
begin / [a] / rw=write / bs=512 / size=1k / iodepth=2 / . => ok run 4294967297 + sent 2 client 0 Jobs 62 + sent 3 client 1 Jobs 62
deliver 2 => ok + sent 4 0 client JobsOk 28
deliver 3 => ok + sent 5 1 client JobsOk 28
deliver 4 => ok + sent 6 client 0 Start 24
deliver 5 => ok + sent 7 client 1 Start 24
deliver 6 => ok + sent 8 0 client Started 24
deliver 7 => ok + sent 9 1 client Started 24
issue 1 0 => ok write 0 block 0
land 1 0 0 all => ok
done 1 0 0 => ok
trigger 4294967297 cut => ok + sent 10 client 0 Trigger 25 + sent 11 client 1 Trigger 25
deliver 10 => ok + sent 12 0 client State 156
deliver 11 => ok + sent 13 1 client State 156
deliver 12 => ok + sent 14 client 0 StateAck 28 + sent 15 client mirror Copy 152
deliver 15 => ok + sent 16 mirror client CopyOk 32
cut client => ok
losenote => ok
renew 2 => ok
deliver 13 => ok + sent 17 client 1 StateAck 28 + sent 18 client mirror Copy 152
tick => ok + sent 19 client mirror Fetch 24 + sent 20 client mirror Copy 152
deliver 20 => ok + sent 21 mirror client CopyOk 32
deliver 18 => ok + sent 22 mirror client CopyOk 32
deliver 19 => ok + sent 23 mirror client Granted 24 + sent 24 mirror client Copy 152 + sent 25 mirror client Copy 152
deliver 25 => ok
deliver 24 => ok
saved 4294967297 0 0 => issued 0 counted -
saved 4294967297 1 0 => issued 1 counted 0
deliver 17 => ok + act cut 1
",
        status: 0,
    },
];
