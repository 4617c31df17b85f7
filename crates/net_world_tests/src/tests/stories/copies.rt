//! The copies of a mirror: what it is given, and gives back.

use super::Story;

/// The mirror grants the first generation, and a run is started.
pub static BEGUN: &str = "\
servers 1 mirror => ok
tick => ok + sent 0 client mirror Fetch 24
deliver 0 => ok + sent 1 mirror client Granted 24
deliver 1 => ok
begin / [a] / rw=write / bs=512 / size=1k / iodepth=2 / . => ok run 4294967297 + sent 2 client 0 Jobs 62
deliver 2 => ok + sent 3 0 client JobsOk 28
deliver 3 => ok + sent 4 client 0 Start 24
deliver 4 => ok + sent 5 0 client Started 24
";

pub static STORIES: [Story; 8] = [
    Story {
        name: "what was lost is fetched",
        is_begun: false,
        rows: "\
servers 1 mirror => ok
begin / [a] / rw=write / bs=512 / size=1k / iodepth=2 / . => refused 72 NumbersSpent
tick => ok + sent 0 client mirror Fetch 24
deliver 0 => ok + sent 1 mirror client Granted 24
deliver 1 => ok
begin / [a] / rw=write / bs=512 / size=1k / iodepth=2 / . => ok run 4294967297 + sent 2 client 0 Jobs 62
deliver 2 => ok + sent 3 0 client JobsOk 28
deliver 3 => ok + sent 4 client 0 Start 24
deliver 4 => ok + sent 5 0 client Started 24
deliver 5 => ok
issue 0 0 => ok write 0 block 0
land 0 0 0 all => ok
done 0 0 0 => ok
trigger 4294967297 => ok + sent 6 client 0 Trigger 25
deliver 6 => ok + sent 7 0 client State 156
deliver 7 => ok + sent 8 client 0 StateAck 28 + sent 9 client mirror Copy 152
deliver 9 => ok + sent 10 mirror client CopyOk 32
cut client => ok
losenote => ok
restart client => refused 54 BadNote
renew 1 => refused 87 UsedGeneration
renew 2 => ok
tick => ok + sent 11 client mirror Fetch 24
deliver 11 => ok + sent 12 mirror client Granted 24 + sent 13 mirror client Copy 152
deliver 12 => ok
deliver 13 => ok
begin / [a] / rw=write / bs=512 / size=1k / iodepth=2 / . => ok run 8589934593 + sent 14 client 0 Jobs 62
",
        status: 0,
    },
    Story {
        name: "a copy is lost, and a check in full condemns a write in flight",
        is_begun: true,
        rows: "\
issue 0 0 => ok write 0 block 0
issue 0 0 => ok write 1 block 1
land 0 0 0 all => ok
done 0 0 0 => ok
trigger 4294967297 cut => ok + sent 6 client 0 Trigger 25
deliver 6 => ok + sent 7 0 client State 156
deliver 7 => ok + sent 8 client 0 StateAck 28 + sent 9 client mirror Copy 152
deliver 8 => ok + act cut 0
cut client => ok
losenote => ok
cut 0 => ok
restart 0 => ok
renew 2 => ok
tick => ok + sent 10 client mirror Fetch 24
deliver 10 => ok + sent 11 mirror client Granted 24
deliver 11 => ok
verify 4294967297 / [a] / rw=read / bs=512 / size=1k / verify_state_load=1 / . => ok attempt 8589934593 + sent 12 client 0 Verify 79
deliver 12 => ok + sent 13 0 client WantState 36
deliver 13 => ok + sent 14 client 0 NoSaved 36
deliver 14 => ok
check 0 0 => ok report checked 2 faults 1 end whole first 1 + sent 15 0 client Report 61
deliver 15 => ok
",
        status: 1,
    },
    Story {
        name: "the check behind a lost note is the one by the state",
        is_begun: true,
        rows: "\
issue 0 0 => ok write 0 block 0
issue 0 0 => ok write 1 block 1
land 0 0 0 all => ok
done 0 0 0 => ok
trigger 4294967297 cut => ok + sent 6 client 0 Trigger 25
deliver 6 => ok + sent 7 0 client State 156
deliver 7 => ok + sent 8 client 0 StateAck 28 + sent 9 client mirror Copy 152
deliver 9 => ok + sent 10 mirror client CopyOk 32
deliver 10 => ok
deliver 8 => ok + act cut 0
cut client => ok
losenote => ok
cut 0 => ok
restart 0 => ok
renew 2 => ok
tick => ok + sent 11 client mirror Fetch 24
deliver 11 => ok + sent 12 mirror client Granted 24 + sent 13 mirror client Copy 152
deliver 13 => ok
deliver 12 => ok
verify 4294967297 / [a] / rw=read / bs=512 / size=1k / verify_state_load=1 / . => ok attempt 8589934593 + sent 14 client 0 Verify 79
deliver 14 => ok + sent 15 0 client WantState 36
deliver 15 => ok + sent 16 client 0 Saved 160
deliver 16 => ok
check 0 0 => ok report checked 1 faults 0 end whole first - + sent 17 0 client Report 57
",
        status: 0,
    },
    Story {
        name: "the mirror is cut in the save of a copy, and has it",
        is_begun: true,
        rows: "\
trigger 4294967297 => ok + sent 6 client 0 Trigger 25
deliver 6 => ok + sent 7 0 client State 156
deliver 7 => ok + sent 8 client 0 StateAck 28 + sent 9 client mirror Copy 152
cutnew deliver 9 => ok
deliver 9 => refused 81 NodeOff
restart mirror => ok
cutold deliver 9 => refused 84 NoSave
deliver 9 => ok + sent 10 mirror client CopyOk 32
",
        status: 0,
    },
    Story {
        name: "the mirror is cut in the save of a copy, and hasn't",
        is_begun: true,
        rows: "\
trigger 4294967297 => ok + sent 6 client 0 Trigger 25
deliver 6 => ok + sent 7 0 client State 156
deliver 7 => ok + sent 8 client 0 StateAck 28 + sent 9 client mirror Copy 152
cutold deliver 9 => ok
restart mirror => ok
deliver 0 => ok + sent 10 mirror client Granted 24
tick => ok + sent 11 client 0 Start 24 + sent 12 client mirror Copy 152
deliver 12 => ok + sent 13 mirror client CopyOk 32
deliver 0 => ok + sent 14 mirror client Granted 24 + sent 15 mirror client Copy 152
",
        status: 0,
    },
    Story {
        name: "two servers, of which the mirror has one's state",
        is_begun: false,
        rows: "\
servers 2 mirror => ok
tick => ok + sent 0 client mirror Fetch 24
deliver 0 => ok + sent 1 mirror client Granted 24
deliver 1 => ok
begin / [a] / rw=write / bs=512 / size=512 / . => ok run 4294967297 + sent 2 client 0 Jobs 53 + sent 3 client 1 Jobs 53
deliver 2 => ok + sent 4 0 client JobsOk 28
deliver 3 => ok + sent 5 1 client JobsOk 28
deliver 4 => ok + sent 6 client 0 Start 24
deliver 5 => ok + sent 7 client 1 Start 24
deliver 6 => ok + sent 8 0 client Started 24
deliver 7 => ok + sent 9 1 client Started 24
trigger 4294967297 => ok + sent 10 client 0 Trigger 25 + sent 11 client 1 Trigger 25
deliver 10 => ok + sent 12 0 client State 156
deliver 11 => ok + sent 13 1 client State 156
deliver 12 => ok + sent 14 client 0 StateAck 28 + sent 15 client mirror Copy 152
deliver 13 => ok + sent 16 client 1 StateAck 28 + sent 17 client mirror Copy 152
deliver 17 => ok + sent 18 mirror client CopyOk 32
cut client => ok
losenote => ok
renew 2 => ok
tick => ok + sent 19 client mirror Fetch 24
deliver 19 => ok + sent 20 mirror client Granted 24 + sent 21 mirror client Copy 152
deliver 15 => ok + sent 22 mirror client CopyOk 32
deliver 19 => ok + sent 23 mirror client Granted 24 + sent 24 mirror client Copy 152 + sent 25 mirror client Copy 152
",
        status: 0,
    },
    Story {
        name: "nothing is given before the mirror granted it, and all else works",
        is_begun: false,
        rows: "\
servers 1 mirror => ok
begin / . => refused 72 NumbersSpent
verify 4294967296 / . => refused 72 NumbersSpent
verify 4294967297 / . => refused 70 NoSuchRun
trigger 5 => ok + sent 0 client 0 Trigger 25
deliver 0 => ok + sent 1 0 client Refused 50
stop 5 => ok + sent 2 client 0 Stop 24
tick => ok + sent 3 client mirror Fetch 24 + sent 4 client 0 Trigger 25 + sent 5 client 0 Stop 24
deliver 1 => ok
tick => ok + sent 6 client mirror Fetch 24 + sent 7 client 0 Stop 24
",
        status: 0,
    },
    Story {
        name: "a number is granted once the mirror answers this life",
        is_begun: false,
        rows: "\
servers 1 mirror => ok
tick => ok + sent 0 client mirror Fetch 24
deliver 0 => ok + sent 1 mirror client Granted 24
cut client => ok
restart client => ok
deliver 1 => ok
tick => ok
cut client => ok
losenote => ok
renew 2 => ok
deliver 1 => ok
begin / . => refused 72 NumbersSpent
tick => ok + sent 2 client mirror Fetch 24
deliver 2 => ok + sent 3 mirror client Granted 24
deliver 3 => ok
begin / . => ok run 8589934593 + sent 4 client 0 Jobs 24
",
        status: 0,
    },
];
