//! What is of a mirror and is refused, and clients that stop within a renewal.

use super::Story;

pub static STORIES: [Story; 4] = [
    Story {
        name: "what is of a mirror is refused where there is none",
        is_begun: false,
        rows: "\
servers 1 => ok
losenote => refused 89 NoMirror
renew 0 => refused 89 NoMirror
cut mirror => refused 89 NoMirror
restart mirror => refused 89 NoMirror
cutold renew 2 => refused 89 NoMirror
cutnew restart mirror => refused 89 NoMirror
cut client => ok
losenote => refused 89 NoMirror
restart client => ok
",
        status: 0,
    },
    Story {
        name: "refusals in their order",
        is_begun: false,
        rows: "\
servers 1 mirror => ok
losenote => refused 82 NodeOn
renew 0 => refused 82 NodeOn
cutold renew 0 => refused 82 NodeOn
restart mirror => refused 82 NodeOn
cut client => ok
renew 0 => refused 88 BadGeneration
cutold renew 0 => refused 88 BadGeneration
renew 4294967296 => refused 88 BadGeneration
renew 1 => refused 87 UsedGeneration
renew 2 => refused 54 BadNote
cutold renew 2 => refused 84 NoSave
barred cutnew losenote => refused 84 NoSave
losenote => ok
losenote => ok
restart client => refused 54 BadNote
renew 2 => ok
cut mirror => ok
cut mirror => refused 81 NodeOff
barred cutnew cut mirror => refused 81 NodeOff
tick => ok + sent 0 client mirror Fetch 24
deliver 0 => refused 81 NodeOff
cutnew deliver 0 => refused 81 NodeOff
restart mirror => ok
deliver 0 => ok + sent 1 mirror client Granted 24
cutnew deliver 0 => refused 84 NoSave
deliver 0 => ok + sent 2 mirror client Granted 24
deliver 7 => refused 80 NoFrame
",
        status: 0,
    },
    Story {
        name: "a stop within a renewal, before its save",
        is_begun: false,
        rows: "\
servers 1 mirror => ok
cut client => ok
losenote => ok
cutold renew 2 => ok
restart client => refused 54 BadNote
renew 2 => refused 87 UsedGeneration
renew 3 => ok
tick => ok + sent 0 client mirror Fetch 24
frame 0 => 46430114_00000008_00000009_00000008_0000000000000003
deliver 0 => ok + sent 1 mirror client Granted 24
deliver 1 => ok
begin / [a] / rw=write / bs=512 / size=1k / iodepth=2 / . => ok run 12884901889 + sent 2 client 0 Jobs 62
",
        status: 0,
    },
    Story {
        name: "a stop within a renewal, behind its save",
        is_begun: false,
        rows: "\
servers 1 mirror => ok
cut client => ok
losenote => ok
cutnew renew 2 => ok
renew 3 => refused 54 BadNote
restart client => ok
tick => ok + sent 0 client mirror Fetch 24
deliver 0 => ok + sent 1 mirror client Granted 24
deliver 1 => ok
begin / [a] / rw=write / bs=512 / size=1k / iodepth=2 / . => ok run 8589934593 + sent 2 client 0 Jobs 62
",
        status: 0,
    },
];
