//! Worlds with a mirror that are refused something, or stop a node in its save; and lines that are bad.

use super::Story;

pub static STORIES: [Story; 12] = [
    Story {
        name: "what is of a mirror, where there is none",
        is_begun: false,
        rows: "\
servers 1 => ok
losenote => refused 89 NoMirror
renew 0 => refused 89 NoMirror
cut mirror => refused 89 NoMirror
restart mirror => refused 89 NoMirror
cutold renew 2 => refused 89 NoMirror
cutnew restart mirror => refused 89 NoMirror
tick => ok
begin / . => ok run 1 + sent 0 client 0 Jobs 24
",
        status: 0,
    },
    Story {
        name: "refusals of a renewal, in their order",
        is_begun: false,
        rows: "\
servers 1 mirror => ok
renew 0 => refused 82 NodeOn
cut client => ok
renew 0 => refused 88 BadGeneration
renew 4294967296 => refused 88 BadGeneration
renew 18446744073709551615 => refused 88 BadGeneration
renew 1 => refused 87 UsedGeneration
renew 4294967295 => refused 54 BadNote
losenote => ok
renew 4294967295 => ok
cut client => ok
losenote => ok
renew 4294967295 => refused 87 UsedGeneration
",
        status: 0,
    },
    Story {
        name: "refusals of a renewal that is cut short",
        is_begun: false,
        rows: "\
servers 1 mirror => ok
cutold renew 0 => refused 82 NodeOn
cut client => ok
cutold renew 0 => refused 88 BadGeneration
cutnew renew 4294967296 => refused 88 BadGeneration
cutnew renew 1 => refused 87 UsedGeneration
cutold renew 2 => refused 84 NoSave
losenote => ok
cutold renew 2 => ok
renew 2 => refused 87 UsedGeneration
restart client => refused 54 BadNote
renew 3 => ok
",
        status: 0,
    },
    Story {
        name: "a renewal that is cut short behind its save has renewed",
        is_begun: false,
        rows: "\
servers 1 mirror => ok
cut client => ok
losenote => ok
cutnew renew 7 => ok
tick => refused 81 NodeOff
renew 8 => refused 54 BadNote
restart client => ok
tick => ok + sent 0 client mirror Fetch 24
deliver 0 => ok + sent 1 mirror client Granted 24
deliver 1 => ok
begin / . => ok run 30064771073 + sent 2 client 0 Jobs 24
",
        status: 0,
    },
    Story {
        name: "the client's note is lost while it is off, and only then",
        is_begun: false,
        rows: "\
servers 1 mirror => ok
losenote => refused 82 NodeOn
cut client => ok
losenote => ok
losenote => ok
restart client => refused 54 BadNote
restart client => refused 54 BadNote
cutnew restart client => refused 84 NoSave
",
        status: 0,
    },
    Story {
        name: "the mirror is cut and comes back",
        is_begun: false,
        rows: "\
servers 1 mirror => ok
restart mirror => refused 82 NodeOn
cut mirror => ok
cut mirror => refused 81 NodeOff
tick => ok + sent 0 client mirror Fetch 24
deliver 0 => refused 81 NodeOff
cutold deliver 0 => refused 81 NodeOff
cutold restart mirror => refused 84 NoSave
restart mirror => ok
deliver 0 => ok + sent 1 mirror client Granted 24
cut mirror => ok
restart mirror => ok
cutold deliver 0 => refused 84 NoSave
deliver 0 => ok + sent 2 mirror client Granted 24
",
        status: 0,
    },
    Story {
        name: "the mirror is cut in the save of a generation",
        is_begun: false,
        rows: "\
servers 1 mirror => ok
tick => ok + sent 0 client mirror Fetch 24
cutold deliver 0 => ok
restart mirror => ok
cutnew deliver 0 => ok
restart mirror => ok
cutnew deliver 0 => refused 84 NoSave
deliver 0 => ok + sent 1 mirror client Granted 24
",
        status: 0,
    },
    Story {
        name: "a request of an older generation",
        is_begun: false,
        rows: "\
servers 1 mirror => ok
tick => ok + sent 0 client mirror Fetch 24
cut client => ok
losenote => ok
renew 2 => ok
deliver 0 => ok + sent 1 mirror client Granted 24
deliver 1 => ok
tick => ok + sent 2 client mirror Fetch 24
deliver 2 => ok + sent 3 mirror client Granted 24
deliver 0 => refused 60 Old
cutnew deliver 0 => refused 84 NoSave
deliver 2 => ok + sent 4 mirror client Granted 24
",
        status: 0,
    },
    Story {
        name: "no server has the mirror's number, and the words are as they are written",
        is_begun: false,
        rows: "\
 servers  8\tmirror  => ok
cut 9 => refused 85 NoServer
restart 8 => refused 85 NoServer
#losenote
cut\tclient => ok
  losenote => ok
renew\t0002 => ok
",
        status: 0,
    },
    Story {
        name: "another word behind the servers",
        is_begun: false,
        rows: "\
servers 1 mirrors => bad line 1
",
        status: 2,
    },
    Story {
        name: "the note isn't lost in a save",
        is_begun: false,
        rows: "\
servers 1 mirror => ok
cut client => ok
cutold losenote => bad line 3
",
        status: 2,
    },
    Story {
        name: "a mirror is there from the beginning or not at all",
        is_begun: false,
        rows: "\
servers 1 => ok
servers 1 mirror => bad line 2
",
        status: 2,
    },
];
