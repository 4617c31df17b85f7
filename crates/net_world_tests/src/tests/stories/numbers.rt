//! Numbers that are used up though the power goes, and those that no server, file or frame has.

use super::Story;

pub static STORIES: [Story; 4] = [
    Story {
        name: "a run whose number was saved isn't begun again",
        is_begun: false,
        rows: "\
servers 1 => ok
cutold begin / [a] / rw=write / bs=512 / size=1k / iodepth=2 / . => ok
begin / [a] / rw=write / bs=512 / size=1k / iodepth=2 / . => refused 81 NodeOff
restart client => ok
cutnew begin / [a] / rw=write / bs=512 / size=1k / iodepth=2 / . => ok
restart client => ok
begin / [a] / rw=write / bs=512 / size=1k / iodepth=2 / . => ok run 2 + sent 0 client 0 Jobs 62
cutnew verify 2 / [a] / rw=read / bs=512 / size=1k / verify_state_load=1 / . => ok
restart client => ok
verify 2 / [a] / rw=read / bs=512 / size=1k / verify_state_load=1 / . => ok attempt 2 + sent 1 client 0 Verify 79
",
        status: 0,
    },
    Story {
        name: "a boot whose number was saved isn't had again",
        is_begun: false,
        rows: "\
servers 2 => ok
cut 1 => ok
cutnew restart 1 => ok
status 1 => off
restart 1 => ok
status 1 => boot=3 last_run=0
cut 1 => ok
cutold restart 1 => ok
restart 1 => ok
status 1 => boot=4 last_run=0
status 0 => boot=1
",
        status: 0,
    },
    Story {
        name: "numbers beyond those that are there",
        is_begun: false,
        rows: "\
servers 2 => ok
issue 2 0 => refused 85 NoServer
cut 2 => refused 85 NoServer
restart 8 => refused 85 NoServer
status 2 => off
issue 0 4294967295 => ok stopped
rot 0 15 18446744073709551615 7 => ok
rot 0 16 0 7 => refused 83 NoWrite
cut 0 => ok
rot 0 0 0 7 => ok
land 0 0 0 all => refused 81 NodeOff
deliver 18446744073709551615 => refused 80 NoFrame
check 1 0 => refused 21 NotInFlight
trigger 1 => refused 70 NoSuchRun
",
        status: 0,
    },
    Story {
        name: "what makes no save isn't stopped in one",
        is_begun: false,
        rows: "\
servers 1 => ok
barred cutold tick => refused 84 NoSave
barred cutnew check 0 0 => refused 84 NoSave
cutold restart 0 => refused 82 NodeOn
cutnew deliver 0 => refused 80 NoFrame
begin / [a] / rw=write / bs=512 / size=1k / iodepth=2 / . => ok run 1 + sent 0 client 0 Jobs 62
cutnew deliver 0 => refused 84 NoSave
cut client => ok
barred cutold tick => refused 81 NodeOff
cutold restart client => refused 84 NoSave
saved 1 0 0 => none
frames => 1
",
        status: 0,
    },
];
