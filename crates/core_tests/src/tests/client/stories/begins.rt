//! Runs begin at each server.

use super::Story;

/// With one server.
pub static STORIES: [Story; 5] = [
    (
        "begun, staged and started",
        "
        restart => -
        blank => 1
        outcome begin 1 0 => none
        begin writes => run 1 + Jobs 1 writes
        blank => 0
        used => 1 0
        outcome begin 1 0 => open
        tick => Jobs 1 writes
        JobsOk 1 1 => Start 1
        JobsOk 1 1 =>
        tick => Start 1
        Started 1 =>
        outcome begin 1 0 => good
        tick =>
        Started 1 =>
        JobsOk 1 1 =>
        outcome begin 1 0 => good
        restart => 1 0
        outcome begin 1 0 => none
        tick =>
        ",
    ),
    (
        "a server that is busy, and one that lacks the jobs",
        "
        restart => -
        begin writes => run 1 + Jobs 1 writes
        Refused 1 61 0 0 1 0 0 =>
        outcome begin 1 0 => open
        tick => Jobs 1 writes
        Started 1 =>
        JobsOk 1 1 => Start 1
        Refused 3 61 0 0 1 0 0 =>
        tick => Start 1
        Refused 3 62 0 0 1 0 0 => Jobs 1 writes
        tick => Jobs 1 writes
        Refused 3 62 0 0 1 0 0 =>
        JobsOk 1 1 => Start 1
        Refused 1 66 0 0 1 0 6 =>
        Refused 3 60 0 0 1 0 1 =>
        outcome begin 1 0 => 60
        tick =>
        ",
    ),
    (
        "two runs, asked again by their numbers",
        "
        restart => -
        begin writes => run 1 + Jobs 1 writes
        begin reads => run 2 + Jobs 2 reads
        stop 2 => Stop 2
        trigger 1 1 => Trigger 1 1
        verify 2 reads => attempt 1 + Verify 2 1 reads
        stop 1 => Stop 1
        tick => Jobs 1 writes + Trigger 1 1 + Stop 1 + Jobs 2 reads + Stop 2 + Verify 2 1 reads
        JobsOk 2 1 => Start 2
        Stopped 1 =>
        tick => Jobs 1 writes + Trigger 1 1 + Start 2 + Stop 2 + Verify 2 1 reads
        restart => 2 1
        ",
    ),
    (
        "texts at their ends",
        "
        restart => -
        begin too_long => 1
        used => 0 0
        begin => run 1 + Jobs 1
        verify 1 too_long => 1
        verify 1 => attempt 1 + Verify 1 1
        tick => Jobs 1 + Verify 1 1
        restart => 1 1
        ",
    ),
    (
        "who may say it",
        "
        restart => -
        begin writes => run 1 + Jobs 1 writes
        from 1 to 8 JobsOk 1 1 => 69
        from 8 to 8 JobsOk 1 1 => 69
        from 0 to 0 JobsOk 1 1 => 69
        from 8 to 0 Start 1 => 69
        Start 1 => 69
        JobsOk 2 1 =>
        outcome begin 1 0 => open
        outcome begin 1 1 => none
        JobsOk 1 1 => Start 1
        ",
    ),
];

/// With two servers.
pub static OF_TWO: [Story; 2] = [
    (
        "each server for itself",
        "
        restart => -
        begin writes => run 1 + Jobs 1 writes + to 1 Jobs 1 writes
        from 1 to 8 JobsOk 1 1 => to 1 Start 1
        tick => Jobs 1 writes + to 1 Start 1
        from 1 to 8 Started 1 =>
        tick => Jobs 1 writes
        outcome begin 1 0 => open
        outcome begin 1 1 => good
        trigger 1 0 => Trigger 1 0 + to 1 Trigger 1 0
        from 1 to 8 NoState 1 0 1 => to 1 StateAck 1 0
        settled 1 => 0
        outcome trigger 1 1 => good
        from 2 to 8 NoState 1 0 1 => 69
        Refused 5 65 0 0 1 0 0 =>
        settled 1 => 1
        ",
    ),
    (
        "asked again by server within a run",
        "
        restart => -
        begin writes => run 1 + Jobs 1 writes + to 1 Jobs 1 writes
        begin writes => run 2 + Jobs 2 writes + to 1 Jobs 2 writes
        trigger 1 0 => Trigger 1 0 + to 1 Trigger 1 0
        verify 1 reads => attempt 1 + Verify 1 1 reads + to 1 Verify 1 1 reads
        tick => Jobs 1 writes + to 1 Jobs 1 writes + Trigger 1 0 + to 1 Trigger 1 0 \
        + Jobs 2 writes + to 1 Jobs 2 writes + Verify 1 1 reads + to 1 Verify 1 1 reads
        ",
    ),
];
