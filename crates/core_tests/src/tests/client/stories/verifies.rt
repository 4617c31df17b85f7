//! Runs are verified.

use super::Story;

pub static STORIES: [Story; 4] = [
    (
        "a report of each job",
        "
        restart => -
        begin writes => run 1 + Jobs 1 writes
        verify 1 reads => attempt 1 + Verify 1 1 reads
        Report 1 1 1 2 0 0 4 0 0 =>
        Report 1 1 1 2 0 0 5 0 0 =>
        outcome verify 1 0 => open
        tick => Jobs 1 writes + Verify 1 1 reads
        Report 1 1 0 2 1 0 3 1 1 0 =>
        outcome verify 1 0 => good
        Report 1 1 0 2 0 0 6 0 0 =>
        reports => 1 1 0 1 4 + 1 1 0 0 3
        restart => 1 1
        reports =>
        outcome verify 1 0 => none
        Report 1 1 0 2 0 0 6 0 0 =>
        reports =>
        ",
    ),
    (
        "a state that doesn't fit",
        "
        restart => -
        begin writes => run 1 + Jobs 1 writes
        verify 1 reads => attempt 1 + Verify 1 1 reads
        Refused 11 67 0 2 1 1 37 =>
        outcome verify 1 0 => open
        Report 1 1 1 2 0 0 4 0 0 =>
        outcome verify 1 0 => 67
        reports => 1 1 0 1 4
        ",
    ),
    (
        "a misfit of no job of the run",
        "
        restart => -
        begin writes => run 1 + Jobs 1 writes
        verify 1 reads => attempt 1 + Verify 1 1 reads
        Report 1 1 0 2 0 0 4 0 0 =>
        Refused 11 67 2 3 1 1 37 =>
        Report 1 1 2 3 0 0 9 0 0 =>
        reports => 1 1 0 0 4
        Report 1 1 1 2 0 0 5 0 0 =>
        outcome verify 1 0 => good
        reports => 1 1 0 0 4 + 1 1 0 1 5
        ",
    ),
    (
        "refused, and by another attempt",
        "
        restart => -
        begin writes => run 1 + Jobs 1 writes
        verify 1 reads => attempt 1 + Verify 1 1 reads
        verify 1 reads => attempt 2 + Verify 1 2 reads
        Refused 11 60 0 0 1 1 2 =>
        outcome verify 1 0 => 60
        outcome verify 2 0 => open
        Refused 11 61 0 0 1 2 0 =>
        Refused 11 64 0 0 2 2 2 =>
        outcome verify 2 0 => open
        Refused 11 66 0 0 1 2 6 =>
        outcome verify 2 0 => 66
        Report 1 2 0 1 0 0 4 0 0 =>
        reports =>
        outcome verify 2 0 => 66
        ",
    ),
];
