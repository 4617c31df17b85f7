//! Numbers that are used, and used up.

use super::Story;

pub static STORIES: [Story; 3] = [
    (
        "runs that weren't begun",
        "
        restart => -
        trigger 1 0 => 70
        begin writes => run 1 + Jobs 1 writes
        trigger 2 1 => 70
        trigger 0 1 => 70
        stop 2 => 70
        stop 0 => 70
        verify 2 reads => 70
        verify 2 too_long => 70
        used => 1 0
        ",
    ),
    (
        "a number behind a cut",
        "
        restart => -
        begin writes => run 1 + Jobs 1 writes
        restart => 1 0
        begin writes => run 2 + Jobs 2 writes
        verify 1 reads => attempt 1 + Verify 1 1 reads
        restart => 2 1
        trigger 1 1 => Trigger 1 1
        stop 2 => Stop 2
        verify 2 reads => attempt 2 + Verify 2 2 reads
        tick => Trigger 1 1 + Stop 2 + Verify 2 2 reads
        restart => 2 2
        ",
    ),
    (
        "the attempts of one run",
        "
        restart => -
        begin writes => run 1 + Jobs 1 writes
        verify 1 reads => attempt 1 + Verify 1 1 reads
        verify 1 => attempt 2 + Verify 1 2
        Report 1 1 0 1 0 0 1 0 0 =>
        outcome verify 1 0 => good
        outcome verify 2 0 => open
        tick => Jobs 1 writes + Verify 1 2
        Report 2 2 0 1 0 0 1 0 0 =>
        outcome verify 2 0 => open
        Report 1 2 0 1 0 0 3 0 0 =>
        reports => 1 1 0 0 1 + 1 2 0 0 3
        restart => 1 2
        ",
    ),
];

/// Over a note from before there were generations, whose numbers are used up.
pub static SPENT: &str = "
    restart => old 18446744073709551615 18446744073709551615
    begin writes => 72
    begin too_long => 1
    verify 1 reads => 72
    verify 1 too_long => 1
    verify 0 reads => 70
    trigger 18446744073709551615 1 => Trigger 18446744073709551615 1
    stop 18446744073709551615 => Stop 18446744073709551615
    used => 18446744073709551615 18446744073709551615
    restart => old 18446744073709551615 18446744073709551615
";
