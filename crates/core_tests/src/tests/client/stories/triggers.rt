//! Runs are triggered, and stopped.

use super::Story;

pub static STORIES: [Story; 5] = [
    (
        "a state for each job",
        "
        restart => -
        begin writes => run 1 + Jobs 1 writes
        trigger 1 1 => Trigger 1 1
        outcome trigger 1 0 => open
        settled 1 => 0
        State 2 first~19=1 => StateAck 1 1
        outcome trigger 1 0 => open
        tick => Jobs 1 writes + Trigger 1 1
        State 2 first~19=1 => StateAck 1 1
        NoState 1 0 2 => StateAck 1 0
        outcome trigger 1 0 => good
        settled 1 => 1
        NoState 1 0 2 => StateAck 1 0
        saved 1 0 1 => first~19=1
        saved 1 0 0 => none
        restart => 1 0 first~19=1
        ",
    ),
    (
        "the first answer fixes the jobs",
        "
        restart => -
        begin writes => run 1 + Jobs 1 writes
        trigger 1 0 => Trigger 1 0
        NoState 1 0 2 => StateAck 1 0
        NoState 1 2 16 => StateAck 1 2
        NoState 1 15 16 => StateAck 1 15
        outcome trigger 1 0 => open
        NoState 1 1 3 => StateAck 1 1
        outcome trigger 1 0 => good
        ",
    ),
    (
        "triggered again, with another act",
        "
        restart => -
        begin writes => run 1 + Jobs 1 writes
        trigger 1 0 => Trigger 1 0
        NoState 1 0 1 => StateAck 1 0
        outcome trigger 1 0 => good
        trigger 1 1 => Trigger 1 1
        outcome trigger 1 0 => open
        tick => Jobs 1 writes + Trigger 1 1
        Refused 5 61 0 0 1 0 0 =>
        Refused 5 67 0 1 1 0 0 =>
        Refused 9 63 0 0 1 0 1 =>
        outcome trigger 1 0 => open
        Refused 5 63 0 0 1 0 1 =>
        outcome trigger 1 0 => 63
        settled 1 => 1
        NoState 1 0 1 => StateAck 1 0
        outcome trigger 1 0 => 63
        ",
    ),
    (
        "stopped",
        "
        restart => -
        begin writes => run 1 + Jobs 1 writes
        stop 1 => Stop 1
        outcome stop 1 0 => open
        Stopped 2 =>
        Refused 5 65 0 0 1 0 0 =>
        outcome stop 1 0 => open
        Stopped 1 =>
        outcome stop 1 0 => good
        Refused 9 63 0 0 1 0 1 =>
        outcome stop 1 0 => good
        stop 1 => Stop 1
        Refused 9 65 0 0 1 0 0 =>
        outcome stop 1 0 => 65
        settled 1 => 0
        ",
    ),
    (
        "a run of which nothing is asked",
        "
        restart => -
        NoState 5 0 1 => StateAck 5 0
        WantState 5 3 0 => NoSaved 5 3 0
        State 1 first => StateAck 1 0
        WantState 1 9 0 => Saved 9 first
        WantState 1 9 1 => NoSaved 1 9 1
        outcome trigger 1 0 => none
        settled 1 => 0
        restart => 0 0 first
        ",
    ),
];
