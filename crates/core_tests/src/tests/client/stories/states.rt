//! States that are kept.

use super::Story;

pub static STORIES: [Story; 5] = [
    (
        "the first state of a key stays",
        "
        restart => -
        would_save State 1 first => 1
        would_save NoState 1 0 1 => 0
        State 1 first => StateAck 1 0
        would_save State 1 first => 0
        State 1 first => StateAck 1 0
        State 2 listed => StateAck 1 0
        would_save State 1 first~63=1~111=0 => 0
        State 1 first~63=1~111=0 => 71
        State 1 first~111=3 => 71
        State 1 first~95=0 => 71
        saved 1 0 0 => first
        restart => 0 0 first
        State 1 first~63=1~111=0 => 71
        State 1 first => StateAck 1 0
        restart => 0 0 first
        ",
    ),
    (
        "states of other servers and keys",
        "
        restart => -
        would_save State 1 first~15=1 => 0
        State 1 first~15=1 => 69
        from 1 to 8 State 1 first => 69
        from 1 to 8 State 1 first~15=1 => 69
        State 1 first~11=2 => StateAck 2 0
        State 3 first~19=2 => StateAck 1 2
        saved 1 0 0 => none
        saved 2 0 0 => first~11=2
        saved 1 0 2 => first~19=2
        WantState 1 1 2 => Saved 1 first~19=2
        restart => 0 0 first~11=2 first~19=2
        ",
    ),
    (
        "layout 1 is read, and written as layout 2",
        "
        restart => -
        State 1 listed => StateAck 1 0
        saved 1 0 0 => first
        WantState 1 1 0 => Saved 1 first
        restart => 0 0 first
        ",
    ),
    (
        "asked for in any order, and in vain",
        "
        restart => -
        State 2 first~19=1 => StateAck 1 1
        State 2 first => StateAck 1 0
        WantState 1 7 1 => Saved 7 first~19=1
        WantState 1 7 0 => Saved 7 first
        WantState 1 7 1 => Saved 7 first~19=1
        WantState 2 7 1 => NoSaved 2 7 1
        tick =>
        restart => 0 0 first~19=1 first
        WantState 1 7 1 => Saved 7 first~19=1
        restart => 0 0 first~19=1 first
        ",
    ),
    (
        "copies, and what else a mirror says",
        "
        restart => -
        State 1 first => StateAck 1 0
        would_save Copy first~11=2 => 0
        would_save from 9 to 8 Copy first~11=2 => 0
        Copy first~11=2 => 69
        from 9 to 8 Copy first~11=2 => 69
        from 9 to 8 CopyOk 1 0 0 => 69
        from 9 to 8 Granted 1 => 69
        would_save from 9 to 8 State 1 first~11=2 => 0
        from 9 to 8 State 1 first~11=2 => 69
        saved 1 0 0 => first
        saved 2 0 0 => none
        tick =>
        restart => 0 0 first
        ",
    ),
];

/// Over a note with a state in layout 1, from before there were generations.
pub static LISTED: &str = "
    restart => old 1 1 listed
    saved 1 0 0 => first
    State 1 first => StateAck 1 0
    restart => old 1 1 listed
    begin writes => run 2 + Jobs 2 writes
    restart => 2 1 first
";

/// Over a note with all the states that it has room for.
pub static FULL: &str = "
    would_save State 1 first~11=200 => 0
    State 1 first~11=200 => 73
    State 1 first~11=1 => StateAck 1 0
    State 1 first~11=1~111=3 => 71
    WantState 200 1 0 => NoSaved 200 1 0
    WantState 64 1 15 => Saved 1 first~11=64~19=15
    begin writes => run 1 + Jobs 1 writes
";
