//! Frames that are refused.

use super::Story;

pub const STORIES: [Story; 2] = [
    (
        "what isn't the client's, isn't the mirror's, or is of another kind",
        "
        restart => -
        Copy first => CopyOk 1 0 0
        Fetch 2 => Granted 2 + Copy first
        would_save from 0 to 9 Copy first~11=2 => 0
        from 0 to 9 Copy first~11=2 => 69
        from 9 to 9 Copy first~11=2 => 69
        from 8 to 8 Copy first~11=2 => 69
        from 8 to 0 Copy first~11=2 => 69
        from 9 to 8 Copy first~11=2 => 69
        would_save from 7 to 9 Fetch 3 => 0
        from 7 to 9 Fetch 3 => 69
        from 9 to 9 Fetch 3 => 69
        from 8 to 8 Fetch 3 => 69
        from 8 to 7 Fetch 3 => 69
        Granted 3 => 69
        CopyOk 1 0 0 => 69
        State 1 first~11=2 => 69
        Saved 1 first~11=2 => 69
        NoSaved 1 1 0 => 69
        Jobs 1 first => 69
        Start 1 => 69
        Trigger 1 1 => 69
        StateAck 1 0 => 69
        Stop 1 => 69
        from 0 to 9 NoState 1 0 1 => 69
        would_save piece 1 1 0 0 0 2008 0 of Jobs 1 long_writes => 0
        piece 1 1 0 0 0 2008 0 of Jobs 1 long_writes => 69
        piece 1 1 0 0 0 2008 1024 of Jobs 1 long_writes => 69
        kept 2 0 0 => none
        restart => 2 first
        ",
    ),
    (
        "misdirected goes before a conflict and before an older generation",
        "
        restart => -
        Copy first => CopyOk 1 0 0
        Fetch 2 => Granted 2 + Copy first
        from 0 to 9 Copy first~111=3 => 69
        from 0 to 9 Fetch 1 => 69
        Copy first~111=3 => 71
        Fetch 1 => 60
        restart => 2 first
        ",
    ),
];
