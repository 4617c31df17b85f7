//! Copies of states, to a mirror and from it.

use super::Story;
use crate::tests::shared::AllCopies;

/// With one server.
pub static STORIES: [Story; 6] = [
    (
        "a copy of each state, until the mirror has it",
        "
        renew 1 => -
        from 9 to 8 Granted 1 =>
        State 2 first => StateAck 1 0 + to 9 Copy first
        State 2 first => StateAck 1 0
        NoState 1 0 2 => StateAck 1 0
        State 2 first~19=1 => StateAck 1 1 + to 9 Copy first~19=1
        tick => to 9 Copy first + to 9 Copy first~19=1
        from 9 to 8 CopyOk 2 0 0 =>
        from 9 to 8 CopyOk 1 1 0 =>
        from 9 to 8 CopyOk 1 0 2 =>
        tick => to 9 Copy first + to 9 Copy first~19=1
        from 9 to 8 CopyOk 1 0 0 =>
        from 9 to 8 CopyOk 1 0 0 =>
        tick => to 9 Copy first~19=1
        from 9 to 8 CopyOk 1 0 1 =>
        tick =>
        State 2 first => StateAck 1 0
        State 1 first~111=3 => 71
        restart mirror => of 1 4294967296 4294967296 first first~19=1
        tick => to 9 Fetch 1 + to 9 Copy first + to 9 Copy first~19=1
        from 9 to 8 CopyOk 1 0 1 =>
        tick => to 9 Fetch 1 + to 9 Copy first
        ",
    ),
    (
        "copies of the mirror are kept",
        "
        renew 2 => -
        would_save from 9 to 8 Copy first~19=1 => 1
        from 9 to 8 Copy first~19=1 =>
        would_save from 9 to 8 Copy first~19=1 => 0
        from 9 to 8 Copy first~19=1 =>
        would_save from 9 to 8 Copy first~19=1~111=3 => 0
        from 9 to 8 Copy first~19=1~111=3 => 71
        State 2 first~19=1~111=3 => 71
        State 2 first~19=1 => StateAck 1 1
        from 9 to 8 Copy listed =>
        from 9 to 8 Copy first =>
        from 9 to 8 Copy first~15=7 =>
        saved 1 0 1 => first~19=1
        saved 1 0 0 => first
        saved 1 7 0 => first~15=7
        WantState 1 1 0 => Saved 1 first
        from 9 to 8 Copy first~95=0 => 71
        tick => to 9 Fetch 2 + to 9 Copy first~19=1 + to 9 Copy first + to 9 Copy first~15=7
        restart mirror => of 2 8589934592 8589934592 first~19=1 first first~15=7
        tick => to 9 Fetch 2 + to 9 Copy first~19=1 + to 9 Copy first + to 9 Copy first~15=7
        ",
    ),
    (
        "a copy is no answer to a trigger",
        "
        note 1 0 => -
        restart mirror => 1 0
        trigger 1 1 => Trigger 1 1
        from 9 to 8 Copy first =>
        outcome trigger 1 0 => open
        settled 1 => 0
        tick => Trigger 1 1 + to 9 Copy first
        from 9 to 8 CopyOk 1 0 0 =>
        tick => Trigger 1 1
        State 1 first => StateAck 1 0
        outcome trigger 1 0 => good
        settled 1 => 1
        tick =>
        ",
    ),
    (
        "a state in pieces is copied, too",
        "
        renew 1 => -
        piece 6 1 0 0 0 1032 1024 of State 1 listed_116 =>
        from 9 to 8 piece 6 1 0 0 0 1032 0 of State 1 listed_116 => 69
        would_save from 9 to 8 piece 6 1 0 0 0 1032 0 of State 1 listed_116 => 0
        piece 6 1 0 0 0 1032 0 of State 1 listed_116 => StateAck 1 0 \
        + to 9 Copy first~39=200~51=58~55=58~63=116~103=58~104=3~105=255~106=255~107=255\
        ~108=255~109=255~110=255~111=255
        piece 6 1 0 0 0 1032 1024 of State 1 listed_116 =>
        piece 6 1 0 0 0 1032 0 of State 1 listed_116 => StateAck 1 0
        ",
    ),
    (
        "who may say it",
        "
        renew 1 => -
        Granted 1 => 69
        from 1 to 8 Granted 1 => 69
        from 8 to 8 Granted 1 => 69
        from 9 to 9 Granted 1 => 69
        from 9 to 0 Granted 1 => 69
        begin writes => 72
        would_save Copy first => 0
        Copy first => 69
        from 8 to 8 Copy first => 69
        from 8 to 9 Copy first => 69
        from 9 to 9 Copy first => 69
        would_save from 9 to 8 State 1 first => 0
        from 9 to 8 State 1 first => 69
        from 9 to 8 State 1 first~15=1 => 69
        from 9 to 8 NoState 1 0 1 => 69
        from 9 to 8 WantState 1 1 0 => 69
        from 9 to 8 Started 1 => 69
        from 9 to 8 Report 1 1 0 1 0 0 1 0 0 => 69
        from 9 to 8 Refused 1 60 0 0 1 0 1 => 69
        from 9 to 8 Jobs 1 writes => 69
        from 9 to 8 StateAck 1 0 => 69
        from 9 to 8 Fetch 1 => 69
        from 8 to 9 Fetch 1 => 69
        Fetch 1 => 69
        saved 1 0 0 => none
        State 1 first => StateAck 1 0 + to 9 Copy first
        CopyOk 1 0 0 => 69
        from 8 to 8 CopyOk 1 0 0 => 69
        from 9 to 9 CopyOk 1 0 0 => 69
        tick => to 9 Fetch 1 + to 9 Copy first
        restart mirror => of 1 4294967296 4294967296 first
        ",
    ),
    (
        "a mirror that comes, and one that goes",
        "
        restart => -
        State 1 first => StateAck 1 0
        tick =>
        restart mirror => 0 0 first
        tick => to 9 Copy first
        State 2 first~19=1 => StateAck 1 1 + to 9 Copy first~19=1
        from 9 to 8 CopyOk 1 0 0 =>
        tick => to 9 Copy first~19=1
        restart => 0 0 first first~19=1
        tick =>
        State 1 first~11=2 => StateAck 2 0
        tick =>
        ",
    ),
];

/// With two servers.
pub static OF_TWO: [Story; 1] = [(
    "asked again between the grant and the copies",
    "
    note of 1 4294967297 4294967296 first~15=1 first => -
    restart mirror => of 1 4294967297 4294967296 first~15=1 first
    trigger 1 0 => Trigger 1 0 + to 1 Trigger 1 0
    tick => to 9 Fetch 1 + Trigger 1 0 + to 1 Trigger 1 0 \
    + to 9 Copy first~15=1 + to 9 Copy first
    from 1 to 8 State 2 first~15=1~19=1 => to 1 StateAck 1 1 + to 9 Copy first~15=1~19=1
    from 9 to 8 Granted 1 =>
    begin writes => run 4294967298 + Jobs 4294967298 writes + to 1 Jobs 4294967298 writes
    verify 1 reads => attempt 4294967297 + Verify 1 4294967297 reads \
    + to 1 Verify 1 4294967297 reads
    from 9 to 8 CopyOk 1 0 0 =>
    tick => Trigger 1 0 + to 1 Trigger 1 0 + Jobs 4294967298 writes \
    + to 1 Jobs 4294967298 writes + Verify 1 4294967297 reads \
    + to 1 Verify 1 4294967297 reads + to 9 Copy first~15=1 + to 9 Copy first~15=1~19=1
    from 2 to 8 State 2 first~15=2 => 69
    from 9 to 8 Copy first~15=2 =>
    restart mirror => of 1 4294967298 4294967297 first~15=1 first first~15=1~19=1 first~15=2
    ",
)];

/// Over a note with all the states that it has room for.
pub static FULL: &str = "
    would_save from 9 to 8 Copy first~11=200 => 0
    from 9 to 8 Copy first~11=200 => 73
    from 9 to 8 Copy first~11=1 =>
    from 9 to 8 Copy first~11=1~111=3 => 71
    from 9 to 8 CopyOk 200 0 0 =>
    State 1 first~11=200 => 73
    State 1 first~11=1 => StateAck 1 0
    begin writes => run 1 + Jobs 1 writes
";

/// What comes of a tick where the mirror is known to keep none: the copies (FC, 1, 18, from 8 to 9, 136 bytes).
pub const ASKED_AGAIN: AllCopies = AllCopies {
    opening: "restart mirror",
    event: "tick",
    front: None,
    head: b"FC\x01\x12\0\0\0\x08\0\0\0\x09\0\0\0\x88",
};
