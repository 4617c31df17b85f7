//! Clients that begin anew, and what they are restarted over.

use super::{LostSave, Story};

pub static STORIES: [Story; 4] = [
    (
        "generations that a note begins anew with",
        "
        renew 0 => - / 88
        renew 4294967296 => - / 88
        renew 18446744073709551615 => - / 88
        renew 4294967295 => -
        blank => 0
        used => 18446744069414584320 18446744069414584320
        tick => to 9 Fetch 4294967295
        renew 1 => of 4294967295 18446744069414584320 18446744069414584320 / 54
        restart mirror => of 4294967295 18446744069414584320 18446744069414584320
        ",
    ),
    (
        "only a lost note is begun anew",
        "
        note 0 0 => -
        renew 1 => 0 0 / 54
        renew 0 => 0 0 / 88
        renew 4294967296 => 0 0 / 88
        note old 0 0 => 0 0
        renew 1 => old 0 0 / 54
        note 4643 => old 0 0
        renew 0 => 4643 / 88
        renew 1 => 4643 / 54
        restart mirror => 4643 / 54
        restart => 4643 / 54
        note - => 4643
        renew 1 => -
        note - => of 1 4294967296 4294967296
        renew 1 => -
        restart mirror => of 1 4294967296 4294967296
        ",
    ),
    (
        "no note is found without a mirror alone",
        "
        restart mirror => - / 54
        restart => -
        blank => 1
        restart mirror => - / 54
        restart => -
        begin writes => run 1 + Jobs 1 writes
        restart mirror => 1 0
        ",
    ),
    (
        "a note from before there were generations",
        "
        note old 1 2 first => -
        restart mirror => old 1 2 first
        used => 1 2
        saved 1 0 0 => first
        tick => to 9 Copy first
        restart => old 1 2 first
        tick =>
        restart mirror => old 1 2 first
        begin writes => run 2 + Jobs 2 writes
        restart => 464343320000000000000000\
        00000000000000020000000000000002\
        000000010000008846435632000000000000000100000000000000000000000000000200\
        000000020000000000000002000000000000000100000002000000020000000000000002cfc5d07f\
        6f03c29bbf424132963fe08d19a37d5757aaf520bf08119f05cd56d6000000000000000000000000\
        00000001000000000000000000000000000000000000000000000000
        blank => 0
        begin writes => run 3 + Jobs 3 writes
        ",
    ),
];

pub static LOST_SAVES: [LostSave; 8] = [
    LostSave {
        name: "a renewal that is lost",
        at: 0,
        landed: false,
        rows: "
        renew 1 => - / 53
        restart mirror => - / 54
        renew 2 => -
        tick => to 9 Fetch 2
        restart mirror => of 2 8589934592 8589934592
        ",
    },
    LostSave {
        name: "a renewal whose note stays",
        at: 0,
        landed: true,
        rows: "
        renew 1 => - / 53
        renew 2 => of 1 4294967296 4294967296 / 54
        restart mirror => of 1 4294967296 4294967296
        tick => to 9 Fetch 1
        ",
    },
    LostSave {
        name: "a state whose save is lost isn't copied",
        at: 1,
        landed: false,
        rows: "
        renew 1 => -
        State 1 first => 53
        on => 0
        saved 1 0 0 => none
        from 9 to 8 Granted 1 => 68
        from 9 to 8 Copy first => 68
        from 9 to 8 CopyOk 1 0 0 => 68
        would_save from 9 to 8 Copy first => 0
        would_begin writes => 0
        tick => 68
        restart mirror => of 1 4294967296 4294967296
        tick => to 9 Fetch 1
        State 1 first => StateAck 1 0 + to 9 Copy first
        ",
    },
    LostSave {
        name: "a state that stays is copied behind the restart",
        at: 1,
        landed: true,
        rows: "
        renew 1 => -
        State 1 first => 53
        saved 1 0 0 => none
        restart mirror => of 1 4294967296 4294967296 first
        State 1 first => StateAck 1 0
        tick => to 9 Fetch 1 + to 9 Copy first
        ",
    },
    LostSave {
        name: "a copy whose save is lost",
        at: 1,
        landed: false,
        rows: "
        renew 2 => -
        from 9 to 8 Granted 2 =>
        would_save from 9 to 8 Copy first => 1
        from 9 to 8 Copy first => 53
        on => 0
        saved 1 0 0 => none
        begin writes => 68
        restart mirror => of 2 8589934592 8589934592
        begin writes => 72
        from 9 to 8 Copy first =>
        saved 1 0 0 => first
        ",
    },
    LostSave {
        name: "a copy that stays though its save fails",
        at: 1,
        landed: true,
        rows: "
        renew 2 => -
        from 9 to 8 Copy first => 53
        saved 1 0 0 => none
        restart mirror => of 2 8589934592 8589934592 first
        would_save from 9 to 8 Copy first => 0
        from 9 to 8 Copy first =>
        from 9 to 8 Copy first~111=3 => 71
        saved 1 0 0 => first
        ",
    },
    LostSave {
        name: "a renewal that is refused saves nothing",
        at: 1,
        landed: false,
        rows: "
        note 0 0 => -
        renew 0 => 0 0 / 88
        renew 1 => 0 0 / 54
        restart mirror => 0 0
        begin writes => 53
        restart mirror => 0 0
        begin writes => run 1 + Jobs 1 writes
        ",
    },
    LostSave {
        name: "what a mirror says of what is known saves nothing",
        at: 2,
        landed: false,
        rows: "
        renew 1 => -
        from 9 to 8 Copy first =>
        restart mirror => of 1 4294967296 4294967296 first
        from 9 to 8 Granted 2 =>
        from 9 to 8 Granted 1 =>
        from 9 to 8 Copy first =>
        from 9 to 8 CopyOk 1 0 1 =>
        from 9 to 8 CopyOk 1 0 0 =>
        State 1 first => StateAck 1 0
        tick =>
        begin writes => 53
        restart mirror => of 1 4294967296 4294967296 first
        ",
    },
];
