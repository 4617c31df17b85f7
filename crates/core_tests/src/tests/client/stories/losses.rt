//! Saves that fail.

use super::LostSave;

pub static LOST_SAVES: [LostSave; 8] = [
    LostSave {
        name: "a begin whose number is lost",
        at: 0,
        landed: false,
        rows: "
        restart => -
        begin writes => 53
        on => 0
        used => 0 0
        begin writes => 68
        begin too_long => 68
        restart => -
        begin writes => run 1 + Jobs 1 writes
        ",
    },
    LostSave {
        name: "a begin whose number stays",
        at: 0,
        landed: true,
        rows: "
        restart => -
        begin writes => 53
        used => 0 0
        restart => 1 0
        used => 1 0
        begin writes => run 2 + Jobs 2 writes
        ",
    },
    LostSave {
        name: "a verify whose number is lost",
        at: 1,
        landed: false,
        rows: "
        restart => -
        begin writes => run 1 + Jobs 1 writes
        verify 1 reads => 53
        outcome verify 1 0 => none
        outcome begin 1 0 => open
        restart => 1 0
        verify 1 reads => attempt 1 + Verify 1 1 reads
        ",
    },
    LostSave {
        name: "a verify whose number stays",
        at: 1,
        landed: true,
        rows: "
        restart => -
        begin writes => run 1 + Jobs 1 writes
        verify 1 reads => 53
        restart => 1 1
        verify 1 reads => attempt 2 + Verify 1 2 reads
        ",
    },
    LostSave {
        name: "a client that is down shows what was before",
        at: 3,
        landed: true,
        rows: "
        restart => -
        begin writes => run 1 + Jobs 1 writes
        JobsOk 1 1 => Start 1
        verify 1 reads => attempt 1 + Verify 1 1 reads
        trigger 1 1 => Trigger 1 1
        State 2 first => StateAck 1 0
        Report 1 1 0 2 0 0 4 0 0 =>
        piece 6 9 0 0 0 1032 0 of State 1 listed_116 =>
        State 2 first~19=1 => 53
        on => 0
        blank => 0
        used => 1 1
        saved 1 0 0 => first
        saved 1 0 1 => none
        outcome begin 1 0 => open
        outcome trigger 1 0 => open
        outcome verify 1 0 => open
        settled 1 => 0
        reports => 1 1 0 0 4
        would_save State 2 first~19=1 => 0
        would_save piece 6 9 0 0 0 1032 1024 of State 1 listed_116 => 0
        State 2 first~19=1 => 68
        State 2 first~63=1~111=0 => 68
        from 1 to 8 Started 1 => 68
        Started 1 => 68
        trigger 1 1 => 68
        trigger 2 1 => 68
        stop 1 => 68
        verify 1 reads => 68
        tick => 68
        piece 6 9 0 0 0 1032 1024 of State 1 listed_116 => 68
        from 1 to 8 piece 6 9 0 0 0 1032 1024 of State 1 listed_116 => 68
        restart => 1 1 first first~19=1
        on => 1
        tick =>
        State 2 first~19=1 => StateAck 1 1
        ",
    },
    LostSave {
        name: "a state in pieces whose save is lost",
        at: 0,
        landed: false,
        rows: "
        restart => -
        piece 6 1 0 0 0 1032 1024 of State 1 listed_116 =>
        piece 6 1 0 0 0 1032 0 of State 1 listed_116 => 53
        restart => -
        piece 6 1 0 0 0 1032 0 of State 1 listed_116 =>
        piece 6 1 0 0 0 1032 1024 of State 1 listed_116 => StateAck 1 0
        ",
    },
    LostSave {
        name: "a state in pieces whose save stays",
        at: 0,
        landed: true,
        rows: "
        restart => -
        piece 6 1 0 0 0 1032 1024 of State 1 listed_116 =>
        piece 6 1 0 0 0 1032 0 of State 1 listed_116 => 53
        saved 1 0 0 => none
        restart => 0 0 first~39=200~51=58~55=58~63=116~103=58~104=3~105=255~106=255~107=255\
        ~108=255~109=255~110=255~111=255
        piece 6 1 0 0 0 1032 0 of State 1 listed_116 =>
        would_save piece 6 1 0 0 0 1032 1024 of State 1 listed_116 => 0
        piece 6 1 0 0 0 1032 1024 of State 1 listed_116 => StateAck 1 0
        ",
    },
    LostSave {
        name: "a second state whose save is lost",
        at: 2,
        landed: false,
        rows: "
        restart => -
        begin writes => run 1 + Jobs 1 writes
        JobsOk 1 1 => Start 1
        trigger 1 1 => Trigger 1 1
        State 2 first => StateAck 1 0
        State 2 first~19=1 => 53
        saved 1 0 0 => first
        saved 1 0 1 => none
        restart => 1 0 first
        State 2 first~19=1 => StateAck 1 1
        State 2 first => StateAck 1 0
        saved 1 0 1 => first~19=1
        ",
    },
];
