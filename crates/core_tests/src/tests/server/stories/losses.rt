//! Saves that fail.

use super::LostSave;

pub static LOST_SAVES: [LostSave; 4] = [
    LostSave {
        name: "a server that is down shows what was before",
        at: 2,
        landed: true,
        rows: "
        restart => -
        on => 1
        Jobs 1 writes => JobsOk 1 1
        Start 1 => Started 1
        Trigger 1 0 => State 1 fresh
        Verify 1 1 reads => WantState 1 1 0
        Jobs 2 two => JobsOk 2 2
        status => 1 1 2 1 taken 1
        Start 2 => 53
        on => 0
        status => 1 1 2 1 taken 1
        taken 0 => fresh
        run_job 0 => a
        run_job 1 => none
        check_job 0 => a
        check_state 0 => wanting
        would_save Start 2 => 0
        Jobs 3 writes => 68
        Start 2 => 68
        Start 1 => 68
        Trigger 1 0 => 68
        StateAck 1 0 => 68
        Stop 1 => 68
        Verify 1 1 reads => 68
        Saved 1 fresh => 68
        NoSaved 1 1 0 => 68
        issue 0 => 68
        done 0 1 0 0 0 0 => 68
        check 0 1 0 0 0 0 0 0 => 68
        piece 1 3 0 0 0 2008 0 of Jobs 3 long_writes => 68
        from 8 to 1 piece 1 3 0 0 0 2008 0 of Jobs 3 long_writes => 68
        from 8 to 1 Start 2 => 68
        from 0 to 8 Started 2 => 68
        on => 0
        status => 1 1 2 1 taken 1
        restart => 1 2
        on => 1
        status => 2 2 0 0 idle 0
        taken 0 => none
        run_job 0 => none
        check_job 0 => none
        check_state 0 => none
        ",
    },
    LostSave {
        name: "a restart whose bytes stay",
        at: 0,
        landed: true,
        rows: "
        restart => - / 53
        restart => 1 0
        status => 2 0 0 0 idle 0
        ",
    },
    LostSave {
        name: "a restart whose bytes are lost",
        at: 0,
        landed: false,
        rows: "
        restart => - / 53
        restart => -
        status => 1 0 0 0 idle 0
        ",
    },
    LostSave {
        name: "a restart behind a run whose bytes stay",
        at: 2,
        landed: true,
        rows: "
        restart => -
        Jobs 1 writes => JobsOk 1 1
        Start 1 => Started 1
        restart => 1 1 / 53
        restart => 2 1
        status => 3 1 0 0 idle 0
        ",
    },
];
