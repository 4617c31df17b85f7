//! What workers ask and tell, and what a server doesn't take.

use super::Story;

pub static STORIES: [Story; 6] = [
    (
        "writes are issued",
        "
        restart => -
        issue 0 => stopped
        Jobs 1 [a]|rw=write|bs=512|size=2k|iodepth=1|[b]|rw=write|bs=512|size=2k|iodepth=2| \
        => JobsOk 1 2
        issue 0 => stopped
        Start 1 => Started 1
        issue 2 => stopped
        issue 16 => stopped
        issue 4294967295 => stopped
        issue 0 => write 1 1 0 0 0 0
        issue 0 => full
        issue 1 => write 1 1 0 1 0 0
        issue 1 => write 1 1 0 1 1 1
        issue 1 => full
        done 1 1 0 1 1 1 =>
        issue 1 => held
        done 1 1 0 1 0 0 =>
        issue 1 => write 1 1 0 1 2 2
        fail 1 1 0 1 2 2 =>
        issue 1 => stopped
        done 1 1 0 0 0 0 =>
        issue 0 => write 1 1 0 0 1 1
        ",
    ),
    (
        "two writes to one block",
        "
        restart => -
        Jobs 1 [a]|rw=write|bs=512|size=512|io_size=1k|iodepth=2| => JobsOk 1 1
        Start 1 => Started 1
        issue 0 => write 1 1 0 0 0 0
        issue 0 => overlap
        done 1 1 0 0 0 0 =>
        issue 0 => write 1 1 0 0 1 0
        issue 0 => finished
        ",
    ),
    (
        "tickets that name no open write",
        "
        restart => -
        done 0 1 0 0 0 0 => 20
        done 2 1 0 0 0 0 => 20
        done 1 1 0 0 0 0 => 21
        Jobs 1 writes => JobsOk 1 1
        Start 1 => Started 1
        done 1 1 0 0 0 0 => 21
        issue 0 => write 1 1 0 0 0 0
        done 0 1 0 0 0 0 => 20
        fail 2 1 0 0 0 0 => 20
        done 1 2 0 0 0 0 => 21
        done 1 1 1 0 0 0 => 21
        done 1 1 0 1 0 0 => 21
        fail 1 1 0 4294967295 0 0 => 21
        done 1 1 0 0 1 1 => 21
        fail 1 1 0 0 0 1 => 21
        done 1 1 0 0 18446744073709551615 0 => 21
        done 1 1 0 0 0 0 =>
        done 1 1 0 0 0 0 => 21
        fail 1 1 0 0 0 0 => 21
        issue 0 => write 1 1 0 0 1 1
        fail 1 1 0 0 1 1 =>
        done 1 1 0 0 1 1 => 21
        issue 0 => stopped
        restart => 1 1
        done 1 1 0 0 1 1 => 20
        done 2 1 0 0 1 1 => 21
        ",
    ),
    (
        "a failed write isn't counted",
        "
        restart => -
        Jobs 1 writes => JobsOk 1 1
        Start 1 => Started 1
        issue 0 => write 1 1 0 0 0 0
        issue 0 => write 1 1 0 0 1 1
        fail 1 1 0 0 1 1 =>
        done 1 1 0 0 0 0 =>
        Trigger 1 0 => State 1 first
        ",
    ),
    (
        "frames that a server doesn't take",
        "
        restart => -
        Jobs 1 writes => JobsOk 1 1
        from 8 to 1 Start 1 => 69
        from 8 to 8 Start 1 => 69
        from 0 to 0 Start 1 => 69
        from 1 to 0 Start 1 => 69
        JobsOk 1 1 => 69
        Started 1 => 69
        State 1 first => 69
        NoState 1 0 1 => 69
        Stopped 1 => 69
        WantState 1 1 0 => 69
        Report 1 1 0 1 0 0 1 0 0 => 69
        Refused 1 60 0 0 1 0 1 => 69
        Copy first => 69
        CopyOk 1 0 0 => 69
        Fetch 1 => 69
        Granted 1 => 69
        from 9 to 0 Copy first => 69
        from 9 to 0 Start 1 => 69
        from 8 to 9 Fetch 1 => 69
        from 8 to 7 Jobs 2 writes => 69
        status => 1 0 1 0 idle 0
        Start 1 => Started 1
        from 8 to 1 Trigger 1 0 => 69
        from 8 to 1 Stop 1 => 69
        from 0 to 8 Stopped 1 => 69
        status => 1 1 0 1 writing 0
        ",
    ),
    (
        "runs that never were",
        "
        restart => -
        Trigger 1 0 => Refused 5 65 0 0 1 0 0
        Stop 1 => Refused 9 65 0 0 1 0 0
        Verify 1 1 full => Refused 11 65 0 0 1 1 0
        Jobs 1 writes => JobsOk 1 1
        Trigger 1 1 => Refused 5 65 0 0 1 0 0
        Stop 1 => Refused 9 65 0 0 1 0 0
        Verify 1 1 full => Refused 11 65 0 0 1 1 0
        status => 1 0 1 0 idle 0
        ",
    ),
];
