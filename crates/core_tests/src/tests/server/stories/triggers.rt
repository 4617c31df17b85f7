//! A run is taken, stopped and marked.

use super::Story;

pub static STORIES: [Story; 7] = [
    (
        "a second trigger sends the same states",
        "
        restart => -
        Jobs 1 writes => JobsOk 1 1
        Start 1 => Started 1
        run_job 0 => a
        run_job 1 => none
        issue 0 => write 1 1 0 0 0 0
        issue 0 => write 1 1 0 0 1 1
        issue 0 => finished
        done 1 1 0 0 0 0 =>
        taken 0 => none
        Trigger 1 0 => State 1 first
        taken 0 => first
        taken 1 => none
        issue 0 => stopped
        done 1 1 0 0 1 1 =>
        Trigger 1 0 => State 1 first
        Trigger 1 1 => State 1 first
        taken 0 => first
        status => 1 1 0 1 taken 0
        restart => 1 1
        status => 2 1 0 0 idle 0
        taken 0 => none
        run_job 0 => none
        Trigger 1 0 => Refused 5 63 0 0 1 0 1
        done 1 1 0 0 1 1 => 20
        ",
    ),
    (
        "a stopped run isn't taken",
        "
        restart => -
        Jobs 1 writes => JobsOk 1 1
        Start 1 => Started 1
        issue 0 => write 1 1 0 0 0 0
        Stop 1 => Stopped 1
        issue 0 => stopped
        done 1 1 0 0 0 0 =>
        Trigger 1 1 => Refused 5 63 0 0 1 0 1
        StateAck 1 0 =>
        Stop 1 => Stopped 1
        status => 1 1 0 1 stopped 0
        taken 0 => none
        ",
    ),
    (
        "a taken run stays taken",
        "
        restart => -
        Jobs 1 writes => JobsOk 1 1
        Start 1 => Started 1
        Trigger 1 0 => State 1 fresh
        Stop 1 => Stopped 1
        status => 1 1 0 1 taken 0
        Trigger 1 0 => State 1 fresh
        ",
    ),
    (
        "the last mark asks for the cut, once",
        "
        restart => -
        StateAck 1 0 =>
        Jobs 1 two => JobsOk 1 2
        Start 1 => Started 1
        StateAck 1 0 =>
        StateAck 1 1 =>
        issue 1 => write 1 1 0 1 0 0
        Trigger 1 1 => State 2 fresh + State 2 fresh~19=1~63=1
        StateAck 1 1 =>
        StateAck 1 1 =>
        StateAck 1 2 =>
        StateAck 1 15 =>
        StateAck 2 0 =>
        Trigger 1 0 => State 2 fresh + State 2 fresh~19=1~63=1
        StateAck 1 0 => cut
        StateAck 1 0 =>
        StateAck 1 1 =>
        Trigger 1 1 => State 2 fresh + State 2 fresh~19=1~63=1
        StateAck 1 1 =>
        StateAck 1 0 =>
        ",
    ),
    (
        "the first trigger's act counts",
        "
        restart => -
        Jobs 1 writes => JobsOk 1 1
        Start 1 => Started 1
        Trigger 1 0 => State 1 fresh
        Trigger 1 1 => State 1 fresh
        StateAck 1 0 =>
        ",
    ),
    (
        "a job without a state wants its mark",
        "
        restart => -
        Jobs 1 unsaved => JobsOk 1 2
        Start 1 => Started 1
        Trigger 1 1 => NoState 1 0 2 + State 2 fresh~19=1
        taken 0 => none
        taken 1 => fresh~19=1
        StateAck 1 1 =>
        StateAck 1 0 => cut
        ",
    ),
    (
        "sixteen jobs",
        "
        restart => -
        Jobs 1 [a]|rw=write|size=4k|numjobs=16|verify_state_save=0| => JobsOk 1 16
        Start 1 => Started 1
        issue 15 => write 1 1 0 15 0 0
        issue 16 => stopped
        Trigger 1 1 => NoState 1 0 16 + NoState 1 1 16 + NoState 1 2 16 + NoState 1 3 16 \
        + NoState 1 4 16 + NoState 1 5 16 + NoState 1 6 16 + NoState 1 7 16 + NoState 1 8 16 \
        + NoState 1 9 16 + NoState 1 10 16 + NoState 1 11 16 + NoState 1 12 16 \
        + NoState 1 13 16 + NoState 1 14 16 + NoState 1 15 16
        done 1 1 0 15 0 0 =>
        StateAck 1 0 =>
        StateAck 1 1 =>
        StateAck 1 2 =>
        StateAck 1 3 =>
        StateAck 1 4 =>
        StateAck 1 5 =>
        StateAck 1 6 =>
        StateAck 1 7 =>
        StateAck 1 8 =>
        StateAck 1 9 =>
        StateAck 1 10 =>
        StateAck 1 11 =>
        StateAck 1 12 =>
        StateAck 1 13 =>
        StateAck 1 15 =>
        StateAck 1 14 => cut
        ",
    ),
];
