//! The last run is checked.

use super::Story;

pub static STORIES: [Story; 7] = [
    (
        "a verify of an overwritten run",
        "
        restart => -
        Jobs 1 writes => JobsOk 1 1
        Start 1 => Started 1
        Jobs 2 writes => JobsOk 2 1
        Start 2 => Started 2
        Verify 1 1 reads => Refused 11 64 0 0 1 1 2
        Verify 1 1 => Refused 11 64 0 0 1 1 2
        Verify 3 1 reads => Refused 11 65 0 0 3 1 2
        status => 1 2 0 2 writing 0
        ",
    ),
    (
        "a verify while writes are to come",
        "
        restart => -
        Jobs 1 writes => JobsOk 1 1
        Start 1 => Started 1
        Verify 2 1 reads => Refused 11 65 0 0 2 1 1
        Verify 1 1 reads => Refused 11 61 0 0 1 1 0
        issue 0 => write 1 1 0 0 0 0
        Verify 1 1 reads => Refused 11 61 0 0 1 1 0
        Verify 1 1 => Refused 11 61 0 0 1 1 0
        fail 1 1 0 0 0 0 =>
        Verify 1 1 reads => WantState 1 1 0
        status => 1 1 0 1 writing 1
        ",
    ),
    (
        "a verify behind the end of a run",
        "
        restart => -
        Jobs 1 two => JobsOk 1 2
        Start 1 => Started 1
        issue 0 => write 1 1 0 0 0 0
        Trigger 1 0 => State 2 fresh~63=1 + State 2 fresh~19=1
        Verify 1 1 full => Refused 11 61 0 0 1 1 0
        done 1 1 0 0 0 0 =>
        Verify 1 1 full =>
        status => 1 1 0 1 taken 1
        Jobs 2 writes => JobsOk 2 1
        Start 2 => Started 2
        status => 1 2 0 2 writing 0
        check_job 0 => none
        check 1 1 0 0 0 2 0 0 => 21
        Stop 2 => Stopped 2
        Verify 2 1 full =>
        Verify 2 2 reads => WantState 2 2 0
        check_job 0 => a
        check_job 1 => none
        status => 1 2 0 2 stopped 2
        ",
    ),
    (
        "jobs that have all ended",
        "
        restart => -
        Jobs 1 writes => JobsOk 1 1
        Start 1 => Started 1
        issue 0 => write 1 1 0 0 0 0
        issue 0 => write 1 1 0 0 1 1
        done 1 1 0 0 1 1 =>
        Verify 1 5 full => Refused 11 61 0 0 1 5 0
        done 1 1 0 0 0 0 =>
        Verify 1 5 full =>
        check 1 5 0 0 0 2 0 0 => Report 1 5 0 1 0 0 2 0 0
        Trigger 1 0 => State 1 first~111=3
        Verify 1 5 full => Report 1 5 0 1 0 0 2 0 0
        ",
    ),
    (
        "a check goes on",
        "
        restart => -
        Jobs 1 writes => JobsOk 1 1
        Start 1 => Started 1
        Stop 1 => Stopped 1
        check 1 1 0 0 0 0 0 0 => 21
        check 0 1 0 0 0 0 0 0 => 20
        Saved 1 first =>
        NoSaved 1 1 0 =>
        Verify 1 1 => Refused 11 66 0 0 1 1 6
        Verify 1 1 writes => Refused 11 66 0 0 1 1 13
        status => 1 1 0 1 stopped 0
        Verify 1 3 [global]|size=1k|bs=512|verify_state_load|[a]|[b]|[c]|verify_state_load=0| \
        => WantState 1 3 0 + WantState 1 3 1
        check_job 1 => b
        check_job 2 => c
        check_job 3 => none
        check_state 0 => wanting
        check_state 1 => wanting
        check_state 2 => full
        check_state 3 => none
        Verify 1 2 full => Refused 11 60 0 0 1 2 3
        Verify 1 3 => WantState 1 3 0 + WantState 1 3 1
        Verify 1 4 => Refused 11 66 0 0 1 4 6
        check 1 3 0 0 0 0 0 0 => 21
        check 1 2 2 0 0 0 0 0 => 21
        check 1 3 3 0 0 0 0 0 => 21
        check 0 3 2 0 0 0 0 0 => 20
        check 2 3 2 0 0 0 0 0 => 20
        check 1 3 2 0 0 2 0 0 => Report 1 3 2 3 0 0 2 0 0
        check_state 2 => done
        check 1 3 2 0 0 2 0 0 => 21
        Saved 2 first =>
        Saved 3 first~19=2 =>
        Saved 3 first~19=5 =>
        NoSaved 1 2 0 =>
        NoSaved 1 3 2 =>
        NoSaved 1 3 5 =>
        Verify 1 3 => WantState 1 3 0 + WantState 1 3 1 + Report 1 3 2 3 0 0 2 0 0
        Saved 3 first =>
        check_state 0 => with first
        Saved 3 fresh =>
        check_state 0 => with first
        NoSaved 9 3 1 =>
        check_state 1 => full
        Verify 1 3 => Report 1 3 2 3 0 0 2 0 0
        NoSaved 1 3 0 =>
        Saved 3 first~15=1 =>
        check_state 0 => with first
        check 1 3 0 1 0 1 1 1 0 => Report 1 3 0 3 1 0 1 1 1 0
        check 1 3 1 2 1 1 0 0 => Report 1 3 1 3 2 1 1 0 0
        Verify 1 3 => Report 1 3 0 3 1 0 1 1 1 0 + Report 1 3 1 3 2 1 1 0 0 \
        + Report 1 3 2 3 0 0 2 0 0
        status => 1 1 0 1 stopped 3
        restart => 1 1
        check 1 3 1 0 0 0 0 0 => 20
        check 2 3 1 0 0 0 0 0 => 21
        Verify 1 3 full =>
        ",
    ),
    (
        "states that don't fit",
        "
        restart => -
        Jobs 1 writes => JobsOk 1 1
        Start 1 => Started 1
        restart => 1 1
        Verify 1 1 [a]|rw=read|bs=1k|size=1k|verify_state_load=1| => WantState 1 1 0
        Saved 1 first => Refused 11 67 0 1 1 1 37
        check_state 0 => refused 37
        Verify 1 1 reads => Refused 11 67 0 1 1 1 37
        check 2 1 0 0 0 1 0 0 => 21
        Saved 1 first =>
        NoSaved 1 1 0 =>
        Verify 1 1 reads => Refused 11 67 0 1 1 1 37
        Verify 1 2 [a]|rw=read|bs=512|size=1k|randseed=2|verify_state_load| => WantState 1 2 0
        Saved 2 first => Refused 11 67 0 1 1 2 37
        Verify 1 3 reads => WantState 1 3 0
        Saved 3 first~64=206 => Refused 11 67 0 1 1 3 38
        Verify 1 4 reads => WantState 1 4 0
        Saved 4 first~15=1 => Refused 11 67 0 1 1 4 36
        Verify 1 5 reads => WantState 1 5 0
        Saved 5 first~11=2 => Refused 11 67 0 1 1 5 36
        Verify 1 6 [a]|rw=read|bs=512|size=1k|iodepth=1|verify_state_load| => WantState 1 6 0
        Saved 6 first =>
        check_state 0 => with first
        Verify 1 6 reads =>
        check 2 6 0 0 0 1 0 0 => Report 1 6 0 1 0 0 1 0 0
        ",
    ),
    (
        "the greatest attempt, and a check of sixteen jobs",
        "
        restart => -
        Jobs 1 writes => JobsOk 1 1
        Start 1 => Started 1
        restart => 1 1
        Verify 1 18446744073709551615 [a]|size=4k|numjobs=16|verify_state_load| => \
        WantState 1 18446744073709551615 0 + WantState 1 18446744073709551615 1 \
        + WantState 1 18446744073709551615 2 + WantState 1 18446744073709551615 3 \
        + WantState 1 18446744073709551615 4 + WantState 1 18446744073709551615 5 \
        + WantState 1 18446744073709551615 6 + WantState 1 18446744073709551615 7 \
        + WantState 1 18446744073709551615 8 + WantState 1 18446744073709551615 9 \
        + WantState 1 18446744073709551615 10 + WantState 1 18446744073709551615 11 \
        + WantState 1 18446744073709551615 12 + WantState 1 18446744073709551615 13 \
        + WantState 1 18446744073709551615 14 + WantState 1 18446744073709551615 15
        Verify 1 1 full => Refused 11 60 0 0 1 1 18446744073709551615
        NoSaved 1 18446744073709551615 15 =>
        check 2 18446744073709551615 15 0 0 1 0 0 => \
        Report 1 18446744073709551615 15 16 0 0 1 0 0
        ",
    ),
];
