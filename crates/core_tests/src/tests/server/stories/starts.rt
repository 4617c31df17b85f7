//! A run is staged and started.

use super::Story;

pub static STORIES: [Story; 6] = [
    (
        "jobs are staged",
        "
        restart => -
        Jobs 2 => Refused 1 66 0 0 2 0 6
        Jobs 2 full => Refused 1 66 0 0 2 0 13
        Jobs 2 x=1| => Refused 1 66 0 0 2 0 3
        status => 1 0 0 0 idle 0
        Jobs 2 writes => JobsOk 2 1
        Jobs 2 two => JobsOk 2 1
        Jobs 1 writes => Refused 1 60 0 0 1 0 2
        Jobs 3 two => JobsOk 3 2
        Jobs 2 writes => Refused 1 60 0 0 2 0 3
        Jobs 4 full => Refused 1 66 0 0 4 0 13
        status => 1 0 3 0 idle 0
        Start 3 => Started 3
        status => 1 3 0 3 writing 0
        Jobs 3 writes => Refused 1 60 0 0 3 0 3
        issue 1 => write 1 3 0 1 0 0
        Jobs 5 writes => Refused 1 61 0 0 5 0 0
        Jobs 5 => Refused 1 61 0 0 5 0 0
        done 1 3 0 1 0 0 =>
        Jobs 5 writes => JobsOk 5 1
        issue 1 => write 1 3 0 1 1 1
        Jobs 5 full => JobsOk 5 1
        Jobs 4 writes => Refused 1 60 0 0 4 0 5
        status => 1 3 5 3 writing 0
        restart => 1 3
        status => 2 3 0 0 idle 0
        Jobs 3 writes => Refused 1 60 0 0 3 0 3
        Jobs 4 writes => JobsOk 4 1
        ",
    ),
    (
        "texts that are no writing jobs",
        "
        restart => -
        Jobs 1 => Refused 1 66 0 0 1 0 6
        Jobs 1 reads => Refused 1 66 0 0 1 0 13
        Jobs 1 writes => JobsOk 1 1
        ",
    ),
    (
        "a run is started",
        "
        restart => -
        Start 1 => Refused 3 62 0 0 1 0 0
        Jobs 1 writes => JobsOk 1 1
        Start 2 => Refused 3 62 0 0 2 0 0
        Start 1 => Started 1
        issue 0 => write 1 1 0 0 0 0
        Start 1 => Started 1
        issue 0 => write 1 1 0 0 1 1
        done 1 1 0 0 0 0 =>
        done 1 1 0 0 1 1 =>
        Start 2 => Refused 3 62 0 0 2 0 0
        status => 1 1 0 1 writing 0
        restart => 1 1
        ",
    ),
    (
        "a start waits for open writes",
        "
        restart => -
        Jobs 1 writes => JobsOk 1 1
        Start 1 => Started 1
        Jobs 2 two => JobsOk 2 2
        issue 0 => write 1 1 0 0 0 0
        would_save Start 2 => 0
        Start 2 => Refused 3 61 0 0 2 0 0
        status => 1 1 2 1 writing 0
        fail 1 1 0 0 0 0 =>
        would_save Start 1 => 0
        would_save Start 2 => 1
        Start 2 => Started 2
        status => 1 2 0 2 writing 0
        run_job 1 => b
        Start 1 => Refused 3 60 0 0 1 0 2
        Start 2 => Started 2
        fail 1 1 0 0 0 0 => 21
        issue 0 => write 1 2 0 0 0 0
        Trigger 1 0 => Refused 5 63 0 0 1 0 2
        Trigger 3 0 => Refused 5 65 0 0 3 0 2
        Stop 1 => Refused 9 63 0 0 1 0 2
        Stop 3 => Refused 9 65 0 0 3 0 2
        StateAck 1 0 =>
        ",
    ),
    (
        "start again after a cut",
        "
        restart => -
        Jobs 1 writes => JobsOk 1 1
        Start 1 => Started 1
        restart => 1 1
        Start 1 => Refused 3 60 0 0 1 0 1
        issue 0 => stopped
        Stop 1 => Refused 9 63 0 0 1 0 1
        Jobs 1 writes => Refused 1 60 0 0 1 0 1
        Jobs 2 writes => JobsOk 2 1
        restart => 2 1
        Start 2 => Refused 3 62 0 0 2 0 0
        ",
    ),
    (
        "the greatest run",
        "
        restart => -
        Jobs 18446744073709551615 writes => JobsOk 18446744073709551615 1
        Start 18446744073709551615 => Started 18446744073709551615
        issue 0 => write 1 18446744073709551615 0 0 0 0
        Jobs 18446744073709551615 writes => Refused 1 60 0 0 \
        18446744073709551615 0 18446744073709551615
        restart => 1 18446744073709551615
        status => 2 18446744073709551615 0 0 idle 0
        ",
    ),
];
