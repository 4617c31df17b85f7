//! Numbers of a client with a mirror, and the grant of a generation.

use super::Story;

pub static STORIES: [Story; 8] = [
    (
        "numbers wait for the grant",
        "
        renew 1 => -
        begin writes => 72
        begin too_long => 1
        verify 1 reads => 72
        verify 1 too_long => 1
        verify 0 reads => 70
        verify 4294967297 reads => 70
        would_verify 1 reads => 0
        from 9 to 8 Granted 2 =>
        from 9 to 8 Granted 4294967295 =>
        begin writes => 72
        verify 1 reads => 72
        tick => to 9 Fetch 1
        from 9 to 8 Granted 1 =>
        tick =>
        would_verify 1 reads => 1
        verify 1 reads => attempt 4294967297 + Verify 1 4294967297 reads
        begin writes => run 4294967297 + Jobs 4294967297 writes
        from 9 to 8 Granted 2 =>
        from 9 to 8 Granted 1 =>
        begin reads => run 4294967298 + Jobs 4294967298 reads
        restart mirror => of 1 4294967298 4294967297
        ",
    ),
    (
        "a grant is for one life",
        "
        renew 1 => -
        from 9 to 8 Granted 1 =>
        begin writes => run 4294967297 + Jobs 4294967297 writes
        restart mirror => of 1 4294967297 4294967296
        begin writes => 72
        tick => to 9 Fetch 1
        from 9 to 8 Granted 1 =>
        begin writes => run 4294967298 + Jobs 4294967298 writes
        tick => Jobs 4294967298 writes
        restart mirror => of 1 4294967298 4294967296
        verify 4294967298 reads => 72
        tick => to 9 Fetch 1
        restart mirror => of 1 4294967298 4294967296
        tick => to 9 Fetch 1
        ",
    ),
    (
        "what is asked before the grant",
        "
        renew 1 => -
        trigger 4294967296 1 => Trigger 4294967296 1
        trigger 4294967297 1 => 70
        stop 1 => Stop 1
        stop 4294967297 => 70
        tick => to 9 Fetch 1 + Stop 1 + Trigger 4294967296 1
        NoState 4294967296 0 1 => StateAck 4294967296 0
        outcome trigger 4294967296 0 => good
        tick => to 9 Fetch 1 + Stop 1
        Stopped 1 =>
        outcome stop 1 0 => good
        tick => to 9 Fetch 1
        restart mirror => of 1 4294967296 4294967296
        ",
    ),
    (
        "a generation without a mirror",
        "
        note of 1 4294967297 4294967296 first => -
        restart => of 1 4294967297 4294967296 first
        used => 4294967297 4294967296
        begin writes => 72
        begin too_long => 1
        verify 4294967297 reads => 72
        verify 4294967298 reads => 70
        from 9 to 8 Granted 1 => 69
        from 9 to 8 CopyOk 1 0 0 => 69
        would_save from 9 to 8 Copy first~11=2 => 0
        from 9 to 8 Copy first~11=2 => 69
        from 9 to 8 State 1 first => 69
        begin writes => 72
        verify 4294967297 reads => 72
        tick =>
        trigger 4294967297 1 => Trigger 4294967297 1
        State 1 first~7=1 => StateAck 4294967297 0
        outcome trigger 4294967297 0 => good
        stop 4294967297 => Stop 4294967297
        tick => Stop 4294967297
        restart mirror => of 1 4294967297 4294967296 first first~7=1
        tick => to 9 Fetch 1 + to 9 Copy first + to 9 Copy first~7=1
        ",
    ),
    (
        "a mirror without a generation",
        "
        note 4294967294 4294967294 => -
        restart mirror => 4294967294 4294967294
        tick =>
        from 9 to 8 Granted 1 =>
        begin writes => run 4294967295 + Jobs 4294967295 writes
        begin writes => 72
        verify 1 reads => attempt 4294967295 + Verify 1 4294967295 reads
        verify 1 reads => 72
        used => 4294967295 4294967295
        restart => 4294967295 4294967295
        begin writes => run 4294967296 + Jobs 4294967296 writes
        verify 1 reads => attempt 4294967296 + Verify 1 4294967296 reads
        restart mirror => 4294967296 4294967296
        begin writes => 72
        verify 1 reads => 72
        trigger 4294967296 1 => Trigger 4294967296 1
        ",
    ),
    (
        "the last numbers of a generation",
        "
        note of 1 8589934590 8589934589 => -
        restart mirror => of 1 8589934590 8589934589
        from 9 to 8 Granted 1 =>
        begin writes => run 8589934591 + Jobs 8589934591 writes
        would_begin writes => 0
        begin writes => 72
        begin too_long => 1
        verify 8589934591 reads => attempt 8589934590 + Verify 8589934591 8589934590 reads
        verify 8589934591 => attempt 8589934591 + Verify 8589934591 8589934591
        would_verify 8589934591 reads => 0
        verify 8589934591 reads => 72
        verify 8589934592 reads => 70
        restart mirror => of 1 8589934591 8589934591
        from 9 to 8 Granted 1 =>
        begin writes => 72
        ",
    ),
    (
        "the last numbers of the last generation",
        "
        note of 4294967295 18446744073709551614 18446744073709551614 => -
        restart mirror => of 4294967295 18446744073709551614 18446744073709551614
        from 9 to 8 Granted 4294967295 =>
        begin writes => run 18446744073709551615 + Jobs 18446744073709551615 writes
        begin writes => 72
        verify 1 reads => attempt 18446744073709551615 + Verify 1 18446744073709551615 reads
        verify 1 reads => 72
        restart mirror => of 4294967295 18446744073709551615 18446744073709551615
        ",
    ),
    (
        "numbers of a later generation",
        "
        note of 1 8589934592 4294967296 => -
        restart mirror => of 1 8589934592 4294967296
        from 9 to 8 Granted 1 =>
        begin writes => 72
        verify 8589934592 reads => attempt 4294967297 + Verify 8589934592 4294967297 reads
        ",
    ),
];
