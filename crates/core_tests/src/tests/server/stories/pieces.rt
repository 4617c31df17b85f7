//! Packets that come in pieces: behind `piece` stand its whole kind, its run, number, server, job,
//! length and place, and the packet whose bytes it has.

use super::Story;

pub static STORIES: [Story; 6] = [
    (
        "two pieces, computed elsewhere",
        "
        restart => -
        46430111000000080000000000000421\
        01000000000000000100000000000000000000000000000000000007d800000000\
        00000000000000015b615d0a72773d77726974650a62733d3531320a73697a653d316b0a696f6465\
        7074683d320a23_78*977 =>
        464301110000000800000000000003f9\
        01000000000000000100000000000000000000000000000000000007d800000400\
        _78*983_0a \
        => 4643010200000000000000080000000c000000000000000100000001
        status => 1 0 1 0 idle 0
        restart => 1 0
        ",
    ),
    (
        "pieces reversed and doubled",
        "
        restart => -
        piece 1 1 0 0 0 2008 1024 of Jobs 1 long_writes =>
        piece 1 1 0 0 0 2008 1024 of Jobs 1 long_writes =>
        status => 1 0 0 0 idle 0
        piece 1 1 0 0 0 2008 0 of Jobs 1 long_writes => JobsOk 1 1
        status => 1 0 1 0 idle 0
        piece 1 1 0 0 0 2008 0 of Jobs 1 long_writes =>
        piece 1 1 0 0 0 2008 0 of Jobs 1 long_writes =>
        would_save piece 1 1 0 0 0 2008 1024 of Jobs 1 long_writes => 0
        piece 1 1 0 0 0 2008 1024 of Jobs 1 long_writes => JobsOk 1 1
        Start 1 => Started 1
        piece 1 1 0 0 0 2008 0 of Jobs 1 long_writes =>
        piece 1 1 0 0 0 2008 1024 of Jobs 1 long_writes => Refused 1 60 0 0 1 0 1
        ",
    ),
    (
        "pieces that a server doesn't take",
        "
        restart => -
        piece 1 1 0 0 0 2008 0 of Jobs 1 long_writes =>
        from 8 to 1 piece 1 1 0 0 0 2008 1024 of Jobs 1 long_writes => 69
        from 8 to 8 piece 1 1 0 0 0 2008 1024 of Jobs 1 long_writes => 69
        from 0 to 0 piece 1 1 0 0 0 2008 1024 of Jobs 1 long_writes => 69
        piece 6 1 0 0 0 1032 0 of Jobs 1 long_writes => 69
        status => 1 0 0 0 idle 0
        piece 1 1 0 0 0 2008 1024 of Jobs 1 long_writes => JobsOk 1 1
        ",
    ),
    (
        "bytes that aren't their tag's packet",
        "
        restart => -
        piece 1 2 0 0 0 2008 0 of Jobs 1 long_writes =>
        piece 1 2 0 0 0 2008 0 of Jobs 2 long_writes =>
        piece 1 2 0 0 0 2008 1024 of Jobs 2 long_writes => 43
        status => 1 0 0 0 idle 0
        piece 1 2 0 0 0 2008 1024 of Jobs 2 long_writes =>
        piece 1 2 0 0 0 2008 0 of Jobs 2 long_writes => JobsOk 2 1
        ",
    ),
    (
        "pieces are lost by a cut",
        "
        restart => -
        piece 1 1 0 0 0 2008 0 of Jobs 1 long_writes =>
        restart => 1 0
        piece 1 1 0 0 0 2008 1024 of Jobs 1 long_writes =>
        piece 1 1 0 0 0 2008 0 of Jobs 1 long_writes => JobsOk 1 1
        ",
    ),
    (
        "a verify and a state in pieces",
        "
        restart => -
        Jobs 1 writes => JobsOk 1 1
        Start 1 => Started 1
        issue 0 => write 1 1 0 0 0 0
        Stop 1 => Stopped 1
        piece 11 1 1 0 0 2016 1024 of Verify 1 1 long_reads =>
        piece 11 1 1 0 0 2016 0 of Verify 1 1 long_reads => Refused 11 61 0 0 1 1 0
        done 1 1 0 0 0 0 =>
        piece 11 1 1 0 0 2016 0 of Verify 1 1 long_reads =>
        piece 11 1 2 0 0 2016 1024 of Verify 1 2 long_reads =>
        piece 11 1 1 0 0 2016 1024 of Verify 1 1 long_reads => WantState 1 1 0
        Verify 1 2 [a]|bs=512|size=1k|io_size=100k|verify_state_load| => WantState 1 2 0
        piece 13 1 2 0 0 1036 0 of Saved 2 listed_116 =>
        check_state 0 => wanting
        piece 13 1 2 0 0 1036 1024 of Saved 2 listed_116 =>
        check_state 0 => with first~39=200~51=58~55=58~63=116~103=58~104=3~105=255~106=255\
        ~107=255~108=255~109=255~110=255~111=255
        ",
    ),
];
