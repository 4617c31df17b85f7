//! States that come in pieces: behind `piece` stand the whole kind, the run, number, server, job, length
//! and place, and the packet whose bytes the piece has.

use super::Story;

pub static STORIES: [Story; 4] = [
    (
        "reversed and doubled",
        "
        restart => -
        piece 6 1 0 0 0 1032 1024 of State 1 listed_116 =>
        piece 6 1 0 0 0 1032 1024 of State 1 listed_116 =>
        would_save piece 6 1 0 0 0 1032 1024 of State 1 listed_116 => 0
        would_save piece 6 1 0 0 0 1032 0 of State 1 listed_116 => 1
        saved 1 0 0 => none
        piece 6 1 0 0 0 1032 0 of State 1 listed_116 => StateAck 1 0
        saved 1 0 0 => first~39=200~51=58~55=58~63=116~103=58~104=3~105=255~106=255~107=255\
        ~108=255~109=255~110=255~111=255
        piece 6 1 0 0 0 1032 0 of State 1 listed_116 =>
        piece 6 1 0 0 0 1032 0 of State 1 listed_116 =>
        would_save piece 6 1 0 0 0 1032 1024 of State 1 listed_116 => 0
        piece 6 1 0 0 0 1032 1024 of State 1 listed_116 => StateAck 1 0
        ",
    ),
    (
        "pieces that aren't for the client",
        "
        restart => -
        piece 6 1 0 0 0 1032 0 of State 1 listed_116 =>
        from 1 to 8 piece 6 1 0 0 0 1032 1024 of State 1 listed_116 => 69
        from 8 to 8 piece 6 1 0 0 0 1032 1024 of State 1 listed_116 => 69
        from 9 to 8 piece 6 1 0 0 0 1032 1024 of State 1 listed_116 => 69
        from 0 to 0 piece 6 1 0 0 0 1032 1024 of State 1 listed_116 => 69
        piece 1 1 0 0 0 1032 0 of State 1 listed_116 => 69
        piece 11 1 1 0 0 1032 0 of State 1 listed_116 => 69
        piece 13 1 1 0 0 1032 0 of State 1 listed_116 => 69
        would_save from 1 to 8 piece 6 1 0 0 0 1032 1024 of State 1 listed_116 => 0
        piece 6 1 0 0 0 1032 1024 of State 1 listed_116 => StateAck 1 0
        ",
    ),
    (
        "bytes that aren't their tag's packet, and one that is refused",
        "
        restart => -
        piece 6 2 0 0 0 1032 0 of State 1 listed_116 =>
        would_save piece 6 2 0 0 0 1032 1024 of State 1 listed_116 => 0
        piece 6 2 0 0 0 1032 1024 of State 1 listed_116 => 43
        piece 6 2 0 0 0 1032 1024 of State 1 listed_116 =>
        State 1 first => StateAck 1 0
        piece 6 1 0 0 0 1032 0 of State 1 listed_116 =>
        piece 6 1 0 0 0 1032 1024 of State 1 listed_116 => 71
        piece 6 1 0 0 0 1032 1024 of State 1 listed_116 => 71
        saved 1 0 0 => first
        ",
    ),
    (
        "pieces are lost by a cut",
        "
        restart => -
        piece 6 1 0 0 0 1032 0 of State 1 listed_116 =>
        restart => -
        piece 6 1 0 0 0 1032 1024 of State 1 listed_116 =>
        saved 1 0 0 => none
        piece 6 1 0 0 0 1032 0 of State 1 listed_116 => StateAck 1 0
        ",
    ),
];
