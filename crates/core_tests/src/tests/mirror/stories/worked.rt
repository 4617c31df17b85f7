//! The first client and the next, each frame to the byte.

use super::Story;

pub const STORIES: [Story; 1] = [(
    "a state is kept, and given to the next client",
    "
    restart => -
    generation => 0
    would_save bytes of Fetch 1 => 1
    bytes of Fetch 1 => bytes of Granted 1
    generation => 1
    would_save bytes of Copy first => 1
    bytes of Copy first => bytes of CopyOk
    kept 1 0 0 => first
    would_save bytes of Copy first => 0
    bytes of Copy first => bytes of CopyOk
    would_save bytes of Copy another => 0
    bytes of Copy another => 71
    would_save bytes of Fetch 1 => 0
    bytes of Fetch 1 => bytes of Granted 1 + bytes of Copy first to the client
    bytes of Fetch 2 => bytes of Granted 2 + bytes of Copy first to the client
    bytes of Fetch 1 => 60
    restart => 46434d3100000000000000020000000100000088464356320000000000000001_00*14_0200000000020000000000000002000000000000000100000002000000020000000000000002cfc5d07f6f03c29bbf424132963fe08d19a37d5757aaf520bf08119f05cd56d6_00*15_01_00*24
    generation => 2
    kept 1 0 0 => first
    bytes of Copy first => bytes of CopyOk
    bytes of Fetch 2 => bytes of Granted 2 + bytes of Copy first to the client
    ",
)];
