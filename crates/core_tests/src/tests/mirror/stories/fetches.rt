//! Generations that are granted.

use super::Story;

pub const STORIES: [Story; 2] = [
    (
        "a generation is granted, and again, and none that is smaller",
        "
        restart => -
        generation => 0
        would_save Fetch 5 => 1
        Fetch 5 => Granted 5
        generation => 5
        would_save Fetch 5 => 0
        Fetch 5 => Granted 5
        would_save Fetch 4 => 0
        Fetch 4 => 60
        Fetch 1 => 60
        would_save Fetch 6 => 1
        Fetch 6 => Granted 6
        Fetch 5 => 60
        Fetch 4294967295 => Granted 4294967295
        Fetch 4294967294 => 60
        Fetch 4294967295 => Granted 4294967295
        restart => 4294967295
        Fetch 4294967294 => 60
        Fetch 4294967295 => Granted 4294967295
        ",
    ),
    (
        "what is kept before a fetch is sent, and what comes behind it isn't",
        "
        restart => -
        Fetch 1 => Granted 1
        Copy first => CopyOk 1 0 0
        Fetch 1 => Granted 1 + Copy first
        Copy first~11=2 => CopyOk 2 0 0
        Fetch 3 => Granted 3 + Copy first + Copy first~11=2
        Fetch 2 => 60
        Fetch 3 => Granted 3 + Copy first + Copy first~11=2
        restart => 3 first first~11=2
        ",
    ),
];
