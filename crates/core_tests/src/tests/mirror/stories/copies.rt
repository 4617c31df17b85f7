//! States that are kept.

use super::Story;

pub const STORIES: [Story; 4] = [
    (
        "the first state of a key stays",
        "
        restart => -
        would_save Copy first => 1
        Copy first => CopyOk 1 0 0
        would_save Copy first => 0
        Copy first => CopyOk 1 0 0
        Copy listed => CopyOk 1 0 0
        would_save Copy first~63=1~111=0 => 0
        Copy first~63=1~111=0 => 71
        Copy first~111=3 => 71
        Copy first~95=0 => 71
        kept 1 0 0 => first
        generation => 0
        restart => 0 first
        Copy first~63=1~111=0 => 71
        Copy first => CopyOk 1 0 0
        restart => 0 first
        ",
    ),
    (
        "states of all servers and keys, in order of arrival",
        "
        restart => -
        Copy first~15=7~19=15 => CopyOk 1 7 15
        Copy first~11=2 => CopyOk 2 0 0
        Copy first => CopyOk 1 0 0
        kept 1 0 0 => first
        kept 2 0 0 => first~11=2
        kept 1 7 15 => first~15=7~19=15
        kept 1 0 1 => none
        kept 3 0 0 => none
        Fetch 1 => Granted 1 + Copy first~15=7~19=15 + Copy first~11=2 + Copy first
        restart => 1 first~15=7~19=15 first~11=2 first
        Fetch 1 => Granted 1 + Copy first~15=7~19=15 + Copy first~11=2 + Copy first
        ",
    ),
    (
        "layout 1 is read, and written as layout 2",
        "
        restart => -
        Copy listed => CopyOk 1 0 0
        kept 1 0 0 => first
        Fetch 4294967295 => Granted 4294967295 + Copy first
        restart => 4294967295 first
        ",
    ),
    (
        "a cut loses nothing that was saved",
        "
        restart => -
        Copy first => CopyOk 1 0 0
        restart => 0 first
        Fetch 2 => Granted 2 + Copy first
        restart => 2 first
        Copy first~19=1 => CopyOk 1 0 1
        restart => 2 first first~19=1
        generation => 2
        Fetch 2 => Granted 2 + Copy first + Copy first~19=1
        restart => 2 first first~19=1
        ",
    ),
];

/// Over a note with a state in layout 1.
pub const LISTED: &str = "
    restart => 1 listed
    kept 1 0 0 => first
    Copy first => CopyOk 1 0 0
    Fetch 1 => Granted 1 + Copy first
    restart => 1 listed
    Fetch 2 => Granted 2 + Copy first
    restart => 2 first
";

/// Over a note with all the states that it has room for.
pub const FULL: &str = "
    generation => 2
    would_save Copy first~11=200 => 0
    Copy first~11=200 => 73
    Copy first~11=1 => CopyOk 1 0 0
    would_save Copy first~11=1~111=3 => 0
    Copy first~11=1~111=3 => 71
    kept 64 0 15 => first~11=64~19=15
    kept 200 0 0 => none
    Fetch 1 => 60
";
