//! Saves that fail.

use super::LostSave;

pub const LOST_SAVES: [LostSave; 5] = [
    LostSave {
        name: "a state that is lost",
        at: 0,
        landed: false,
        note: "-",
        rows: "
        restart => -
        would_save Copy first => 1
        Copy first => 53
        on => 0
        kept 1 0 0 => none
        would_save Copy first => 0
        Copy first => 68
        restart => -
        on => 1
        would_save Copy first => 1
        Copy first => CopyOk 1 0 0
        restart => 0 first
        ",
    },
    LostSave {
        name: "a state that stays",
        at: 0,
        landed: true,
        note: "-",
        rows: "
        restart => -
        Copy first => 53
        kept 1 0 0 => none
        Copy first => 68
        restart => 0 first
        kept 1 0 0 => first
        would_save Copy first => 0
        Copy first => CopyOk 1 0 0
        Copy first~111=3 => 71
        restart => 0 first
        ",
    },
    LostSave {
        name: "a generation that is lost",
        at: 0,
        landed: false,
        note: "1 first",
        rows: "
        restart => 1 first
        Fetch 2 => 53
        generation => 1
        Fetch 1 => 68
        restart => 1 first
        Fetch 1 => Granted 1 + Copy first
        Fetch 2 => Granted 2 + Copy first
        restart => 2 first
        ",
    },
    LostSave {
        name: "a generation that stays",
        at: 0,
        landed: true,
        note: "1 first",
        rows: "
        restart => 1 first
        Fetch 2 => 53
        generation => 1
        Fetch 2 => 68
        restart => 2 first
        generation => 2
        Fetch 1 => 60
        would_save Fetch 2 => 0
        Fetch 2 => Granted 2 + Copy first
        restart => 2 first
        ",
    },
    LostSave {
        name: "a mirror that is down shows what was before, and refuses all",
        at: 2,
        landed: true,
        note: "-",
        rows: "
        restart => -
        Fetch 3 => Granted 3
        Copy first => CopyOk 1 0 0
        Copy first => CopyOk 1 0 0
        Copy first~111=3 => 71
        Fetch 2 => 60
        Copy first~19=1 => 53
        on => 0
        generation => 3
        kept 1 0 0 => first
        kept 1 0 1 => none
        would_save Fetch 4 => 0
        would_save Copy first~19=2 => 0
        Copy first => 68
        Copy first~111=3 => 68
        Fetch 2 => 68
        Fetch 3 => 68
        from 0 to 9 Fetch 3 => 68
        Start 1 => 68
        piece 1 1 0 0 0 2008 0 of Jobs 1 long_writes => 68
        restart => 3 first first~19=1
        on => 1
        Fetch 3 => Granted 3 + Copy first + Copy first~19=1
        ",
    },
];

/// A full table goes before a save that would fail.
pub const FULL: &str = "
    Copy first~11=200 => 73
    Fetch 1 => 60
    Fetch 3 => 53
    Fetch 3 => 68
";
