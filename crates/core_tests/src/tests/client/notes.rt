//! What a client is restarted over.

use super::opening::{Opening, opened};
use crate::tests::shared::UnreadNotes;
use fc_base::{Fault, Generation};
use std::alloc::Global;

/// Two states, of two jobs.
pub const TWO: &str = "3 2 first first~19=1";

/// The same in a note from before there were generations.
pub const OLD_TWO: &str = "old 3 2 first first~19=1";

/// Notes, and the number of the refusal, or 0.
pub static NOTES: &str = "
    - => 0
    464343310000000000000000000000000000000000000000 => 0
    46434331000000000000000100000000000000010000000000 => 54
    4643433100000000000000010000000000000001000000 => 54
    46434331 => 54
    4643 => 54
    old 3 2 first first~19=1 => 0
    old 3 2 listed first~19=1 => 0
    old 3 2 first listed => 54
    old 3 2 first~11=0 => 54
    46434332_0000000000000000_0000000000000000_0000000000000000_00000000 => 0
    46434332_0000000000000001_0000000000000001_0000000000000001_00000000 => 0
    46434332_00000000ffffffff_ffffffffffffffff_ffffffffffffffff_00000000 => 0
    46434332_0000000100000000_0000000000000001_0000000000000001_00000000 => 54
    46434332_ffffffffffffffff_0000000000000001_0000000000000001_00000000 => 54
    46434332_0000000000000001_0000000000000001_0000000000000001_0000000000 => 54
    46434332_0000000000000001_0000000000000001_0000000000000001_000000 => 54
    46434332_0000000000000001_0000000000000001 => 54
    46434332_0000000000000001 => 54
    46434332_00000000000001 => 54
    46434332 => 54
    46434332_0000000000000001_0000000000000001_0000000000000001_00000400 => 54
    46434332_0000000000000001_0000000000000001_0000000000000001_00000401 => 54
    46434332_0000000000000001_0000000000000001_0000000000000001_00000001_ffffffff => 54
    46434333_0000000000000000_0000000000000000_0000000000000000_00000000 => 54
    46434330_0000000000000000_0000000000000000_00000000 => 54
    46434d31_0000000000000001_00000000 => 54
    46434e3100000000000000010000000000000000 => 54
    46434e31000000000000000100000000000000 => 54
    464343310000000000000000000000000000000000000400 => 54
    464343310000000000000000000000000000000000000401 => 54
    4643433100000000000000000000000000000000ffffffff => 54
    464343310000000000000000000000000000000000000001ffffffff => 54
    3 2 first first~19=1 => 0
    3 2 listed first~19=1 => 0
    3 2 first listed => 54
    3 2 first first => 54
    3 2 first~19=1 first~19=1~111=3 => 54
    3 2 first~11=0 => 54
";

/// What a client is opened by over notes whose first load fails and which save nothing, one after the other,
/// and the number of each refusal: none of the generations that aren't any loads the note.
const REFUSALS: [(Opening, u8); 5] = [
    (Opening::Renewed(Generation(0)), 88),
    (Opening::Renewed(Generation(4_294_967_296)), 88),
    (Opening::Renewed(Generation(1)), 55),
    (Opening::Renewed(Generation(1)), 35),
    (Opening::RestartedWithMirror, 54),
];

/// Whether notes whose load fails, and which save nothing, come back with each refusal.
pub fn come_back(alloc: Global) -> bool {
    is_restart_refused(alloc) && are_refused(alloc)
}

fn is_restart_refused(alloc: Global) -> bool {
    match refused(alloc, UnreadNotes::new(alloc), &Opening::Restarted) {
        Some((notes, Fault::LoadFault)) => notes.failed,
        _ => false,
    }
}

fn are_refused(alloc: Global) -> bool {
    let mut notes = UnreadNotes::new(alloc);
    for (opening, number) in &REFUSALS {
        notes = match refused(alloc, notes, opening) {
            Some((back, fault)) if fault.number() == *number => back,
            _ => return false,
        };
    }
    true
}

/// What comes back with the refusal, where a client isn't opened so.
fn refused(alloc: Global, notes: UnreadNotes, opening: &Opening) -> Option<(UnreadNotes, Fault)> {
    match opened(alloc, 1, notes, opening) {
        Err(refused) => Some(refused),
        Ok(_) => None,
    }
}
