//! What `fiocut world` prints.

use commands::run_world;
use fake_io::{Source, failing, page_with, source_of};
use std::alloc::Global;

const SCRIPT: &[u8] = b"servers 1\ncut 0\nissue 0 0\nfrob\n";

const SCRIPT_LINES: &str = "\
ok
ok
refused 81 NodeOff
bad line 4
";

/// Whether a script is answered by this status, and these lines are printed.
fn answers(alloc: Global, source: &mut Source<'_>, status: u8, lines: &str) -> bool {
    let mut page = page_with(alloc, usize::MAX);
    let answer = run_world(alloc, source, &mut page);
    answer.ok() == Some(status) && page.text.as_slice() == lines.as_bytes()
}

#[test]
fn scripts(rt: HostRuntime) {
    let alloc = rt.alloc();
    assert!(rt; answers(alloc, &mut source_of(SCRIPT), 2, SCRIPT_LINES));
    assert!(rt; answers(alloc, &mut source_of(b"servers 1\n"), 0, "ok\n"));
    assert!(rt; answers(alloc, &mut failing(SCRIPT, 7), 2, "refused 91 ReadError\n"));
}

/// Whether a script stops at the first failed write: it printed a part of its lines.
fn stops_at_failed_write(alloc: Global, room: usize) -> bool {
    let mut page = page_with(alloc, room);
    let answer = run_world(alloc, &mut source_of(SCRIPT), &mut page);
    answer.is_err()
        && page.late_writes == 0
        && SCRIPT_LINES.as_bytes().starts_with(page.text.as_slice())
}

#[test]
fn scripts_that_cannot_be_answered(rt: HostRuntime) {
    for room in 0..SCRIPT_LINES.len() {
        assert!(rt; stops_at_failed_write(rt.alloc(), room));
    }
}
