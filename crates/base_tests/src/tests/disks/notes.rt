//! What notes in memory keep.

use disk_model::{FaultNotes, MemNotes, Notes};
use fc_base::Fault;
use std::alloc::Global;
use std::test::Fail;

fn save(notes: &mut impl Notes, bytes: &[u8]) -> Result<(), Fault> {
    notes.save(bytes)
}

/// Whether these bytes are loaded.
fn loads(notes: &mut impl Notes, bytes: &[u8]) -> bool {
    match notes.load() {
        Ok(loaded) => loaded.as_slice() == bytes,
        Err(_) => false,
    }
}

/// Whether these bytes are loaded once the last save is taken back.
fn reverts_to(notes: &mut MemNotes, bytes: &[u8]) -> bool {
    notes.revert();
    loads(notes, bytes)
}

/// Notes that hold a word.
fn opening(alloc: Global) -> Option<MemNotes> {
    Some(MemNotes::new(b"opening".to_vec(alloc).ok()?))
}

/// Whether a save is taken back, and but the last one.
fn reverts(notes: &mut MemNotes) -> bool {
    reverts_to(notes, b"opening")
        && save(notes, b"one") == Ok(())
        && save(notes, b"second") == Ok(())
        && loads(notes, b"second")
        && reverts_to(notes, b"one")
        && reverts_to(notes, b"one")
}

#[test]
fn revert_after_two_saves(rt: HostRuntime) {
    let reverts = match opening(rt.alloc()) {
        Some(mut notes) => reverts(&mut notes),
        None => false,
    };
    assert!(rt; reverts);
}

/// Whether the second save fails and leaves these bytes, and the third succeeds.
fn fails_once(notes: &mut FaultNotes, left: &[u8]) -> bool {
    save(notes, b"one") == Ok(())
        && save(notes, b"two") == Err(Fault::SaveFault)
        && loads(notes, left)
        && save(notes, b"three") == Ok(())
        && loads(notes, b"three")
}

/// The same of new notes, where what failed has landed, or hasn't.
fn fails_once_anew(alloc: Global, landed: bool, left: &[u8]) -> bool {
    match opening(alloc) {
        Some(notes) => fails_once(&mut FaultNotes::new(notes, 1, landed), left),
        None => false,
    }
}

/// Whether the bytes of a save that failed have landed, and what it leaves.
static FAILED: [(bool, &[u8]); 2] = [(false, b"one"), (true, b"two")];

#[test]
fn failing_save(rt: HostRuntime) -> Result<(), Fail> {
    for (landed, left) in &FAILED {
        if !fails_once_anew(rt.alloc(), *landed, left) {
            return Err(Fail::new(*landed));
        }
    }
    Ok(())
}
