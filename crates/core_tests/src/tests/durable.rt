//! What no clause shows of the notes of a node: that a save is answered where the device doesn't fail.

use disk_model::{FaultNotes, MemNotes, Notes};
use fc_base::Fault;
use node::Durable;
use std::alloc::Global;
use std::test::Fail;

/// Notes that hold a word, whose second save fails, and lands or doesn't.
fn failing(alloc: Global, landed: bool) -> Option<FaultNotes> {
    let notes = MemNotes::new(b"opening".to_vec(alloc).ok()?);
    Some(FaultNotes::new(notes, 1, landed))
}

/// Whether these bytes are loaded.
fn loads(notes: &mut impl Notes, bytes: &[u8]) -> bool {
    match notes.load() {
        Ok(loaded) => loaded.as_slice() == bytes,
        Err(_) => false,
    }
}

/// Whether the first save is answered, the second fails, which takes the node down, and leaves these bytes.
fn goes_down(notes: FaultNotes, left: &[u8]) -> bool {
    let mut durable = Durable::new(notes);
    let is_saved = durable.save(b"one") == Ok(()) && !durable.is_down();
    let is_lost = durable.save(b"two") == Err(Fault::SaveFault) && durable.is_down();
    is_saved && is_lost && loads(&mut durable.into_notes(), left)
}

/// Whether the bytes of a save that failed have landed, and what it leaves.
static FAILED: [(bool, &[u8]); 2] = [(false, b"one"), (true, b"two")];

#[test]
fn node_is_down_behind_a_failed_save(rt: HostRuntime) -> Result<(), Fail> {
    for (landed, left) in &FAILED {
        let is_down = match failing(rt.alloc(), *landed) {
            Some(notes) => goes_down(notes, left),
            None => false,
        };
        if !is_down {
            return Err(Fail::new(*landed));
        }
    }
    Ok(())
}
