//! How a worker takes a lock.

use std::hint::spin_loop;
use std::sync::{Mutex, MutexGuard, Wait};

/// How often a worker looks whether a lock is free before it sleeps there. Who holds it, to speak with a server
/// or to write a block, gives it back sooner than a thread can be put to sleep and woken.
const LOOKS: u32 = 200;

/// Takes the lock of a file, and tells whether another thread had it.
pub(crate) fn lock_file<'c, R: Wait, X>(
    rt: &R,
    shared: &'c Mutex<X>,
    was_held: &mut bool,
) -> MutexGuard<'c, X> {
    if let Some(held) = shared.try_lock() {
        return held;
    }
    *was_held = true;
    lock(rt, shared)
}

/// Takes the lock of a server or of a file.
pub(crate) fn lock<'c, R: Wait, X>(rt: &R, shared: &'c Mutex<X>) -> MutexGuard<'c, X> {
    for _ in 0..LOOKS {
        if let Some(held) = shared.try_lock() {
            return held;
        }
        spin_loop();
    }
    shared.lock(rt)
}
