// A lock that is held for microseconds, but where a commit waits for a disk under it.
use std::hint::spin_loop;
use std::sync::{Mutex, MutexGuard, Wait};
use std::thread::yield_now;

// How often a lock is tried with no more than some pauses of the processor between two tries.
const TRIES: u32 = 30;

// How many pauses there are then. More tries would take the lock's cache line away from who holds it.
const PAUSES: u32 = 10;

// How often it is tried between runs of others before the thread sleeps.
const YIELDS: u32 = 1000;

/// Takes the lock. Who holds it is soon ready, so it is tried again and again for a while: a thread that sleeps has to be
/// woken, which takes longer than what is done under the lock.
pub fn hold<'a, T, H: Wait>(rt: &H, lock: &'a Mutex<T>) -> MutexGuard<'a, T> {
    for _ in 0..TRIES {
        if let Some(guard) = lock.try_lock() {
            return guard;
        }
        pause();
    }
    for _ in 0..YIELDS {
        if let Some(guard) = lock.try_lock() {
            return guard;
        }
        yield_now();
    }
    lock.lock(rt)
}

fn pause() {
    for _ in 0..PAUSES {
        spin_loop();
    }
}
