//! The door of a lock, through which callers go one at a time.

use std::hint::spin_loop;
use std::sync::{Mutex, MutexGuard, Wait};

/// How often the first of those who wait looks whether the door is open before it sleeps: some 200 microseconds, longer than most calls take.
const LOOKS_AWAKE: u32 = 4_000;

/// How often the second looks whether it is the first before it sleeps: some 20 microseconds, a few short calls. It gives no processor away meanwhile, since it might get none again for milliseconds, in which all behind it wait.
const LOOKS_BEHIND: u32 = 400;

/// Goes through a door, which is open where nobody has it. Of those who wait the first looks for a while, and the second whether it is the first, since to wake takes about as long as a call; the others sleep until they are.
pub(crate) fn go_through<'a, R: Wait>(
    rt: &R,
    door: &'a Mutex<()>,
    first: &Mutex<()>,
    second: &Mutex<()>,
) -> MutexGuard<'a, ()> {
    if let Some(inside) = door.try_lock() {
        return inside;
    }
    let _first = be_first(rt, first, second);
    for _ in 0..LOOKS_AWAKE {
        if let Some(inside) = door.try_lock() {
            return inside;
        }
        spin_loop();
    }
    door.lock(rt)
}

// Waits until this is the first of those who wait.
fn be_first<'a, R: Wait>(rt: &R, first: &'a Mutex<()>, second: &Mutex<()>) -> MutexGuard<'a, ()> {
    let _second = second.lock(rt);
    for _ in 0..LOOKS_BEHIND {
        if let Some(is_first) = first.try_lock() {
            return is_first;
        }
        spin_loop();
    }
    first.lock(rt)
}
