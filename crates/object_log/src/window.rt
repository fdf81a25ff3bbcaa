//! The newest changes of a kind, as they can be undone.
ghost use Rattle.std.specs.Prelude.{◌≡◌, ◌<◌, ◌≤◌, ◌+◌, ◌++◌, ◌∷◌, ◌^◌, [], ℕ, OnOk, drop, length, nat_le, true};
ghost use Rattle.std.specs.VecDeque.{deque_capacity, deque_len};
ghost use Rattle.object_log.specs.Pasts.{bytes_of, fits};

use std::alloc::{AllocError, Global};
use std::collections::VecDeque;

/// How many changes back of a kind a state is still answered from.
pub const WINDOW: u64 = 4096;

/// How many bytes the objects that changes of a kind put behind a state may have together, where it is still answered from.
pub const WINDOW_BYTES: u64 = 16_777_216;

/// A change as it can be undone. What its id had before stands here and nowhere else.
#[derive(Drop)]
pub(crate) struct Past<T> {
    /// The id that it names.
    pub id: u64,
    /// Whether it puts an object.
    pub puts: bool,
    /// How many bytes of that count.
    pub size: u64,
    /// The object that the id had before it.
    pub before: Option<T>,
}

/// The newest changes, as many as the bounds allow.
#[derive(Drop)]
pub(crate) struct Window<T> {
    pub pasts: VecDeque<Past<T>>,
    pub bytes: u64,
    ghost weighed: { bytes ≡ bytes_of pasts.items },
    ghost bounded: { fits pasts.items ≡ true },
}

impl<T: Drop> Window<T> {
    ghost use Rattle.object_log.specs.Room.{window_room};

    /// No changes. Takes no memory.
    pub(crate) fn new(alloc: Global) -> Window<T>
        ensures { result.pasts.items ≡ [] }
    {
        Window {
            pasts: VecDeque::new(alloc),
            bytes: 0,
        }
    }

    /// Takes memory for `more` further changes.
    pub(crate) fn reserve(&mut self, more: usize) -> Result<(), AllocError>
        ensures room { OnOk result (more ≤ window_room self.new) }
        ensures pasts { self.new.pasts.items ≡ self.old.pasts.items }
    {
        self.pasts.reserve(more)
    }

    /// Puts a change behind the others, and lets go of the oldest, as many as lie beyond the bounds. Tells how many. Takes no memory.
    pub(crate) fn push_reserved(&mut self, past: Past<T>) -> usize
        requires room { 0 < window_room self.old }
        requires size { past.size ≤ 2 ^ 40 }
        ensures pasts { self.new.pasts.items ≡ drop result (self.old.pasts.items ++ past ∷ []) }
        ensures within { result ≤ length self.old.pasts.items + 1 }
        ensures least { (d : ℕ) → d ≤ length self.old.pasts.items + 1 → nat_le result d ≡ fits (drop d (self.old.pasts.items ++ past ∷ [])) }
        ensures room { window_room self.old ≤ window_room self.new + 1 }
    {
        self.bytes += past.size;
        self.pasts.push_back_reserved(past);
        let gone = trim(&mut self.pasts, self.bytes);
        self.bytes = gone.left;
        gone.count
    }
}

// What was let go of.
#[derive(Clone, Copy)]
struct Gone {
    // How many changes.
    count: usize,
    // How many bytes count still.
    left: u64,
}

// Lets go of the oldest changes, as many as lie beyond the bounds.
fn trim<T: Drop>(pasts: &mut VecDeque<Past<T>>, bytes: u64) -> Gone
    requires { bytes ≡ bytes_of pasts.old.items }
    ensures pasts { pasts.new.items ≡ drop result.count pasts.old.items }
    ensures within { result.count ≤ length pasts.old.items }
    ensures least { (d : ℕ) → d ≤ length pasts.old.items → nat_le result.count d ≡ fits (drop d pasts.old.items) }
    ensures left { result.left ≡ bytes_of pasts.new.items }
    ensures len { deque_len pasts.new + result.count ≡ deque_len pasts.old }
    ensures capacity { deque_capacity pasts.new ≡ deque_capacity pasts.old }
{
    let mut left = bytes;
    let mut count = 0;
    while pasts.len() as u64 > WINDOW || left > WINDOW_BYTES {
        if let Some(oldest) = pasts.pop_front() {
            left -= oldest.size;
        }
        count += 1;
    }
    Gone { count, left }
}
