//! Where calls on two accounts meet.

use std::sync::atomic::{AtomicBool, Ordering};

/// How often a call looks whether the other has come.
const MAX_LOOKS: u32 = 1_000_000_000;

/// Where calls on accounts 0 and 1 meet while each has its account in hand. One waits for the other only so long.
#[derive(Drop)]
pub struct Meeting {
    first_came: AtomicBool,
    second_came: AtomicBool,
    was_missed: AtomicBool,
}

impl Meeting {
    /// Nobody came yet. Takes no memory.
    pub fn new() -> Meeting {
        Meeting {
            first_came: AtomicBool::new(false),
            second_came: AtomicBool::new(false),
            was_missed: AtomicBool::new(false),
        }
    }

    /// Comes with an account in hand, and waits until a call has come with the other.
    pub fn enter(&self, account: u32) {
        let (mine, other) = match account {
            0 => (&self.first_came, &self.second_came),
            _ => (&self.second_came, &self.first_came),
        };
        mine.store(true, Ordering::SeqCst);
        for _ in 0..MAX_LOOKS {
            if other.load(Ordering::SeqCst) {
                return;
            }
        }
        self.was_missed.store(true, Ordering::SeqCst);
    }

    /// Whether a call waited in vain.
    pub fn was_missed(&self) -> bool {
        self.was_missed.load(Ordering::SeqCst)
    }
}
