//! What changed since a state.
ghost use Rattle.std.specs.Prelude.{◌≡◌, ◌&&◌, ◌↔◌, IfOk, IsErrOf, false, length, nat_le};
ghost use Rattle.object_log.specs.ObjectLog.{first, puts};
ghost use Rattle.object_log.specs.Puts.{said};
ghost use Rattle.object_log.specs.declared.changes.ChangesError.TheVariants.{NoMemory, NotRetained};

use crate::log::ObjectLog;
use crate::page::{Page, page_from};
use std::alloc::AllocError;

/// Why no page was made.
#[derive(Clone, Copy, Debug, PartialEq, Eq)]
pub enum ChangesError {
    /// The state was never reached, or lies too far back (RFC 8620 section 5.2, `cannotCalculateChanges`).
    NotRetained,
    /// Out of memory.
    NoMemory,
}

impl From<AllocError> for ChangesError {
    ghost from_gives = { λ _ error. error ≡ NoMemory };

    fn from(_: AllocError) -> Self {
        ChangesError::NoMemory
    }
}

impl<T: Drop> ObjectLog<T> {
    ghost use Rattle.object_log.specs.IsPage.{IsPage};

    /// Whether changes are told from state `k`: it was reached, and lies within the bounds of the window. Takes no memory.
    pub fn retained(&self, k: u64) -> bool
        ensures { result ≡ (nat_le (first self.now) k && nat_le k (length (puts self.now))) }
    {
        self.first <= k && k <= self.count()
    }

    /// Gives what was created, updated and destroyed after the state `since` (RFC 8620 section 5.2).
    ///
    /// The page ends at the greatest state at which its lists together have at most `max` ids, and at the state of the kind
    /// where there is no maximum. Time and memory grow with the changes after `since` and the ids that they name, and
    /// not with the changes before.
    pub fn changes(&self, since: u64, max: Option<u64>) -> Result<Page, ChangesError>
        ensures ok { IfOk result (IsPage (said (puts self.now)) since max) }
        ensures not_retained { IsErrOf result NotRetained ↔ ((nat_le (first self.now) since && nat_le since (length (puts self.now))) ≡ false) }
    {
        if !self.retained(since) {
            return Err(ChangesError::NotRetained);
        }
        let alloc = *self.window.pasts.allocator();
        Ok(page_from(alloc, self, since as usize, max)?)
    }
}
