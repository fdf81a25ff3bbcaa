//! The ids that changes name.
ghost use Rattle.std.specs.Prelude.{◌≡◌, ◌≤◌, IfOk, drop, filter, length, map, take};
ghost use Rattle.object_log.specs.ObjectLog.{first, puts};
ghost use Rattle.object_log.specs.Puts.{said};
ghost use Rattle.spec_history.specs.Pages.{ids_of, is_touched};

use crate::log::ObjectLog;
use std::alloc::{AllocError, Global};

impl<T: Drop> ObjectLog<T> {
    /// The ids that are named after state `since` and up to state `until`, in order of creation. Takes memory for them.
    ///
    /// Time grows with the changes between the two states alone.
    pub fn touched_between(
        &self,
        alloc: Global,
        since: usize,
        until: usize,
    ) -> Result<Vec<u64>, AllocError>
        requires known { first self.now ≤ since }
        requires order { since ≤ until }
        requires end { until ≤ length (puts self.now) }
        ensures { IfOk result (λ ids. ids.items ≡ filter (is_touched (said (puts self.now)) since until) (ids_of (said (puts self.now)))) }
    {
        let mut ids = self.named_between(alloc, since, until)?;
        ids.sort_unstable();
        ids.dedup();
        Ok(ids)
    }

    // The ids that the changes between two states name, one for each.
    fn named_between(
        &self,
        alloc: Global,
        since: usize,
        until: usize,
    ) -> Result<Vec<u64>, AllocError>
        requires known { first self.now ≤ since }
        requires order { since ≤ until }
        requires end { until ≤ length (puts self.now) }
        ensures { IfOk result (λ ids. ids.items ≡ map (λ m. m.id) (drop since (take until (said (puts self.now))))) }
    {
        let mut ids = Vec::new(alloc);
        for state in since..until {
            ids.push(self.past(state).id)?;
        }
        Ok(ids)
    }
}
