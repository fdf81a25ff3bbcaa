//! How often each part of the work is done.
use crate::events::Events;
use query_order::change::{changes_of, splice};
use query_order::result::result;
use spec_history::ids::Ids;
use spec_queries::delta::Delta;
use std::alloc::{AllocError, Global};

/// How often the result is made, the changes are found, and the changes are applied.
#[derive(Clone, Copy)]
pub struct Rounds {
    pub results: u32,
    pub changes: u32,
    pub splices: u32,
}

impl Rounds {
    /// Does the work, and tells how many numbers changed, and whether the splice is the later result.
    pub fn work(&self, alloc: Global, events: &Events) -> Result<String, AllocError> {
        let old = result(alloc, &events.before, &events.order)?;
        let new = result(alloc, &events.after, &events.order)?;
        let delta = changes_of(alloc, old.items(), new.items(), &events.touched)?;
        let is_later = splice(alloc, old.items(), &delta)?.items() == new.items();
        let (removed, added) = (delta.removed.items().len(), delta.added.items().len());
        let worked = self.results(alloc, events)?
            && self.changes(alloc, events, &old, &new, &delta)?
            && self.splices(alloc, &old, &new, &delta)?;
        format!(in alloc;
            "{removed} removed, {added} added, the later result: {is_later}, each round alike: {worked}"
        )
    }

    fn results(&self, alloc: Global, events: &Events) -> Result<bool, AllocError> {
        let mut are_alike = true;
        for _ in 0..self.results {
            let ids = result(alloc, &events.before, &events.order)?;
            are_alike = are_alike && ids.items().len() == events.before.len();
        }
        Ok(are_alike)
    }

    fn changes(
        &self,
        alloc: Global,
        events: &Events,
        old: &Ids,
        new: &Ids,
        delta: &Delta,
    ) -> Result<bool, AllocError> {
        let mut are_alike = true;
        for _ in 0..self.changes {
            let again = changes_of(alloc, old.items(), new.items(), &events.touched)?;
            are_alike = are_alike && again.removed.items().len() == delta.removed.items().len();
        }
        Ok(are_alike)
    }

    fn splices(
        &self,
        alloc: Global,
        old: &Ids,
        new: &Ids,
        delta: &Delta,
    ) -> Result<bool, AllocError> {
        let mut are_alike = true;
        for _ in 0..self.splices {
            let spliced = splice(alloc, old.items(), delta)?;
            are_alike = are_alike && spliced.items().len() == new.items().len();
        }
        Ok(are_alike)
    }
}
