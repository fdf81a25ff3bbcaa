//! Exceptions in order, so that they are found by binary search.
ghost use Rattle.std.specs.Prelude.{◌≡◌, Bool, ℕ, ℤ, IfOk, not};
ghost use Rattle.std.specs.List.{list_any};
ghost use Rattle.std.specs.List.Sorted.{IsSorted, IsSortedBy};
ghost use Rattle.std.specs.Ordering.{int_cmp};
ghost use Rattle.spec_series.specs.Given.{gives_one, is_after, is_sooner, IsFirstOf, IsLaterAt};
ghost use Rattle.spec_series.specs.SeriesLimits.{is_named};
ghost use Rattle.spec_series.specs.declared.exception.Exception.{Exception};
ghost use Rattle.spec_series.specs.declared.occurrence.Occurrence.{Occurrence};

use crate::exception::Exception;
use crate::occurrence::{Occurrence, comes_after};
use std::alloc::{AllocError, Global};
use std::marker::Model;

/// A list of exceptions, with what a search among them needs.
#[derive(Drop)]
pub(crate) struct SortedExceptions {
    items: Vec<Exception>,
    // The recurrence ids that they name, so that a binary search finds them.
    rids: Vec<i64>,
    // The occurrences that they give, by start and then recurrence id, so that a binary search finds the next.
    given: Vec<Occurrence>,
    ghost named: { (p : ℤ → Bool) → list_any p rids.items ≡ list_any (λ x. p x.rid) items.items },
    ghost gives: { (p : Occurrence → Bool) → list_any p given.items ≡ list_any (gives_one p) items.items },
    ghost rising: { IsSorted int_cmp rids.items },
    ghost sorted: { IsSortedBy is_sooner given.items },
}

impl Model for SortedExceptions {
    ghost use Rattle.std.specs.Prelude.{List};
    ghost use Rattle.spec_series.specs.declared.exception.Exception.{Exception};

    ghost Value = { List Exception };

    ghost view = { λ a. a.items.items };
}

// The recurrence ids that exceptions name.
fn rids_of(alloc: Global, items: &[Exception]) -> Result<Vec<i64>, AllocError>
    ensures { IfOk result (λ v. (p : ℤ → Bool) → list_any p v.items ≡ list_any (λ x. p x.rid) items.now) }
{
    let mut rids = Vec::with_capacity(alloc, items.len())?;
    for x in items {
        rids.push(x.rid.seconds())?;
    }
    Ok(rids)
}

// The occurrences that exceptions give.
fn given_by(alloc: Global, items: &[Exception]) -> Result<Vec<Occurrence>, AllocError>
    ensures { IfOk result (λ v. (p : Occurrence → Bool) → list_any p v.items ≡ list_any (gives_one p) items.now) }
{
    let mut given = Vec::new(alloc);
    for x in items {
        if let Some(span) = x.replaced {
            given.push(Occurrence {
                rid: x.rid,
                start: span.start,
                length: span.length,
                occupying: span.occupying,
            })?;
        }
    }
    Ok(given)
}

impl SortedExceptions {
    /// A list of these exceptions. Takes memory for what they name and give.
    pub(crate) fn new(alloc: Global, items: Vec<Exception>) -> Result<SortedExceptions, AllocError>
        ensures { IfOk result (λ xs. xs ≡ items.items) }
    {
        let mut rids = rids_of(alloc, &items)?;
        rids.sort_unstable();
        let mut given = given_by(alloc, &items)?;
        given.sort_unstable_by_key(|o| (o.start.seconds(), o.rid.seconds()));
        Ok(SortedExceptions { items, rids, given })
    }

    /// The exceptions, in order. Takes no memory.
    pub(crate) fn items(&self) -> &[Exception]
        ensures { result.now ≡ self.now }
    {
        &self.items
    }

    /// Whether an exception names the wall second, in the time of a binary search. Takes no memory.
    pub(crate) fn names(&self, wall: i64) -> bool
        ensures { result ≡ is_named self.now wall }
    {
        self.rids.binary_search(&wall).is_ok()
    }

    /// The first of what they give that starts after `from`, or at it with a recurrence id after `past`, if that is given. It takes
    /// the time of a binary search, and no memory.
    pub(crate) fn next_given(&self, from: i64, past: Option<i64>) -> Option<Occurrence>
        ensures { IsFirstOf (λ o. (k : ℕ) × IsLaterAt from past self.now k o) result }
    {
        let place = self.given.as_slice().partition_point(
            |o: &Occurrence| -> bool
                ensures { result ≡ not (is_after from past o.now.start o.now.rid) }
            { !comes_after(o.start.seconds(), o.rid.seconds(), from, past) },
        );
        self.given.get(place).copied()
    }

    /// Gives an equal list.
    pub(crate) fn copy(&self) -> Result<SortedExceptions, AllocError>
        ensures { IfOk result (λ xs. xs ≡ self.now) }
    {
        Ok(SortedExceptions {
            items: self.items.clone()?,
            rids: self.rids.clone()?,
            given: self.given.clone()?,
        })
    }
}
