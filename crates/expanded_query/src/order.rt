//! Found occurrences in the order of a query.
ghost use Rattle.std.specs.Prelude.{◌≡◌, IfOk, OnOk, map};
ghost use Rattle.std.specs.Ordering.{is_lt};
ghost use Rattle.expanded_query.specs.Founds.{found_item, found_result, id_at, is_not_behind, ordered_ids, ranked_result};
ghost use Rattle.spec_queries.specs.Comparing.{by_all, by_comparator, by_property};
ghost use Rattle.spec_queries.specs.Expanded.{ids_in_order};

use crate::found_occurrence::FoundOccurrence;
use crate::ranked::Ranked;
use query_order::order::Order;
use spec_queries::comparator::{Comparator, Property};
use std::alloc::{AllocError, Global};
use std::cmp::Ordering;

/// Occurrences in an order; those that no comparator tells apart stay as they stand. Takes memory for two references to each, which are
/// put in order in their place.
pub(crate) fn in_order<'a>(
    alloc: Global,
    found: &'a [FoundOccurrence<'a>],
    order: &Order,
) -> Result<Vec<Ranked<'a>>, AllocError>
    ensures { IfOk result (λ v. map id_at v.items ≡ ordered_ids order.now found.now) }
{
    let mut results = references(alloc, found)?;
    sort(&mut results, order)?;
    Ok(results)
}

/// References to occurrences, as they stand. Takes memory for them.
pub(crate) fn references<'a>(
    alloc: Global,
    found: &'a [FoundOccurrence<'a>],
) -> Result<Vec<Ranked<'a>>, AllocError>
    ensures { IfOk result (λ v. map ranked_result v.items ≡ map found_result found.now) }
{
    let mut results = Vec::with_capacity(alloc, found.len())?;
    for one in found {
        results.push(Ranked { found: one })?;
    }
    Ok(results)
}

/// Puts results in an order. Takes memory for half as many references.
pub(crate) fn sort(results: &mut Vec<Ranked<'_>>, order: &Order) -> Result<(), AllocError>
    ensures { OnOk result (map id_at results.new.items ≡ ids_in_order order.now (map ranked_result results.old.items)) }
{
    let comparators = order.comparators();
    results.sort_by(|a, b| compare(comparators, a.found, b.found))
}

/// Whether an occurrence doesn't stand behind another. Takes no memory.
pub(crate) fn is_not_behind(
    comparators: &[Comparator],
    last: &FoundOccurrence<'_>,
    one: &FoundOccurrence<'_>,
) -> bool
    ensures { result ≡ is_not_behind comparators.now (found_item last.now) (found_item one.now) }
{
    !is_before(comparators, last, one)
}

/// Whether an occurrence stands before another. Takes no memory.
pub(crate) fn is_before(
    comparators: &[Comparator],
    a: &FoundOccurrence<'_>,
    b: &FoundOccurrence<'_>,
) -> bool
    ensures { result ≡ is_lt (by_all comparators.now (found_item a.now) (found_item b.now)) }
{
    compare(comparators, a, b) == Ordering::Less
}

// How two occurrences stand to each other: `Equal` where no comparator tells them apart.
fn compare(comparators: &[Comparator], a: &FoundOccurrence<'_>, b: &FoundOccurrence<'_>) -> Ordering
    ensures { result ≡ by_all comparators.now (found_item a.now) (found_item b.now) }
{
    for comparator in comparators {
        match by_comparator(*comparator, a, b) {
            Ordering::Equal => (),
            apart => return apart,
        }
    }
    Ordering::Equal
}

fn by_comparator(
    comparator: Comparator,
    a: &FoundOccurrence<'_>,
    b: &FoundOccurrence<'_>,
) -> Ordering
    ensures { result ≡ by_comparator comparator (found_item a.now) (found_item b.now) }
{
    if comparator.ascending {
        by_property(comparator.property, a, b)
    } else {
        by_property(comparator.property, b, a)
    }
}

fn by_property(property: Property, a: &FoundOccurrence<'_>, b: &FoundOccurrence<'_>) -> Ordering
    ensures { result ≡ by_property property (found_item a.now) (found_item b.now) }
{
    match property {
        Property::Start => a.start.cmp(&b.start),
        Property::Uid => a.source.uid.cmp(b.source.uid),
        Property::Title => a.title().cmp(b.title()),
        Property::Created => a.source.created.cmp(&b.source.created),
        Property::Updated => a.source.updated.cmp(&b.source.updated),
    }
}
