//! Where the anchor of a query stands in its result.
ghost use Rattle.std.specs.Prelude.{◌≡◌, ◌<◌, ◌≤◌, ◌^◌, IfOk, IfSome, filter, length, map};
ghost use Rattle.std.specs.List.{position};
ghost use Rattle.std.specs.Ordering.{is_lt};
ghost use Rattle.std.specs.Str.{bytes_eq};
ghost use Rattle.expanded_query.specs.Founds.{found_item, id_at, is_not_behind, ordered_ids};
ghost use Rattle.spec_queries.specs.Comparing.{by_all};
ghost use Rattle.spec_queries.specs.Expanded.{anchor_among};
ghost use Rattle.spec_queries.specs.Windows.{IsInMemory};

use crate::found_occurrence::FoundOccurrence;
use crate::order::{in_order, is_before, is_not_behind, references};
use crate::ranked::Ranked;
use event_model::ids::read_occurrence_id;
use query_order::order::Order;
use spec_json::text::Text;
use spec_queries::comparator::Comparator;
use spec_queries::window::Anchor;
use std::alloc::{AllocError, Global};

/// Where an anchor stands among occurrences in an order, if one is named. Takes memory for two references to each.
pub(crate) fn anchor_among<'a>(
    alloc: Global,
    found: &'a [FoundOccurrence<'a>],
    order: &Order,
    anchor: &Option<Text>,
) -> Result<Anchor, AllocError>
    ensures value { IfOk result (λ a. a ≡ anchor_among (ordered_ids order.now found.now) anchor.now) }
    ensures bound { IfOk result IsInMemory }
{
    match anchor {
        Some(id) => match place_in_order(alloc, found, order, id)? {
            Some(place) => Ok(Anchor::At(place as u64)),
            None => Ok(Anchor::Missing),
        },
        None => Ok(Anchor::None),
    }
}

// Where an id stands among those of occurrences in an order. Where only one has it this is how many precede that one: of those found earlier
// all that don't stand behind it, and of those found later the ones that stand before it.
fn place_in_order<'a>(
    alloc: Global,
    found: &'a [FoundOccurrence<'a>],
    order: &Order,
    anchor: &Text,
) -> Result<Option<usize>, AllocError>
    ensures value { IfOk result (λ place. place ≡ position (bytes_eq anchor.now) (ordered_ids order.now found.now)) }
    ensures bound { IfOk result (λ place. IfSome place (λ k. k < 2 ^ 63)) }
{
    let results = references(alloc, found)?;
    let Some(at) = place_of(alloc, &results, anchor)? else {
        return Ok(None);
    };
    match place_of(alloc, &results[at + 1..], anchor)? {
        None => {
            let one = results[at].found;
            let earlier = up_to(order.comparators(), one, &results[..at]);
            let later = before(order.comparators(), one, &results[at + 1..]);
            Ok(Some(earlier + later))
        }
        Some(_) => {
            let sorted = in_order(alloc, found, order)?;
            place_of(alloc, &sorted, anchor)
        }
    }
}

// How many results don't stand behind one.
fn up_to(comparators: &[Comparator], one: &FoundOccurrence<'_>, results: &[Ranked<'_>]) -> usize
    ensures value { result ≡ length (filter (λ r. is_not_behind comparators.now (found_item one.now) (found_item r.found.now)) results.now) }
    ensures bound { result ≤ length results.now }
{
    results
        .iter()
        .filter(|other| is_not_behind(comparators, one, other.found))
        .count()
}

// How many results stand before one.
fn before(comparators: &[Comparator], one: &FoundOccurrence<'_>, results: &[Ranked<'_>]) -> usize
    ensures value { result ≡ length (filter (λ r. is_lt (by_all comparators.now (found_item r.found.now) (found_item one.now))) results.now) }
    ensures bound { result ≤ length results.now }
{
    results
        .iter()
        .filter(|other| is_before(comparators, other.found, one))
        .count()
}

// Where the id of a result stands.
#[tactic(auto, using(crate::proofs::WindowLemmas::position_start))]
fn place_of(
    alloc: Global,
    results: &[Ranked<'_>],
    anchor: &Text,
) -> Result<Option<usize>, AllocError>
    ensures value { IfOk result (λ place. place ≡ position (bytes_eq anchor.now) (map id_at results.now)) }
    ensures bound { IfOk result (λ place. IfSome place (λ k. k < length results.now)) }
{
    let named = read_occurrence_id(anchor.as_str().as_bytes());
    for (place, result) in results.iter().enumerate() {
        if result.found.has_id(alloc, anchor, &named)? {
            return Ok(Some(place));
        }
    }
    Ok(None)
}
