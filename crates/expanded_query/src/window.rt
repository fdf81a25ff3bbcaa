//! The results at the places of a window of all in order.
ghost use Rattle.std.specs.Prelude.{◌≡◌, ◌-◌, ◌≤◌, IfOk, IfSome, drop, filter, length, map, take};
ghost use Rattle.expanded_query.specs.Founds.{found_item, id_at, ordered_ids, is_not_behind, ranked_result};
ghost use Rattle.spec_queries.specs.Expanded.{ids_in_order};
ghost use Rattle.spec_queries.specs.Found.{cut_out};

use crate::found_occurrence::FoundOccurrence;
use crate::order::{is_not_behind, references, sort};
use crate::ranked::Ranked;
use query_methods::found::cut_out;
use query_order::order::Order;
use spec_queries::comparator::Comparator;
use spec_queries::window::Cut;
use std::alloc::{AllocError, Global};
use std::cmp::min;

// Of so many results one is looked at, to tell between which ones the window stands. The occurrences of an event stand together, so this
// divides neither the days nor the weeks of a year.
const SAMPLED: usize = 67;

// So many more of those are left before the window, and passed over behind it, than would do, were they spread evenly.
const SPARE: u64 = 8;

// The first try isn't far off, and the last leaves 125 times as many before the window.
const TRIES: u64 = 6;

/// The results at the places of a window of all in order. Of many occurrences only those are put in order that stand between two, which are
/// chosen among some of them. Takes memory for three references to each.
pub(crate) fn window_in_order<'a>(
    alloc: Global,
    found: &'a [FoundOccurrence<'a>],
    order: &Order,
    cut: Cut,
) -> Result<Vec<Ranked<'a>>, AllocError>
    ensures { IfOk result (λ v. map id_at v.items ≡ cut_out cut (ordered_ids order.now found.now)) }
{
    let results = references(alloc, found)?;
    let sample = sample_of(alloc, &results, order)?;
    let rest = rest_from(alloc, results, order, &sample, cut.from)?;
    let passed = found.len().saturating_sub(rest.len()) as u64;
    let window = Cut {
        from: cut.from.saturating_sub(passed),
        to: cut.to.saturating_sub(passed),
    };
    let first = first_of(
        alloc,
        rest,
        order,
        sample_behind(&sample, passed),
        window.to,
    )?;
    Vec::from_slice(alloc, cut_out(window, &first))
}

// One in so many results, in order.
fn sample_of<'a>(
    alloc: Global,
    results: &[Ranked<'a>],
    order: &Order,
) -> Result<Vec<Ranked<'a>>, AllocError> {
    let mut sample = Vec::new(alloc);
    for (place, result) in results.iter().enumerate() {
        if place % SAMPLED == 0 {
            sample.push(*result)?;
        }
    }
    sort(&mut sample, order)?;
    Ok(sample)
}

// A sample without what stands for so many results that come first.
fn sample_behind<'a, 'b>(sample: &'b [Ranked<'a>], passed: u64) -> &'b [Ranked<'a>] {
    let place = min(passed / SAMPLED as u64, sample.len() as u64) as usize;
    &sample[place..]
}

// Results without most of those that stand before a place.
#[tactic(auto, using(crate::proofs::LastLemmas::all_left))]
fn rest_from<'a>(
    alloc: Global,
    results: Vec<Ranked<'a>>,
    order: &Order,
    sample: &[Ranked<'_>],
    from: u64,
) -> Result<Vec<Ranked<'a>>, AllocError>
    ensures rest { IfOk result (λ v. ids_in_order order.now (map ranked_result v.items) ≡ drop (length results.entry.items - length v.items) (ids_in_order order.now (map ranked_result results.entry.items))) }
    ensures passed { IfOk result (λ v. length results.entry.items - length v.items ≤ from) }
{
    match rest_among(alloc, &results, order, sample, from)? {
        Some(rest) => Ok(rest),
        None => Ok(results),
    }
}

// The same where a try succeeds. The first one leaves the fewest before the place.
fn rest_among<'a>(
    alloc: Global,
    results: &[Ranked<'a>],
    order: &Order,
    sample: &[Ranked<'_>],
    from: u64,
) -> Result<Option<Vec<Ranked<'a>>>, AllocError>
    ensures rest { IfOk result (λ o. IfSome o (λ v. ids_in_order order.now (map ranked_result v.items) ≡ drop (length results.now - length v.items) (ids_in_order order.now (map ranked_result results.now)))) }
    ensures passed { IfOk result (λ o. IfSome o (λ v. length results.now - length v.items ≤ from)) }
{
    let share = from / SAMPLED as u64;
    for factor in 1..TRIES {
        let spare = SPARE.saturating_mul(factor * factor * factor);
        let place = share.saturating_sub(spare);
        if place == 0 || place >= sample.len() as u64 {
            return Ok(None);
        }
        let lower = sample[place as usize];
        if let Some(rest) = rest_behind(alloc, results, order, lower.found, from)? {
            return Ok(Some(rest));
        }
    }
    Ok(None)
}

// Results without those that stand before one, if these are no more than so many.
fn rest_behind<'a>(
    alloc: Global,
    results: &[Ranked<'a>],
    order: &Order,
    lower: &FoundOccurrence<'_>,
    from: u64,
) -> Result<Option<Vec<Ranked<'a>>>, AllocError>
    ensures rest { IfOk result (λ o. IfSome o (λ v. ids_in_order order.now (map ranked_result v.items) ≡ drop (length results.now - length v.items) (ids_in_order order.now (map ranked_result results.now)))) }
    ensures passed { IfOk result (λ o. IfSome o (λ v. length results.now - length v.items ≤ from)) }
{
    let rest = results_from(alloc, results, order.comparators(), lower)?;
    let passed = results.len().saturating_sub(rest.len()) as u64;
    if passed <= from {
        Ok(Some(rest))
    } else {
        Ok(None)
    }
}

// The results that don't stand before one.
fn results_from<'a>(
    alloc: Global,
    results: &[Ranked<'a>],
    comparators: &[Comparator],
    lower: &FoundOccurrence<'_>,
) -> Result<Vec<Ranked<'a>>, AllocError>
    ensures { IfOk result (λ v. v.items ≡ filter (λ r. is_not_behind comparators.now (found_item r.found.now) (found_item lower.now)) results.now) }
{
    let mut rest = Vec::new(alloc);
    for result in results {
        if is_not_behind(comparators, result.found, lower) {
            rest.push(*result)?;
        }
    }
    Ok(rest)
}

// The first of some results in order: so many or more, or all where there are fewer.
fn first_of<'a>(
    alloc: Global,
    results: Vec<Ranked<'a>>,
    order: &Order,
    sample: &[Ranked<'_>],
    count: u64,
) -> Result<Vec<Ranked<'a>>, AllocError>
    ensures { IfOk result (λ v. take count (map id_at v.items) ≡ take count (ids_in_order order.now (map ranked_result results.entry.items))) }
{
    match first_among(alloc, &results, order, sample, count)? {
        Some(first) => Ok(first),
        None => {
            let mut all = results;
            sort(&mut all, order)?;
            Ok(all)
        }
    }
}

// The first so many of some results, or more of them, in order; `None` where those that are tried are too few.
fn first_among<'a>(
    alloc: Global,
    results: &[Ranked<'a>],
    order: &Order,
    sample: &[Ranked<'_>],
    count: u64,
) -> Result<Option<Vec<Ranked<'a>>>, AllocError>
    ensures { IfOk result (λ o. IfSome o (λ v. take count (map id_at v.items) ≡ take count (ids_in_order order.now (map ranked_result results.now)))) }
{
    let share = count / SAMPLED as u64;
    for factor in 1..TRIES {
        let spare = SPARE.saturating_mul(factor * factor * factor);
        let place = share.saturating_add(spare);
        if place >= sample.len() as u64 {
            return Ok(None);
        }
        let last = sample[place as usize];
        if let Some(first) = first_up_to(alloc, results, order, last.found, count)? {
            return Ok(Some(first));
        }
    }
    Ok(None)
}

// The results that stand no later than one, in order, if they are so many or more.
fn first_up_to<'a>(
    alloc: Global,
    results: &[Ranked<'a>],
    order: &Order,
    last: &FoundOccurrence<'_>,
    count: u64,
) -> Result<Option<Vec<Ranked<'a>>>, AllocError>
    ensures { IfOk result (λ o. IfSome o (λ v. take count (map id_at v.items) ≡ take count (ids_in_order order.now (map ranked_result results.now)))) }
{
    let first = up_to(alloc, results, order, last)?;
    if count <= first.len() as u64 {
        Ok(Some(first))
    } else {
        Ok(None)
    }
}

// The results that stand no later than one, in order.
fn up_to<'a>(
    alloc: Global,
    results: &[Ranked<'a>],
    order: &Order,
    last: &FoundOccurrence<'_>,
) -> Result<Vec<Ranked<'a>>, AllocError>
    ensures { IfOk result (λ v. map id_at v.items ≡ ids_in_order order.now (filter (λ p. is_not_behind order.now (found_item last.now) p.1) (map ranked_result results.now))) }
{
    let mut first = results_up_to(alloc, results, order.comparators(), last)?;
    sort(&mut first, order)?;
    Ok(first)
}

fn results_up_to<'a>(
    alloc: Global,
    results: &[Ranked<'a>],
    comparators: &[Comparator],
    last: &FoundOccurrence<'_>,
) -> Result<Vec<Ranked<'a>>, AllocError>
    ensures { IfOk result (λ v. v.items ≡ filter (λ r. is_not_behind comparators.now (found_item last.now) (found_item r.found.now)) results.now) }
{
    let mut first = Vec::new(alloc);
    for result in results {
        if is_not_behind(comparators, last, result.found) {
            first.push(*result)?;
        }
    }
    Ok(first)
}
