//! What leads from one result of a query to a later one, and how it is applied.
ghost use Rattle.std.specs.Prelude.{◌≡◌, ◌≤◌, ◌<◌, ◌++◌, IfOk, filter, not, length, drop};
ghost use Rattle.std.specs.List.Sorted.{IsNonDecreasing};
ghost use Rattle.spec_history.specs.Pages.{is_in};
ghost use Rattle.spec_queries.specs.QueryChanges.{delta_of, spliced, indexed, with_places};

use spec_history::ids::Ids;
use spec_queries::delta::{Delta, Place, Places};
use std::alloc::{AllocError, Global};

/// The touched numbers of the old result, in its order, and those of the new one with their indexes, lowest first (RFC 8620 section 5.6).
///
/// A number that is in both stands in both lists, since its place may be another one. Takes memory for the lists and for a copy of
/// `touched`.
pub fn changes_of(
    alloc: Global,
    old: &[u64],
    new: &[u64],
    touched: &[u64],
) -> Result<Delta, AllocError>
    ensures { IfOk result (λ delta. delta ≡ delta_of old.now new.now touched.now) }
{
    let touched = sorted(alloc, touched)?;
    Ok(Delta {
        removed: Ids::new(among(alloc, old, &touched)?),
        added: Places::new(places_of(alloc, new, &touched)?),
    })
}

/// The old result with the removed numbers taken out, and then each added one put in at its index in turn; an index past the end means
/// the end (RFC 8620 section 5.6).
///
/// Takes memory for the new result and for copies of the old one and of the removed numbers.
pub fn splice(alloc: Global, old: &[u64], delta: &Delta) -> Result<Ids, AllocError>
    ensures { IfOk result (λ ids. ids ≡ spliced old.now delta.now) }
{
    let removed = sorted(alloc, delta.removed.items())?;
    let kept = without(alloc, old, &removed)?;
    Ok(Ids::new(put_in(alloc, &kept, delta.added.items())?))
}

// The same numbers, so that a binary search finds them.
fn sorted(alloc: Global, ids: &[u64]) -> Result<Vec<u64>, AllocError>
    ensures rising { IfOk result (λ v. IsNonDecreasing v.items) }
    ensures same { IfOk result (λ v. is_in v.items ≡ is_in ids.now) }
{
    let mut sorted = Vec::from_slice(alloc, ids)?;
    sorted.sort_unstable();
    Ok(sorted)
}

fn is_in(sorted: &[u64], id: u64) -> bool
    requires { IsNonDecreasing sorted.now }
    ensures { result ≡ is_in sorted.now id }
{
    sorted.binary_search(&id).is_ok()
}

fn among(alloc: Global, ids: &[u64], sorted: &[u64]) -> Result<Vec<u64>, AllocError>
    requires { IsNonDecreasing sorted.now }
    ensures { IfOk result (λ v. v.items ≡ filter (is_in sorted.now) ids.now) }
{
    let mut found = Vec::new(alloc);
    for id in ids {
        if is_in(sorted, *id) {
            found.push(*id)?;
        }
    }
    Ok(found)
}

fn places_of(alloc: Global, ids: &[u64], sorted: &[u64]) -> Result<Vec<Place>, AllocError>
    requires { IsNonDecreasing sorted.now }
    ensures { IfOk result (λ v. v.items ≡ indexed (is_in sorted.now) 0 ids.now) }
{
    let mut found = Vec::new(alloc);
    for (index, id) in ids.iter().enumerate() {
        if is_in(sorted, *id) {
            found.push(Place {
                id: *id,
                index: index as u64,
            })?;
        }
    }
    Ok(found)
}

fn without(alloc: Global, ids: &[u64], sorted: &[u64]) -> Result<Vec<u64>, AllocError>
    requires { IsNonDecreasing sorted.now }
    ensures { IfOk result (λ v. v.items ≡ filter (λ id. not (is_in sorted.now id)) ids.now) }
{
    let mut kept = Vec::with_capacity(alloc, ids.len())?;
    for id in ids {
        if !is_in(sorted, *id) {
            kept.push(*id)?;
        }
    }
    Ok(kept)
}

// Where the indexes rise, each number goes to the end, and the whole takes one pass.
#[tactic(auto, using(crate::proofs::Splicing::put_step))]
fn put_in(alloc: Global, kept: &[u64], places: &[Place]) -> Result<Vec<u64>, AllocError>
    ensures { IfOk result (λ v. v.items ≡ with_places kept.now places.now) }
{
    let mut ids = Vec::with_capacity(alloc, kept.len())?;
    let mut next = 0;
    for place in places {
        next = fill(&mut ids, kept, next, place.index as usize)?;
        let index = std::cmp::min(place.index as usize, ids.len());
        ids.insert(index, place.id)?;
    }
    ids.extend_from_slice(&kept[next..])?;
    Ok(ids)
}

// Moves kept numbers over until so many are there, or none is left. Answers where those that are left begin.
fn fill(ids: &mut Vec<u64>, kept: &[u64], from: usize, until: usize) -> Result<usize, AllocError>
    requires { from ≤ length kept.now }
    ensures same { IfOk result (λ n. ids.new.items ++ drop n kept.now ≡ ids.old.items ++ drop from kept.now) }
    ensures bound { IfOk result (λ n. n ≤ length kept.now) }
    ensures filled { IfOk result (λ n. n < length kept.now → until ≤ length ids.new.items) }
{
    let mut next = from;
    while ids.len() < until && next < kept.len() {
        ids.push(kept[next])?;
        next += 1;
    }
    Ok(next)
}
