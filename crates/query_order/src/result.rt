//! Results of queries.
ghost use Rattle.std.specs.Prelude.{◌≡◌, ◌<◌, All, length, IfOk, OnOk, map};
ghost use Rattle.std.specs.List.{enumerate_from};
ghost use Rattle.spec_queries.specs.Results.{places, numbers_at};
ghost use Rattle.spec_json.specs.InOrder.{in_order};
ghost use Rattle.query_order.specs.Ordered.{by_item};
ghost use Rattle.query_order.specs.Numbered.{numbered_item};

use crate::order::Order;
use spec_history::ids::Ids;
use spec_queries::item::Item;
use std::alloc::{AllocError, Global};

/// The places of the items in the list, from 0, in the order of the result; items that no comparator tells apart stay in the list's own
/// order, whichever way the comparators go (RFC 8620 section 5.5).
///
/// Takes memory for the places and for the sort.
#[tactic(auto, using(crate::proofs::Places::places_below))]
pub fn result(alloc: Global, items: &[Item], order: &Order) -> Result<Ids, AllocError>
    ensures places { IfOk result (λ ids. ids ≡ places order.now items.now) }
    ensures below { IfOk result (λ ids. All (λ place. place < length items.now) ids) }
{
    Ok(Ids::new(sorted_places(alloc, items, order)?))
}

#[tactic(auto, using(crate::proofs::Places::places_is))]
fn sorted_places(alloc: Global, items: &[Item], order: &Order) -> Result<Vec<u64>, AllocError>
    ensures { IfOk result (λ v. v.items ≡ places order.now items.now) }
{
    let mut numbered = numbered(alloc, items)?;
    sort(&mut numbered, order)?;
    numbers(alloc, &numbered)
}

fn numbered(alloc: Global, items: &[Item]) -> Result<Vec<(u64, &Item)>, AllocError>
    ensures { IfOk result (λ v. map numbered_item v.items ≡ enumerate_from 0 items.now) }
{
    let mut numbered = Vec::with_capacity(alloc, items.len())?;
    for (place, item) in items.iter().enumerate() {
        numbered.push((place as u64, item))?;
    }
    Ok(numbered)
}

fn sort(numbered: &mut Vec<(u64, &Item)>, order: &Order) -> Result<(), AllocError>
    ensures { OnOk result (map numbered_item numbered.new.items ≡ in_order (by_item order.now) (map numbered_item numbered.old.items)) }
{
    numbered.sort_by(|a, b| order.compare(a.1, b.1))
}

fn numbers(alloc: Global, numbered: &[(u64, &Item)]) -> Result<Vec<u64>, AllocError>
    ensures { IfOk result (λ v. v.items ≡ map (λ p. p.0) (map numbered_item numbered.now)) }
{
    let mut numbers = Vec::with_capacity(alloc, numbered.len())?;
    for entry in numbered {
        numbers.push(entry.0)?;
    }
    Ok(numbers)
}

/// The numbers that stand at these places, as of the events whose items were put in order. Takes memory for them.
pub fn numbers_at(alloc: Global, numbers: &[u64], places: &[u64]) -> Result<Vec<u64>, AllocError>
    requires { All (λ place. place < length numbers.now) places.now }
    ensures { IfOk result (λ v. v.items ≡ numbers_at numbers.now places.now) }
{
    let mut found = Vec::with_capacity(alloc, places.len())?;
    for place in places {
        found.push(numbers[*place as usize])?;
    }
    Ok(found)
}
