//! Results of queries at the states of an account's history.
ghost use Rattle.std.specs.Prelude.{◌≡◌, IfOk, filter, length, map, true};
ghost use Rattle.account_store.specs.Earlier.{changes_up_to, touched_ids};
ghost use Rattle.account_store.specs.Store.{entries};
ghost use Rattle.spec_history.specs.History.{changes_of, live_object};
ghost use Rattle.spec_history.specs.Pages.{is_in};
ghost use Rattle.spec_history.specs.declared.entry.Kind.TheVariants.{Event};
ghost use Rattle.spec_sizes.specs.Sizes.{is_answered_from};
ghost use Rattle.spec_queries.specs.Matching.{match_of, result_at, result_of, with_number};
ghost use Rattle.query_methods.specs.Among.{matches_among, number_if, result_among};
ghost use Rattle.query_methods.specs.Compared.{seen_in};
ghost use Rattle.query_methods.specs.Sights.{seen_by};

use crate::sight::Sight;
use event_store::StoredEvents;
use query_order::order::Order;
use query_order::result::{numbers_at, result};
use spec_history::entry::Kind;
use spec_queries::item::Item;
use std::alloc::{AllocError, Global};

/// The numbers of the events in the result of a query, in its order (RFC 8620 section 5.5).
///
/// Takes memory for them, and where there are comparators for the items of all of them. Time grows with the number of events.
pub(crate) fn current_result(
    alloc: Global,
    events: &StoredEvents<'_>,
    sight: &Sight<'_>,
    order: &Order,
) -> Result<Vec<u64>, AllocError>
    requires { sight.now.zones.now ≡ events.now.zones.now }
    ensures { IfOk result (λ v. v.items ≡ result_of (seen_by sight.now) order.now (changes_of (entries events.now.store.now))) }
{
    let state = events.store.count(Kind::Event);
    let numbers = events.store.live_ids(alloc, Kind::Event)?;
    result_among(alloc, events, sight, order, state, &numbers)
}

/// The result at state `state` of events of those alone that changes behind it name, where these are all of them. So no other can have been left out.
///
/// Takes memory for them and their items.
pub(crate) fn touched_result(
    alloc: Global,
    events: &StoredEvents<'_>,
    sight: &Sight<'_>,
    order: &Order,
    state: u64,
    touched: &[u64],
) -> Result<Vec<u64>, AllocError>
    requires zones { sight.now.zones.now ≡ events.now.zones.now }
    requires answered { is_answered_from Event (changes_of (entries events.now.store.now)) state ≡ true }
    requires touched { touched.now ≡ touched_ids (changes_of (entries events.now.store.now)) Event state }
    ensures { IfOk result (λ v. filter (is_in touched.now) v.items ≡ filter (is_in touched.now) (result_at (seen_by sight.now) order.now (changes_of (entries events.now.store.now)) state)) }
{
    result_among(alloc, events, sight, order, state, touched)
}

// The result of a query that looks at these events alone, at a state.
fn result_among(
    alloc: Global,
    events: &StoredEvents<'_>,
    sight: &Sight<'_>,
    order: &Order,
    state: u64,
    numbers: &[u64],
) -> Result<Vec<u64>, AllocError>
    requires zones { sight.now.zones.now ≡ events.now.zones.now }
    requires answered { is_answered_from Event (changes_of (entries events.now.store.now)) state ≡ true }
    ensures { IfOk result (λ v. v.items ≡ result_among (seen_by sight.now) order.now (changes_up_to (entries events.now.store.now) Event state) numbers.now) }
{
    if order.is_empty() {
        return found_among(alloc, events, sight, state, numbers);
    }
    let matches = matches_among(alloc, events, sight, order, state, numbers)?;
    let places = result(alloc, &matches.items, order)?;
    numbers_at(alloc, &matches.numbers, places.items())
}

// The events of which a filter holds, each with its item, which holds what the order compares.
#[derive(Drop)]
struct Matches {
    numbers: Vec<u64>,
    items: Vec<Item>,
}

fn matches_among(
    alloc: Global,
    events: &StoredEvents<'_>,
    sight: &Sight<'_>,
    order: &Order,
    state: u64,
    numbers: &[u64],
) -> Result<Matches, AllocError>
    requires zones { sight.now.zones.now ≡ events.now.zones.now }
    requires answered { is_answered_from Event (changes_of (entries events.now.store.now)) state ≡ true }
    ensures numbers { IfOk result (λ m. m.numbers.items ≡ map (λ p. p.0) (matches_among (seen_in order.now (seen_by sight.now)) (changes_up_to (entries events.now.store.now) Event state) numbers.now)) }
    ensures items { IfOk result (λ m. m.items.items ≡ map (λ p. p.1) (matches_among (seen_in order.now (seen_by sight.now)) (changes_up_to (entries events.now.store.now) Event state) numbers.now)) }
    ensures paired { IfOk result (λ m. length m.numbers.items ≡ length m.items.items) }
{
    let mut found = Vec::new(alloc);
    let mut items = Vec::new(alloc);
    for number in numbers {
        if let Some(item) = item_at(alloc, events, sight, order, state, *number)? {
            found.push(*number)?;
            items.push(item)?;
        }
    }
    Ok(Matches {
        numbers: found,
        items,
    })
}

fn item_at(
    alloc: Global,
    events: &StoredEvents<'_>,
    sight: &Sight<'_>,
    order: &Order,
    state: u64,
    number: u64,
) -> Result<Option<Item>, AllocError>
    requires zones { sight.now.zones.now ≡ events.now.zones.now }
    requires answered { is_answered_from Event (changes_of (entries events.now.store.now)) state ≡ true }
    ensures { IfOk result (λ o. with_number number o ≡ match_of (seen_in order.now (seen_by sight.now)) number (live_object (changes_up_to (entries events.now.store.now) Event state) Event number)) }
{
    match events.event_at(number, state) {
        Some(event) => sight.see(alloc, order, &event),
        None => Ok(None),
    }
}

// The numbers of the events of which a filter holds. No items are made of them.
fn found_among(
    alloc: Global,
    events: &StoredEvents<'_>,
    sight: &Sight<'_>,
    state: u64,
    numbers: &[u64],
) -> Result<Vec<u64>, AllocError>
    requires zones { sight.now.zones.now ≡ events.now.zones.now }
    requires answered { is_answered_from Event (changes_of (entries events.now.store.now)) state ≡ true }
    ensures { IfOk result (λ v. v.items ≡ map (λ p. p.0) (matches_among (seen_by sight.now) (changes_up_to (entries events.now.store.now) Event state) numbers.now)) }
{
    let mut found = Vec::new(alloc);
    for number in numbers {
        if is_match(alloc, events, sight, state, *number)? {
            found.push(*number)?;
        }
    }
    Ok(found)
}

fn is_match(
    alloc: Global,
    events: &StoredEvents<'_>,
    sight: &Sight<'_>,
    state: u64,
    number: u64,
) -> Result<bool, AllocError>
    requires zones { sight.now.zones.now ≡ events.now.zones.now }
    requires answered { is_answered_from Event (changes_of (entries events.now.store.now)) state ≡ true }
    ensures { IfOk result (λ b. number_if b number ≡ map (λ p. p.0) (match_of (seen_by sight.now) number (live_object (changes_up_to (entries events.now.store.now) Event state) Event number))) }
{
    match events.event_at(number, state) {
        Some(event) => sight.holds(alloc, &event),
        None => Ok(false),
    }
}
