//! What changed of a query's result since a state.
ghost use Rattle.std.specs.Prelude.{◌≡◌, ◌∷◌, [], IfErr, IfOk, OnOk, None, codes, map, option_map, true, unsigned_abs};
ghost use Rattle.account_store.specs.Store.{entries};
ghost use Rattle.event_store.specs.EventsBase.{base_of};
ghost use Rattle.spec_history.specs.History.{changes_of};
ghost use Rattle.spec_history.specs.Pages.{is_within};
ghost use Rattle.spec_history.specs.declared.entry.Kind.TheVariants.{Event};
ghost use Rattle.spec_history.specs.States.{state_of, state_text};
ghost use Rattle.spec_json.specs.Data.{items_of, list, text};
ghost use Rattle.spec_json.specs.TreeData.{data_of, keyed};
ghost use Rattle.spec_sizes.specs.Sizes.{is_answered_from};
ghost use Rattle.spec_queries.specs.Changed.{added_item, changed_response, delta_response, delta_since, size_of_delta, size_refusal};
ghost use Rattle.spec_queries.specs.Found.{total_member};
ghost use Rattle.spec_queries.specs.States.{id_list, is_maximum};
ghost use Rattle.spec_queries.specs.Matching.{result_of};
ghost use Rattle.query_methods.specs.Reports.{Reports};
ghost use Rattle.query_methods.specs.Sights.{seen_by};

use crate::error::QueryError;
use crate::event_state::event_state;
use crate::ids::{id_list, number_tree};
use crate::result::{current_result, touched_result};
use crate::sight::Sight;
use event_store::StoredEvents;
use query_order::change::changes_of;
use query_order::order::Order;
use spec_calls::call::{MethodError, QueryChangesArguments};
use spec_history::entry::Kind;
use spec_json::num::Num;
use spec_json::tree::{Tree, TreeList};
use spec_queries::delta::{Delta, Place};
use std::alloc::{AllocError, Global};
use time_text::{object_id_text, state_text};

/// The arguments of the reply that tells what changed of a result since the state of this number. `Method` tells that it is more than the client takes.
pub(crate) fn changed(
    alloc: Global,
    events: &StoredEvents<'_>,
    sight: &Sight<'_>,
    order: &Order,
    arguments: &QueryChangesArguments,
    since: u64,
) -> Result<Tree, QueryError>
    requires zones { sight.now.zones.now ≡ events.now.zones.now }
    requires answered { is_answered_from Event (changes_of (entries events.now.store.now)) since ≡ true }
    requires maximum { is_maximum arguments.now.max ≡ true }
    ensures response { IfOk result (λ t. t ≡ changed_response (seen_by sight.now) order.now (changes_of (entries events.now.store.now)) (base_of events.now) arguments.now since) }
    ensures few { OnOk result (size_refusal (seen_by sight.now) order.now (changes_of (entries events.now.store.now)) arguments.now since ≡ None) }
    ensures refused { IfErr result (λ e. Reports e (size_refusal (seen_by sight.now) order.now (changes_of (entries events.now.store.now)) arguments.now since)) }
{
    let now = current_result(alloc, events, sight, order)?;
    let delta = delta_since(alloc, events, sight, order, since, &now)?;
    if !is_within(arguments.max, &delta) {
        return Err(QueryError::Method(MethodError::TooManyChanges));
    }
    Ok(delta_tree(alloc, events, arguments, now.len() as u64, &delta)?)
}

// Of the earlier result only those events are looked at that were touched since.
fn delta_since(
    alloc: Global,
    events: &StoredEvents<'_>,
    sight: &Sight<'_>,
    order: &Order,
    since: u64,
    now: &[u64],
) -> Result<Delta, AllocError>
    requires zones { sight.now.zones.now ≡ events.now.zones.now }
    requires answered { is_answered_from Event (changes_of (entries events.now.store.now)) since ≡ true }
    requires result { now.now ≡ result_of (seen_by sight.now) order.now (changes_of (entries events.now.store.now)) }
    ensures { IfOk result (λ delta. delta ≡ delta_since (seen_by sight.now) order.now (changes_of (entries events.now.store.now)) since) }
{
    let touched = events.store.touched_since(alloc, since)?;
    let before = touched_result(alloc, events, sight, order, since, &touched)?;
    changes_of(alloc, &before, now, &touched)
}

fn is_within(most: Option<Num>, delta: &Delta) -> bool
    requires { is_maximum most ≡ true }
    ensures { result ≡ is_within (option_map unsigned_abs most) (size_of_delta delta.now) }
{
    match most {
        Some(most) => {
            let removed = delta.removed.items().len();
            let added = delta.added.items().len();
            removed as i128 + added as i128 <= most.get()
        }
        None => true,
    }
}

fn added_item(alloc: Global, place: Place) -> Result<Tree, AllocError>
    ensures { IfOk result (λ t. data_of t ≡ added_item place) }
{
    let members = vec![in alloc;
        (
            "id",
            Tree::Text(object_id_text(alloc, Kind::Event, place.id)?)
        ),
        ("index", number_tree(place.index)),
    ]?;
    Tree::object(alloc, members)
}

fn added_items(alloc: Global, places: &[Place]) -> Result<Vec<Tree>, AllocError>
    ensures { IfOk result (λ v. map data_of v.items ≡ map added_item places.now) }
{
    let mut items = Vec::with_capacity(alloc, places.len())?;
    for place in places {
        items.push(added_item(alloc, *place)?)?;
    }
    Ok(items)
}

fn delta_tree(
    alloc: Global,
    events: &StoredEvents<'_>,
    arguments: &QueryChangesArguments,
    total: u64,
    delta: &Delta,
) -> Result<Tree, AllocError>
    ensures { IfOk result (λ t. t ≡ delta_response (base_of events.now) (changes_of (entries events.now.store.now)) arguments.now total delta.now) }
{
    let mut members = leading(alloc, events, delta)?;
    members.append(&mut trailing(alloc, arguments, total, delta)?)?;
    Tree::object(alloc, members)
}

// The arguments up to the new state, in byte order of their names.
fn leading(
    alloc: Global,
    events: &StoredEvents<'_>,
    delta: &Delta,
) -> Result<Vec<(&'static str, Tree)>, AllocError>
    ensures { IfOk result (λ ms. map keyed ms.items ≡
        (codes "accountId", text (base_of events.now).account_id)
        ∷ (codes "added", list (items_of (map added_item delta.now.added)))
        ∷ (codes "newQueryState", text (state_text (state_of (base_of events.now).generation Event (changes_of (entries events.now.store.now))))) ∷ []) }
{
    let id = Tree::Text(events.account.copy()?);
    let added = Tree::List(TreeList::new(added_items(alloc, delta.added.items())?));
    let state = Tree::Text(state_text(alloc, event_state(events))?);
    Ok(vec![in alloc;
        ("accountId", id),
        ("added", added),
        ("newQueryState", state),
    ]?)
}

// The arguments after the new state, in byte order of their names.
fn trailing(
    alloc: Global,
    arguments: &QueryChangesArguments,
    total: u64,
    delta: &Delta,
) -> Result<Vec<(&'static str, Tree)>, AllocError>
    ensures { IfOk result (λ ms. map keyed ms.items ≡
        (codes "oldQueryState", text arguments.now.since)
        ∷ (codes "removed", id_list Event delta.now.removed) ∷ total_member arguments.now.calculate_total total) }
{
    let state = Tree::Text(arguments.since.copy()?);
    let removed = id_list(alloc, Kind::Event, delta.removed.items())?;
    let mut members = vec![in alloc; ("oldQueryState", state), ("removed", removed)]?;
    if arguments.calculate_total {
        members.push(("total", number_tree(total)))?;
    }
    Ok(members)
}
