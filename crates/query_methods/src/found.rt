//! The window of a result that a query asks for.
ghost use Rattle.std.specs.Prelude.{◌≡◌, ◌==◌, IfErr, IfOk, OnOk, None, option_and_then, true};
ghost use Rattle.std.specs.List.{position};
ghost use Rattle.account_store.specs.Store.{entries};
ghost use Rattle.event_store.specs.EventsBase.{base_of};
ghost use Rattle.spec_history.specs.History.{changes_of};
ghost use Rattle.spec_history.specs.ObjectId.{object_number};
ghost use Rattle.spec_history.specs.declared.entry.Kind.TheVariants.{Event};
ghost use Rattle.spec_json.specs.TreeData.{data_of};
ghost use Rattle.spec_queries.specs.Found.{anchor_in, anchor_refusal, cut_asked, found_response, numbers_window, window_response, cut_out};
ghost use Rattle.spec_queries.specs.Queries.{is_paging};
ghost use Rattle.spec_queries.specs.Windows.{IsInMemory};
ghost use Rattle.query_methods.specs.Reports.{Reports};
ghost use Rattle.query_methods.specs.Sights.{seen_by};

use crate::error::QueryError;
use crate::event_state::event_state;
use crate::ids::{id_list, number_tree};
use crate::result::current_result;
use crate::sight::Sight;
use event_store::StoredEvents;
use query_order::order::Order;
use query_order::window::window;
use spec_calls::call::{MethodError, Paging};
use spec_history::entry::Kind;
use spec_json::text::Text;
use spec_json::tree::Tree;
use spec_queries::limits::{MAX_IDS_IN_QUERY, is_own_limit, most_ids};
use spec_queries::window::{Anchor, Cut};
use std::alloc::{AllocError, Global};
use std::cmp::min;
use time_text::{read_object_id, state_text};

/// The arguments of the reply to a query that asks for this window of its result. `Method` tells that the anchor isn't in the result.
pub(crate) fn found(
    alloc: Global,
    events: &StoredEvents<'_>,
    sight: &Sight<'_>,
    order: &Order,
    paging: &Paging,
) -> Result<Tree, QueryError>
    requires paging { is_paging paging.now ≡ true }
    requires zones { sight.now.zones.now ≡ events.now.zones.now }
    ensures response { IfOk result (λ t. t ≡ found_response (seen_by sight.now) order.now (changes_of (entries events.now.store.now)) paging.now (base_of events.now)) }
    ensures found { OnOk result (anchor_refusal (seen_by sight.now) order.now (changes_of (entries events.now.store.now)) paging.now ≡ None) }
    ensures refused { IfErr result (λ e. Reports e (anchor_refusal (seen_by sight.now) order.now (changes_of (entries events.now.store.now)) paging.now)) }
{
    let ids = current_result(alloc, events, sight, order)?;
    let Some(cut) = cut_asked(paging, ids.len() as u64, anchor_in(&ids, &paging.anchor)) else {
        return Err(QueryError::Method(MethodError::AnchorNotFound));
    };
    Ok(numbers_window(alloc, events, paging, &ids, cut)?)
}

/// The window of a result of so many ids that a query asks for, or `None` where its anchor isn't in the result. Takes no memory.
pub fn cut_asked(paging: &Paging, total: u64, anchor: Anchor) -> Option<Cut>
    requires paging { is_paging paging.now ≡ true }
    requires anchor { IsInMemory anchor }
    ensures { result ≡ cut_asked paging.now total anchor }
{
    window(
        total,
        paging.position.get() as i64,
        anchor,
        paging.anchor_offset.get() as i64,
        most_ids(paging.limit),
    )
}

fn anchor_in(ids: &[u64], anchor: &Option<Text>) -> Anchor
    ensures value { result ≡ anchor_in ids.now anchor.now }
    ensures bound { IsInMemory result }
{
    match anchor {
        Some(id) => match place_of(ids, id) {
            Some(place) => Anchor::At(place as u64),
            None => Anchor::Missing,
        },
        None => Anchor::None,
    }
}

fn place_of(ids: &[u64], id: &Text) -> Option<usize>
    ensures { result ≡ option_and_then (λ number. position (λ id. id == number) ids.now) (object_number Event id.now) }
{
    place_of_number(ids, read_object_id(Kind::Event, id.as_str().as_bytes())?)
}

fn place_of_number(ids: &[u64], number: u64) -> Option<usize>
    ensures { result ≡ position (λ id. id == number) ids.now }
{
    ids.iter().position(|id| *id == number)
}

/// The ids of a window of a result. Takes no memory.
pub fn cut_out<T>(cut: Cut, ids: &[T]) -> &[T]
    ensures { result.now ≡ cut_out cut ids.now }
{
    let from = min(cut.from, ids.len() as u64) as usize;
    let count = min(cut.to.saturating_sub(cut.from), (ids.len() - from) as u64) as usize;
    &ids[from..from + count]
}

// The reply that tells a window of the numbers of events.
fn numbers_window(
    alloc: Global,
    events: &StoredEvents<'_>,
    paging: &Paging,
    ids: &[u64],
    cut: Cut,
) -> Result<Tree, AllocError>
    ensures { IfOk result (λ t. t ≡ numbers_window (base_of events.now) (changes_of (entries events.now.store.now)) paging.now ids.now cut) }
{
    let part = Part {
        ids: id_list(alloc, Kind::Event, cut_out(cut, ids))?,
        total: ids.len() as u64,
        cut,
    };
    window_tree(alloc, events, paging, false, part)
}

/// The part of a result that a query asks for.
#[derive(Drop)]
pub struct Part {
    /// The ids in it.
    pub ids: Tree,
    /// The length of the result.
    pub total: u64,
    /// The places of the ids in the result.
    pub cut: Cut,
}

/// The arguments of the reply that tells a part of a result. Where each occurrence is a result of its own (`expand`), what changes of the
/// result isn't told.
pub fn window_tree(
    alloc: Global,
    events: &StoredEvents<'_>,
    paging: &Paging,
    expand: bool,
    part: Part,
) -> Result<Tree, AllocError>
    ensures { IfOk result (λ t. t ≡ window_response (base_of events.now) (changes_of (entries events.now.store.now)) paging.now expand (data_of part.ids) part.total part.cut) }
{
    let mut members = vec![in alloc;
        ("accountId", Tree::Text(events.account.copy()?)),
        ("canCalculateChanges", Tree::Truth(!expand)),
        ("ids", part.ids),
    ]?;
    if !is_own_limit(paging.limit) {
        members.push(("limit", number_tree(MAX_IDS_IN_QUERY as u64)))?;
    }
    members.push(("position", number_tree(part.cut.from)))?;
    let state = event_state(events);
    members.push(("queryState", Tree::Text(state_text(alloc, state)?)))?;
    if paging.calculate_total {
        members.push(("total", number_tree(part.total)))?;
    }
    Tree::object(alloc, members)
}
