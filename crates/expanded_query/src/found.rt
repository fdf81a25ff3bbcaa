//! The window of a result that a query asks for.
ghost use Rattle.std.specs.Prelude.{◌≡◌, ℕ, IfErr, IfOk, List, OnOk, None, length, map, true, unwrap_or};
ghost use Rattle.account_store.specs.Store.{entries};
ghost use Rattle.event_store.specs.EventsBase.{base_of};
ghost use Rattle.expanded_query.specs.Founds.{id_at, ordered_ids};
ghost use Rattle.spec_history.specs.History.{changes_of};
ghost use Rattle.spec_json.specs.Data.{items_of, list, text};
ghost use Rattle.spec_json.specs.TreeData.{data_of};
ghost use Rattle.spec_queries.specs.Expanded.{cut_among, expanded_window};
ghost use Rattle.spec_queries.specs.Found.{cut_out, missing_anchor, no_window};
ghost use Rattle.spec_queries.specs.Queries.{is_paging};
ghost use Rattle.query_methods.specs.Reports.{Reports};

use crate::anchor::anchor_among;
use crate::found_occurrence::FoundOccurrence;
use crate::ranked::Ranked;
use crate::window::window_in_order;
use event_store::StoredEvents;
use query_methods::error::QueryError;
use query_methods::found::{Part, cut_asked, window_tree};
use query_order::order::Order;
use spec_calls::call::{MethodError, Paging};
use spec_json::tree::{Tree, TreeList};
use spec_queries::window::Cut;
use std::alloc::{AllocError, Global};

/// The arguments of the reply to a query that has found these occurrences. `Method` tells that its anchor isn't one of them.
///
/// Takes memory for three references to each, and for the ids that are told.
pub(crate) fn found(
    alloc: Global,
    events: &StoredEvents<'_>,
    all: &[FoundOccurrence<'_>],
    order: &Order,
    paging: &Paging,
) -> Result<Tree, QueryError>
    requires { is_paging paging.now ≡ true }
    ensures response { IfOk result (λ t. t ≡ expanded_window (base_of events.now) (changes_of (entries events.now.store.now)) paging.now (ordered_ids order.now all.now) (unwrap_or (cut_among paging.now (ordered_ids order.now all.now)) no_window)) }
    ensures found { OnOk result (missing_anchor (cut_among paging.now (ordered_ids order.now all.now)) ≡ None) }
    ensures refused { IfErr result (λ e. Reports e (missing_anchor (cut_among paging.now (ordered_ids order.now all.now)))) }
{
    let anchor = anchor_among(alloc, all, order, &paging.anchor)?;
    let total = all.len() as u64;
    let Some(cut) = cut_asked(paging, total, anchor) else {
        return Err(QueryError::Method(MethodError::AnchorNotFound));
    };
    let results = window_in_order(alloc, all, order, cut)?;
    Ok(expanded_window(alloc, events, paging, &results, total, cut)?)
}

// The reply that tells a window of a result of so many.
fn expanded_window(
    alloc: Global,
    events: &StoredEvents<'_>,
    paging: &Paging,
    results: &[Ranked<'_>],
    total: u64,
    cut: Cut,
) -> Result<Tree, AllocError>
    ensures { IfOk result (λ t. (ids : List (List ℕ)) → map id_at results.now ≡ cut_out cut ids → total ≡ length ids → t ≡ expanded_window (base_of events.now) (changes_of (entries events.now.store.now)) paging.now ids cut) }
{
    let ids = id_list(alloc, results)?;
    window_tree(alloc, events, paging, true, Part { ids, total, cut })
}

fn id_list(alloc: Global, results: &[Ranked<'_>]) -> Result<Tree, AllocError>
    ensures { IfOk result (λ t. data_of t ≡ list (items_of (map text (map id_at results.now)))) }
{
    let mut items = Vec::with_capacity(alloc, results.len())?;
    for result in results {
        items.push(Tree::Text(result.found.id(alloc)?))?;
    }
    Ok(Tree::List(TreeList::new(items)))
}
