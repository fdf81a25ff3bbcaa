//! `CalendarEvent/query` with `expandRecurrences` (RFC 8620 section 5.5, draft JMAP for Calendars).
ghost use Rattle.std.specs.Prelude.{◌≡◌, IfErr, IfOk, OnOk, None};
ghost use Rattle.account_store.specs.Store.{entries};
ghost use Rattle.event_store.specs.EventsBase.{base_of};
ghost use Rattle.spec_history.specs.History.{changes_of};
ghost use Rattle.spec_queries.specs.Queries.{occurrences_asked, query_refusal, query_response};
ghost use Rattle.query_methods.specs.Reports.{Reports};

use crate::all_found::all_found;
use crate::found::found;
use crate::sources::sources;
use crate::terms::read_terms;
use event_store::StoredEvents;
use query_methods::error::QueryError;
use query_methods::numbers::is_paging;
use spec_calls::call::{Criteria, MethodError, Paging};
use spec_json::tree::Tree;
use std::alloc::Global;

/// The arguments of the reply to a query of the events of an account, each of whose occurrences is a result of its own. `Method` tells why
/// it is refused.
///
/// Takes memory for all results, some 80 bytes for each and for a title where an override names it, and for the ids that are told. Time
/// grows with the number of events and with that of the results. Results that stand far from the window are seldom put in order.
pub fn expanded_query(
    alloc: Global,
    events: &StoredEvents<'_>,
    criteria: &Criteria,
    paging: &Paging,
) -> Result<Tree, QueryError>
    ensures response { IfOk result (λ t. t ≡ query_response (base_of events.now) (changes_of (entries events.now.store.now)) (occurrences_asked criteria.now paging.now)) }
    ensures answered { OnOk result (query_refusal (base_of events.now) (changes_of (entries events.now.store.now)) (occurrences_asked criteria.now paging.now) ≡ None) }
    ensures refused { IfErr result (λ e. Reports e (query_refusal (base_of events.now) (changes_of (entries events.now.store.now)) (occurrences_asked criteria.now paging.now))) }
{
    if !is_paging(paging) {
        return Err(QueryError::Method(MethodError::InvalidArguments));
    }
    let terms = read_terms(alloc, events.zones, criteria)?;
    let sources = sources(alloc, events, &terms.sight)?;
    let all = all_found(alloc, &sources, terms.sight.window())?;
    found(alloc, events, &all, &terms.order, paging)
}
