//! `CalendarEvent/query` (RFC 8620 section 5.5, draft JMAP for Calendars).
ghost use Rattle.std.specs.Prelude.{◌≡◌, IfErr, IfOk, OnOk, None};
ghost use Rattle.account_store.specs.Store.{entries};
ghost use Rattle.event_store.specs.EventsBase.{base_of};
ghost use Rattle.spec_history.specs.History.{changes_of};
ghost use Rattle.spec_queries.specs.Queries.{events_asked, query_refusal, query_response};
ghost use Rattle.query_methods.specs.Reports.{Reports};

use crate::criteria::read_terms;
use crate::error::QueryError;
use crate::found::found;
use crate::numbers::is_paging;
use event_store::StoredEvents;
use spec_calls::call::{Criteria, MethodError, Paging};
use spec_json::tree::Tree;
use std::alloc::Global;

/// The arguments of the reply to a query of the events of an account, each a result. `Method` tells why it is refused.
///
/// Takes memory for the events that the filter holds of, and where there are comparators for their items. Time grows with the number of events.
pub fn query(
    alloc: Global,
    events: &StoredEvents<'_>,
    criteria: &Criteria,
    paging: &Paging,
) -> Result<Tree, QueryError>
    ensures response { IfOk result (λ t. t ≡ query_response (base_of events.now) (changes_of (entries events.now.store.now)) (events_asked criteria.now paging.now)) }
    ensures answered { OnOk result (query_refusal (base_of events.now) (changes_of (entries events.now.store.now)) (events_asked criteria.now paging.now) ≡ None) }
    ensures refused { IfErr result (λ e. Reports e (query_refusal (base_of events.now) (changes_of (entries events.now.store.now)) (events_asked criteria.now paging.now))) }
{
    if !is_paging(paging) {
        return Err(QueryError::Method(MethodError::InvalidArguments));
    }
    let terms = read_terms(alloc, events.zones, criteria)?;
    found(alloc, events, &terms.sight, &terms.order, paging)
}
