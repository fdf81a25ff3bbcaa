//! `CalendarEvent/queryChanges` (RFC 8620 section 5.6, draft JMAP for Calendars).
ghost use Rattle.std.specs.Prelude.{◌≡◌, IfErr, IfOk, IfSome, OnOk, None, if◌then◌else◌, true};
ghost use Rattle.account_store.specs.Store.{entries};
ghost use Rattle.event_store.specs.EventsBase.{base_of};
ghost use Rattle.spec_history.specs.History.{changes_of};
ghost use Rattle.spec_history.specs.declared.entry.Kind.TheVariants.{Event};
ghost use Rattle.spec_sizes.specs.Sizes.{is_answered_from};
ghost use Rattle.spec_queries.specs.Queries.{query_changes_refusal, query_changes_response};
ghost use Rattle.spec_queries.specs.States.{is_known_state};
ghost use Rattle.query_methods.specs.Reports.{Reports};
ghost use Rattle.time_text.specs.State.{number_named};

use crate::changed::changed;
use crate::criteria::read_terms;
use crate::error::QueryError;
use crate::numbers::is_maximum;
use event_store::StoredEvents;
use spec_calls::call::{MethodError, QueryChangesArguments};
use spec_history::entry::Kind;
use spec_json::text::Text;
use spec_json::tree::Tree;
use std::alloc::Global;
use time_text::number_named;

/// The arguments of the reply that tells what changed of the result of a query since a state. `Method` tells why it isn't told.
///
/// Takes memory for the items of the events that the filter holds of, and of those that were touched since and that it held of then.
/// Time grows with the number of live events.
pub fn query_changes(
    alloc: Global,
    events: &StoredEvents<'_>,
    arguments: &QueryChangesArguments,
) -> Result<Tree, QueryError>
    ensures response { IfOk result (λ t. t ≡ query_changes_response (base_of events.now) (changes_of (entries events.now.store.now)) arguments.now) }
    ensures answered { OnOk result (query_changes_refusal (base_of events.now) (changes_of (entries events.now.store.now)) arguments.now ≡ None) }
    ensures refused { IfErr result (λ e. Reports e (query_changes_refusal (base_of events.now) (changes_of (entries events.now.store.now)) arguments.now)) }
{
    if !is_maximum(arguments.max) {
        return Err(QueryError::Method(MethodError::InvalidArguments));
    }
    let terms = read_terms(alloc, events.zones, &arguments.criteria)?;
    match number_known(events, &arguments.since) {
        Some(since) if !arguments.expand => {
            changed(alloc, events, &terms.sight, &terms.order, arguments, since)
        }
        _ => Err(QueryError::Method(MethodError::CannotCalculateChanges)),
    }
}

// The number of the state of events that a text names, where changes are told from it.
fn number_known(events: &StoredEvents<'_>, text: &Text) -> Option<u64>
    ensures value { result ≡ (if is_known_state events.now.generation Event (changes_of (entries events.now.store.now)) text.now
        then number_named events.now.generation text.now else None) }
    ensures answered { IfSome result (λ number. is_answered_from Event (changes_of (entries events.now.store.now)) number ≡ true) }
{
    let number = number_named(events.generation, text.as_str().as_bytes())?;
    if events.store.retained(Kind::Event, number) {
        Some(number)
    } else {
        None
    }
}
