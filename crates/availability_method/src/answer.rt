//! The answer of `Principal/getAvailability` (draft JMAP for Calendars).
ghost use Rattle.std.specs.Prelude.{◌≡◌, IfOk, MatchOption, None, Some};
ghost use Rattle.account_store.specs.Store.{entries};
ghost use Rattle.event_store.specs.EventsBase.{base_of};
ghost use Rattle.spec_availability.specs.Availability.{availability_refusal, availability_response};
ghost use Rattle.spec_calls.specs.declared.call.MethodError.TheVariants.{InvalidArguments};
ghost use Rattle.spec_history.specs.History.{changes_of};

use crate::events::busy_of;
use crate::response::response;
use crate::window::read_window;
use event_store::StoredEvents;
use spec_calls::call::AvailabilityArguments;
use spec_json::tree::Tree;
use std::alloc::{AllocError, Global};

/// The arguments of the response that tells when the owner of an account is busy, or `None` where an argument of the call isn't one
/// that it may have.
///
/// Takes memory for the response and for a list of the account's events. Time grows with their occurrences in the window.
pub fn availability(
    alloc: Global,
    events: &StoredEvents<'_>,
    arguments: &AvailabilityArguments,
) -> Result<Option<Tree>, AllocError>
    ensures { IfOk result (λ r. MatchOption r (availability_refusal (base_of events.now) arguments.now ≡ Some InvalidArguments)
        (λ t. (availability_refusal (base_of events.now) arguments.now ≡ None) × (t ≡ availability_response (base_of events.now) (changes_of (entries events.now.store.now)) arguments.now))) }
{
    if arguments.id.as_str() != events.account.as_str() || !events.zones.has(&arguments.time_zone) {
        return Ok(None);
    }
    let Some(window) = read_window(&arguments.utc_start, &arguments.utc_end) else {
        return Ok(None);
    };
    let live = events.live(alloc)?;
    let periods = busy_of(alloc, &live, events.zones, &arguments.time_zone, window)?;
    Ok(Some(response(alloc, events.account, &periods)?))
}
