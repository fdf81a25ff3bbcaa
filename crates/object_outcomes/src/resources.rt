//! The resource calendars that an event is in.
ghost use Rattle.std.specs.Prelude.{◌≡◌, ◌++◌, IfOk, filter, option_map};
ghost use Rattle.spec_events.specs.Events.{names_calendar};
ghost use Rattle.spec_json.specs.TreeData.{data_of};
ghost use Rattle.spec_bookings.specs.Resources.{resource_zone, resources_of};

use cal_model::view::CalendarsView;
use single_event::calendars::names_calendar;
use spec_history::entry::Kind;
use spec_json::text::Text;
use spec_json::tree::Tree;
use std::alloc::{AllocError, Global};

/// The numbers of the resource calendars that an event is in, in order of creation. Takes memory for them.
pub fn resources_of<V: CalendarsView>(
    alloc: Global,
    view: &V,
    event: &Tree,
) -> Result<Vec<u64>, AllocError>
    ensures { IfOk result (λ v. v.items ≡ resources_of (V.changes view.now) (data_of event.now)) }
{
    let all = view.resources(alloc)?;
    named_among(alloc, event, &all)
}

fn named_among(alloc: Global, event: &Tree, numbers: &[u64]) -> Result<Vec<u64>, AllocError>
    ensures { IfOk result (λ v. v.items ≡ filter (λ n. names_calendar n (data_of event.now)) numbers.now) }
{
    let mut named = Vec::new(alloc);
    for number in numbers {
        if names_calendar(event, *number) {
            named.push(*number)?;
        }
    }
    Ok(named)
}

/// The time zone of the resource that a calendar is of, if it is live and of one. Takes no memory.
pub(crate) fn resource_zone<V: CalendarsView>(view: &V, number: u64) -> Option<&Text>
    ensures { option_map (λ zone. zone.now) result ≡ resource_zone (V.changes view.now) number }
{
    view.calendar(number)?.text_at("resourceZone")
}
