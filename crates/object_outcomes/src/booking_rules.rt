//! What an event may be that books a resource.
ghost use Rattle.std.specs.Prelude.{◌≡◌, ◌==◌, ◌&&◌, IfOk, length, nat_le, not, true};
ghost use Rattle.std.specs.List.{list_all};
ghost use Rattle.std.specs.Option.{option_map_or};
ghost use Rattle.spec_events.specs.Events.{length_in};
ghost use Rattle.spec_json.specs.TreeData.{data_of};
ghost use Rattle.spec_recurrence.specs.Overrides.{exceptions_in};
ghost use Rattle.spec_bookings.specs.BookingRules.{has_long_override, is_in_other_zone, is_in_zone, is_long_booking};
ghost use Rattle.spec_bookings.specs.Resources.{resource_zone, resources_of};
ghost use Rattle.spec_series.specs.Lengths.{are_week_long, is_week_long};
ghost use Rattle.spec_series.specs.SeriesLimits.{wall_seconds};

use crate::resources::resource_zone;
use cal_model::view::CalendarsView;
use overrides::exceptions::{OverrideError, exceptions};
use single_event::parts::given_length;
use spec_json::text::Text;
use spec_json::tree::Tree;
use spec_series::exception::{Exception, Span};
use spec_series::series::Series;
use spec_time::length::Length;
use std::alloc::{AllocError, Global};
use zone_table::Zones;

const DAY: u64 = 86_400;

/// The most wall seconds that a booking may last.
const WEEK: u64 = 7 * DAY;

/// Whether one of the resources that an event is in has another time zone than the event. Takes no memory.
pub fn is_in_other_zone<V: CalendarsView>(view: &V, event: &Tree, resources: &[u64]) -> bool
    requires { resources.now ≡ resources_of (V.changes view.now) (data_of event.now) }
    ensures { result ≡ is_in_other_zone (V.changes view.now) (data_of event.now) }
{
    !is_in_all(view, event, resources)
}

fn is_in_all<V: CalendarsView>(view: &V, event: &Tree, resources: &[u64]) -> bool
    ensures { result ≡ list_all (λ n. option_map_or (is_in_zone (data_of event.now)) (resource_zone (V.changes view.now) n) true) resources.now }
{
    for number in resources {
        if !is_in_zone_of(view, event, *number) {
            return false;
        }
    }
    true
}

fn is_in_zone_of<V: CalendarsView>(view: &V, event: &Tree, number: u64) -> bool
    ensures { result ≡ option_map_or (is_in_zone (data_of event.now)) (resource_zone (V.changes view.now) number) true }
{
    match resource_zone(view, number) {
        Some(zone) => is_in_zone(event, zone),
        None => true,
    }
}

fn is_in_zone(event: &Tree, zone: &Text) -> bool
    ensures { result ≡ is_in_zone (data_of event.now) zone.now }
{
    match event.text_at("timeZone") {
        Some(own) => zone.as_str() == own.as_str(),
        None => false,
    }
}

/// Whether an event that is in some resource lasts longer than 7 days. Takes no memory.
pub fn is_long_booking<V: CalendarsView>(view: &V, event: &Tree, resources: &[u64]) -> bool
    requires { resources.now ≡ resources_of (V.changes view.now) (data_of event.now) }
    ensures { result ≡ is_long_booking (V.changes view.now) (data_of event.now) }
{
    !resources.is_empty() && !is_event_week_long(event)
}

fn is_event_week_long(event: &Tree) -> bool
    ensures { result ≡ nat_le (wall_seconds (length_in (data_of event.now))) 604800 }
{
    match given_length(event) {
        Some(length) => lasts_a_week(length),
        None => true,
    }
}

/// Whether an override of an event of this series, which is in these resources, lets an occurrence last longer than 7 days. Takes no
/// memory.
pub fn has_long_exception(series: &Series, resources: &[u64]) -> bool
    ensures { result ≡ (not (length resources.now == 0) && not (are_week_long series.now.exceptions)) }
{
    !resources.is_empty() && !are_week_long(series.exceptions.items())
}

/// The same of an event that has bad properties. Overrides that an event may not have aren't looked at. Takes memory where overrides do.
pub fn has_long_override<V: CalendarsView>(
    alloc: Global,
    view: &V,
    zones: &Zones,
    event: &Tree,
    resources: &[u64],
) -> Result<bool, AllocError>
    requires { resources.now ≡ resources_of (V.changes view.now) (data_of event.now) }
    ensures { IfOk result (λ b. b ≡ has_long_override zones.now (V.changes view.now) (data_of event.now)) }
{
    if resources.is_empty() {
        return Ok(false);
    }
    Ok(!are_overrides_week_long(alloc, zones, event)?)
}

#[tactic(auto, using(event_model::proofs::OverrideLemmas::refused_are_none))]
fn are_overrides_week_long(alloc: Global, zones: &Zones, event: &Tree) -> Result<bool, AllocError>
    ensures { IfOk result (λ b. b ≡ option_map_or are_week_long (exceptions_in zones.now (data_of event.now)) true) }
{
    match exceptions(alloc, event, zones) {
        Ok(exceptions) => Ok(are_week_long(exceptions.items())),
        Err(OverrideError::BadOverrides) => Ok(true),
        Err(OverrideError::BadOverride { .. }) => Ok(true),
        Err(OverrideError::NoMemory) => Err(AllocError),
    }
}

fn are_week_long(exceptions: &[Exception]) -> bool
    ensures { result ≡ are_week_long exceptions.now }
{
    for exception in exceptions {
        if !is_week_long(exception.replaced) {
            return false;
        }
    }
    true
}

fn is_week_long(replaced: Option<Span>) -> bool
    ensures { result ≡ is_week_long replaced }
{
    match replaced {
        Some(span) => lasts_a_week(span.length),
        None => true,
    }
}

// In 128 bits, since a length is any two numbers.
fn lasts_a_week(length: Length) -> bool
    ensures { result ≡ nat_le (wall_seconds length) 604800 }
{
    u128::from(DAY) * u128::from(length.days) + u128::from(length.seconds) <= u128::from(WEEK)
}
