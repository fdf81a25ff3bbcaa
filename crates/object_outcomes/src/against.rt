//! What stands against the bookings of an event.
ghost use Rattle.std.specs.Prelude.{◌≡◌, All, None, false, true, length, nat_le, IfNone, ℕ};
ghost use Rattle.std.specs.List.{list_any};
ghost use Rattle.cal_model.specs.Fits.{IsBookable};
ghost use Rattle.spec_events.specs.Events.{names_calendar};
ghost use Rattle.spec_json.specs.TreeData.{data_of};
ghost use Rattle.spec_bookings.specs.BookedResources.{clash_of_event, first_clash_in, has_full_resource, other_bookings};
ghost use Rattle.spec_bookings.specs.Resources.{is_resource, resources_of};
ghost use Rattle.spec_bookings.specs.declared.limits.TheConstants.{MAX_BOOKINGS};
ghost use Rattle.spec_bookings.specs.Clashes.{IsClear};
ghost use Rattle.spec_series.specs.Lengths.{IsWeekLong};
ghost use Rattle.object_outcomes.specs.Judging.{IsStorable};

use cal_model::view::CalendarsView;
use spec_bookings::clash::Clash;
use spec_bookings::limits::is_full;
use spec_json::tree::Tree;
use spec_series::series::Series;

/// What stands against the bookings that an event would make.
#[derive(Drop)]
pub struct Against {
    /// A resource has as many bookings of others as it may have.
    pub is_full: bool,
    /// The first resource calendar, in order of creation, in which it would clash, with the clash.
    pub clash: Option<(u64, Clash)>,
}

/// What stands against the bookings of an event of this series, of which no occurrence is too long for the resources that it is in.
/// Where nothing does, each of these takes its booking. Takes no memory.
pub fn stands_against<V: CalendarsView>(
    view: &V,
    number: u64,
    event: &Tree,
    resources: &[u64],
    series: &Series,
) -> Against
    requires resources { resources.now ≡ resources_of (V.changes view.now) (data_of event.now) }
    requires event { IsStorable (V.base view.now).zones (V.changes view.now) (data_of event.now) series.now }
    ensures full { result.is_full ≡ has_full_resource (V.base view.now).zones (V.changes view.now) number (data_of event.now) }
    ensures clash { result.clash ≡ clash_of_event (V.base view.now).zones (V.changes view.now) number (data_of event.now) }
    ensures nothing { result.is_full ≡ false → result.clash ≡ None → (calendar : ℕ) → names_calendar calendar (data_of event.now) ≡ true
        → is_resource (V.changes view.now) calendar ≡ true
        → IsBookable (V.base view.now).zones (V.changes view.now) number calendar (data_of event.now) }
{
    if resources.is_empty() {
        return Against {
            is_full: false,
            clash: None,
        };
    }
    Against {
        is_full: is_any_full(view, number, resources),
        clash: first_clash(view, number, resources, series),
    }
}

// Whether one of these resources has as many bookings, beside that of an event, as it may have.
fn is_any_full<V: CalendarsView>(view: &V, event: u64, resources: &[u64]) -> bool
    requires { All (λ n. is_resource (V.changes view.now) n ≡ true) resources.now }
    ensures { result ≡ list_any (λ n. nat_le MAX_BOOKINGS (length (other_bookings (V.base view.now).zones (V.changes view.now) event n))) resources.now }
{
    for number in resources {
        if is_full(view.bookings(*number, event)) {
            return true;
        }
    }
    false
}

// The first of these resources in which a series would clash with bookings beside that of an event, with the clash.
fn first_clash<V: CalendarsView>(
    view: &V,
    event: u64,
    resources: &[u64],
    series: &Series,
) -> Option<(u64, Clash)>
    requires resources { All (λ n. is_resource (V.changes view.now) n ≡ true) resources.now }
    requires week { IsWeekLong series.now }
    ensures exact { result ≡ first_clash_in (V.base view.now).zones (V.changes view.now) event series.now resources.now }
    ensures clear { IfNone result (All (λ n. IsClear (other_bookings (V.base view.now).zones (V.changes view.now) event n) series.now) resources.now) }
{
    for number in resources {
        if let Some(clash) = view.clash(*number, event, series) {
            return Some((*number, clash));
        }
    }
    None
}
