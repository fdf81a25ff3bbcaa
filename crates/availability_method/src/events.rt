//! The busy periods of events.
ghost use Rattle.std.specs.Prelude.{◌≡◌, ◌&&◌, ◌||◌, ◌<ℤ◌, ℤ, All, IfOk, OnOk, map, true};
ghost use Rattle.availability_method.specs.Periods.{AreInYears};
ghost use Rattle.event_store.specs.StoredEvents.{HasItsSeries};
ghost use Rattle.spec_availability.specs.BusyInstants.{is_taken_up, takes_up};
ghost use Rattle.spec_availability.specs.Runs.{runs_in};
ghost use Rattle.spec_events.specs.Values.{is_showing};
ghost use Rattle.spec_json.specs.TreeData.{data_of};
ghost use Rattle.spec_windows.specs.BusyPeriods.{is_busy, lies_in};

use availability::Busy;
use event_store::StoredEvent;
use spec_json::text::Text;
use spec_windows::period::Period;
use std::alloc::{AllocError, Global};
use zone_instants::rule_of_event;
use zone_table::Zones;

/// The busy periods of a window, over all occurrences of these events. A floating event has the zone of this name.
pub(crate) fn busy_of(
    alloc: Global,
    events: &[StoredEvent<'_>],
    zones: &Zones,
    floating: &Text,
    window: Period,
) -> Result<Vec<Period>, AllocError>
    requires series { All (HasItsSeries zones.now) events.now }
    requires from { is_showing window.from ≡ true }
    requires to { is_showing window.to ≡ true }
    requires order { window.from <ℤ window.to }
    ensures periods { IfOk result (λ ps. ps.items ≡ runs_in (is_taken_up zones.now floating.now (map (λ e. e.object.now) events.now)) window) }
    ensures years { IfOk result (λ ps. AreInYears ps.items) }
{
    let mut busy = Busy::new(alloc, window);
    for event in events {
        add_event(alloc, &mut busy, event, zones, floating)?;
    }
    busy.into_periods(alloc)
}

// Adds what the occurrences of an event take up of the window.
fn add_event(
    alloc: Global,
    busy: &mut Busy,
    event: &StoredEvent<'_>,
    zones: &Zones,
    floating: &Text,
) -> Result<(), AllocError>
    requires { HasItsSeries zones.now event.now }
    ensures window { busy.new.window ≡ busy.old.window }
    ensures busy { OnOk result ((u : ℤ) → is_busy busy.new.spans.items u
        ≡ (is_busy busy.old.spans.items u || (lies_in u busy.old.window && takes_up zones.now floating.now u (data_of event.now.object.now)))) }
{
    let Some(series) = event.series else {
        return Ok(());
    };
    let Some(rule) = rule_of_event(zones, floating, event.object) else {
        return Ok(());
    };
    busy.add(alloc, series, &rule)
}
