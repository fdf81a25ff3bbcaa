//! How long an event lasts.
ghost use Rattle.std.specs.Prelude.{◌≡◌, ◌≤◌, []};
ghost use Rattle.spec_events.specs.Events.{length_in};
ghost use Rattle.spec_json.specs.TreeData.{data_of};
ghost use Rattle.spec_recurrence.specs.Recurrence.{bad_properties_of_event};
ghost use Rattle.spec_series.specs.SeriesLimits.{wall_seconds};

use single_event::parts::given_length;
use spec_json::tree::Tree;
use spec_time::length::Length;
use zone_table::Zones;

/// How long an event lasts that has no bad properties.
#[tactic(auto, using(crate::proofs::EventLemmas::event_is_short))]
pub(crate) fn length_of(event: &Tree, zones: &Zones) -> Length
    requires { bad_properties_of_event zones.now (data_of event.now) ≡ [] }
    ensures value { result ≡ length_in (data_of event.now) }
    ensures short { wall_seconds result ≤ 31622400 }
{
    match given_length(event) {
        Some(length) => length,
        None => Length {
            days: 0,
            seconds: 0,
        },
    }
}
